//! Writing into a lent buffer.
//!
//! Each function writes from the page's place on and moves the place behind what it wrote. What
//! finds no room is not written, and the place moves on all the same: so a text is measured by
//! writing it on a page of no bytes.
ghost use Rattle.std.specs.Prelude.{ℕ, List, map, decimal};
ghost use Rattle.std.specs.List.{flat_map};
ghost use Rattle.reports.specs.Puts.{Put};
ghost use Rattle.reports.specs.Written.{line_end, next_cell};

use itoa::Buffer;

/// A lent buffer, and the place in it where the next text is written.
#[derive(Drop)]
pub(crate) struct Page<'b> {
    pub out: &'b mut [u8],
    pub at: usize,
}

impl Page<'_> {
    /// Writes the bytes.
    pub fn put_bytes(&mut self, bytes: &[u8])
        ensures { Put self.old bytes.now self.new }
    {
        let end = self.at.saturating_add(bytes.len());
        if end <= self.out.len() {
            self.out[self.at..end].copy_from_slice(bytes);
        }
        self.at = end;
    }

    /// Writes a comma and the cell behind it.
    pub fn put_cell<C: Cell>(&mut self, cell: C)
        ensures { Put self.old (next_cell (C.text cell)) self.new }
    {
        self.put_bytes(b",");
        cell.put(self);
    }

    /// Writes a comma and a cell behind it, for each of the cells.
    pub fn put_cells<C: Cell>(&mut self, cells: &[C])
        ensures { Put self.old (flat_map next_cell (map C.text cells.now)) self.new }
    {
        for cell in cells {
            self.put_cell(*cell);
        }
    }

    /// Ends a line.
    pub fn put_line_end(&mut self)
        ensures { Put self.old line_end self.new }
    {
        self.put_bytes(b"\r\n");
    }
}

/// What a cell shows: a text, or a number.
pub(crate) trait Cell: Copy {
    ghost text: { Self → List ℕ };

    /// Writes it.
    fn put(self, page: &mut Page<'_>)
        ensures { Put page.old (text self) page.new };
}

impl Cell for &[u8] {
    ghost text = { λ bytes. bytes.now };

    fn put(self, page: &mut Page<'_>) {
        page.put_bytes(self);
    }
}

impl Cell for u64 {
    ghost text = { decimal };

    fn put(self, page: &mut Page<'_>) {
        page.put_bytes(Buffer::new().format(self).as_bytes());
    }
}
