//! Where a walk over a file stands.
ghost use Rattle.std.specs.Prelude.{◌+◌, ◌≤◌, length};

/// A walk over the lent bytes of a file, cell by cell. It remembers its line and its column.
// The form is fixed: the lent bytes with offset, line and column. Contracts say by `place_of` where a walk stands, those of
// the crates above too.
#[derive(Drop)]
pub struct CellReader<'a> {
    pub(crate) file: &'a [u8],
    pub(crate) offset: usize,
    pub(crate) line: usize,
    pub(crate) column: usize,
    ghost within: { (offset ≤ length file.now) × (line ≤ offset + 1) × (column ≤ offset + 1) },
}
