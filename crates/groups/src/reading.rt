//! Blocks taken from the front of a row.
ghost use Rattle.std.specs.Prelude.{◌≡◌, ℕ, List, ◌++◌, length};
ghost use Rattle.std.specs.Iterator.{at_most};
ghost use Rattle.groups.specs.Frames.{counted, frames};
ghost use Rattle.groups.specs.Views.{Taken, ends, held_both, left, with_rest};
ghost use Rattle.groups.specs.Written.{placed, written_row};

use crate::block::{Block, Blocks};

/// The bytes that a two-byte length counts, and what stands behind them.
fn split_counted(bytes: &[u8]) -> Option<(&[u8], &[u8])>
    ensures { held_both result ≡ with_rest bytes.now (counted bytes.now) }
{
    let (length, rest) = bytes.split_first_chunk::<2>()?;
    rest.split_at_checked(usize::from(u16::from_be_bytes(*length)))
}

impl<'a> Blocks<'a> {
    /// The blocks of lent bytes. Places count from the first of them, from 0.
    ///
    /// Where a row of blocks was written, and anything behind it, these blocks come first. And where whole blocks come,
    /// and no other, the bytes are these blocks, written.
    pub fn new(bytes: &'a [u8]) -> Blocks<'a>
        ensures divided { left result ≡ frames 0 bytes.now }
        ensures written { (row : List (ℕ × List ℕ)) (rest : List ℕ) → bytes.now ≡ written_row row ++ rest → left result ≡ placed 0 row ++ frames (length (written_row row)) rest }
        ensures spelled { (row : List (ℕ × List ℕ)) → left result ≡ placed 0 row → bytes.now ≡ written_row row }
        ensures ends { ends result ≡ length bytes.now }
    {
        Blocks {
            rest: bytes,
            place: 0,
        }
    }
}

impl<'a> Iterator for Blocks<'a> {
    type Item = Block<'a>;

    ghost next_gives = { Taken };

    ghost remaining = { λ s. at_most (length s.rest.now) };

    /// The first block still to come; the others stay. At the end there is none, each time.
    ///
    /// A block that goes past the end is the last.
    fn next(&mut self) -> Option<Block<'a>> {
        let place = self.place;
        let (tag, after) = self.rest.split_first()?;
        let Some((contents, rest)) = split_counted(after) else {
            self.rest = &[];
            return Some(Block {
                place,
                tag: *tag,
                contents: None,
            });
        };
        self.rest = rest;
        self.place = place + 3 + contents.len();
        Some(Block {
            place,
            tag: *tag,
            contents: Some(contents),
        })
    }
}
