//! A block, and a row of blocks.
ghost use Rattle.std.specs.Prelude.{◌+◌, ◌^◌, ◌<◌, length};

/// A block: a tag, a two-byte length, and as many bytes as the length says.
#[derive(Clone, Copy)]
pub struct Block<'a> {
    /// Where the tag stands.
    pub place: usize,
    pub tag: u8,
    /// The bytes behind the length; none where they, or the length itself, go past the end.
    pub contents: Option<&'a [u8]>,
}

impl<'a> Block<'a> {
    ghost use Rattle.std.specs.Prelude.{◌≡◌};
    ghost use Rattle.groups.specs.Frames.{contents_under, held};
    ghost use Rattle.groups.specs.Views.{frame_of};

    /// The contents, if the block has this tag and is whole.
    pub fn contents_under(&self, tag: u8) -> Option<&'a [u8]>
        ensures { held result ≡ contents_under tag (frame_of self.now) }
    {
        if self.tag == tag { self.contents } else { None }
    }
}

/// The blocks of a row that are still to come.
#[derive(Drop)]
pub struct Blocks<'a> {
    pub(crate) rest: &'a [u8],
    /// Where the first byte of the rest stands.
    pub(crate) place: usize,
    ghost fits: { place + length rest.now < 2 ^ 64 },
}
