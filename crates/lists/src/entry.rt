//! One entry of a list: the title that a group says.
ghost use Rattle.std.specs.Prelude.{◌≡◌, ◌+◌, ◌^◌, ◌<◌, length};
ghost use Rattle.groups.specs.Frames.{held, size};
ghost use Rattle.groups.specs.Views.{frame_of};
ghost use Rattle.titles.specs.Places.{map_ok};
ghost use Rattle.titles.specs.Titles.{entry_of};
ghost use Rattle.lists.specs.Entries.{complete, entry_or, fault_at, known_of, read_entry, read_group};
ghost use Rattle.lists.specs.Faults.{byte_of};

use crate::draft::Draft;
use crate::fault::{ListCause, ListFault};
use groups::{Block, Blocks};
use titles::Title;

/// The tag of a group.
const GROUP: u8 = 0x30;

/// The most groups that a list has.
const MOST: usize = 512;

/// A whole group of a list, and the entry that it is.
#[derive(Clone, Copy)]
struct Group<'a> {
    /// The number of the entry, from 0.
    number: usize,
    /// Where the group's tag stands in the list.
    place: usize,
    /// Its fields, behind the tag and the length.
    contents: &'a [u8],
    ghost fits: { place + 3 + length contents.now < 2 ^ 64 },
}

impl<'a> Group<'a> {
    /// The fault of a field.
    fn fault_at(&self, field: &Block<'_>, cause: ListCause) -> ListFault
        requires place { self.now.place + 3 + field.now.place < 2 ^ 64 }
        requires byte { byte_of cause (self.now.place + 3 + field.now.place) < 2 ^ 64 }
        ensures { result ≡ fault_at self.now.number (self.now.place + 3 + field.now.place) field.now.tag cause }
    {
        ListFault {
            entry: self.number,
            field: cause.field(field.tag),
            byte: cause.byte(self.place + 3 + field.place),
            cause,
        }
    }

    /// The title that the fields say, or the first fault.
    fn title(&self) -> Result<Title<'a>, ListFault>
        ensures { map_ok entry_of result ≡ read_group self.now.number self.now.place self.now.contents.now }
    {
        let mut draft = Draft::default();
        for field in Blocks::new(self.contents) {
            // No `map_err`: of a closure that holds group and field, nothing is known of the fault that it makes.
            if let Err(cause) = draft.note(&field) {
                return Err(self.fault_at(&field, cause));
            }
        }
        self.finish(draft)
    }

    /// The title, or the fault of the field that is missing, which lies at the group.
    fn finish(&self, draft: Draft<'a>) -> Result<Title<'a>, ListFault>
        ensures { map_ok entry_of result ≡ entry_or self.now.number self.now.place (complete (known_of draft.entry)) }
    {
        let (entry, byte) = (self.number, self.place);
        draft.title().map_err(|field| ListFault {
            entry,
            field: u8::from(field),
            byte,
            cause: ListCause::MissingField,
        })
    }
}

/// The title of the entry `number`, or its first fault.
pub(crate) fn read_entry<'a>(number: usize, block: &Block<'a>) -> Result<Title<'a>, ListFault>
    requires { block.now.place + size (held block.now.contents) < 2 ^ 64 }
    ensures { map_ok entry_of result ≡ read_entry number (frame_of block.now) }
{
    let place = block.place;
    if number >= MOST {
        return Err(ListFault::of_group(number, place, ListCause::SurplusGroup));
    }
    let contents = block
        .contents_under(GROUP)
        .ok_or(ListFault::of_group(number, place, ListCause::BrokenGroup))?;
    Group {
        number,
        place,
        contents,
    }
    .title()
}
