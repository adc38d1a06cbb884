//! The fields of a group.
ghost use Rattle.std.specs.Prelude.{◌≡◌, ◌<◌, ◌↔◌, IsTrue};
ghost use Rattle.groups.specs.Frames.{choose};
ghost use Rattle.lists.specs.Fields.{Tagged, tag_of};

use crate::fault::ListCause;

/// A field of a group, by its tag. The tags rise within a group.
#[derive(Clone, Copy, Debug, PartialEq, Eq, PartialOrd, Ord)]
pub(crate) enum Field {
    Name = 1,
    Publisher = 2,
    Print = 3,
    Online = 4,
}

impl Field {
    /// Whether the field may stand behind the one that was last, if there is one.
    pub(crate) fn follows(self, last: Option<Field>) -> bool
        ensures { IsTrue result ↔ (choose last 0 tag_of < tag_of self) }
    {
        last < Some(self)
    }
}

impl From<Field> for u8 {
    ghost from_gives = { λ field tag. tag ≡ tag_of field };

    fn from(field: Field) -> u8 {
        field as u8
    }
}

impl TryFrom<u8> for Field {
    type Error = ListCause;

    ghost try_from_gives = { Tagged };

    fn try_from(tag: u8) -> Result<Field, ListCause> {
        match tag {
            1 => Ok(Field::Name),
            2 => Ok(Field::Publisher),
            3 => Ok(Field::Print),
            4 => Ok(Field::Online),
            _ => Err(ListCause::MisplacedTag),
        }
    }
}
