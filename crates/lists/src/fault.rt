//! What may be wrong with a title list. Each fault holds the one below it.
ghost use Rattle.std.specs.Prelude.{◌≡◌, ◌^◌, ◌<◌};
ghost use Rattle.lists.specs.declared.fault.FieldFault.TheVariants.{Text, Issn};
ghost use Rattle.lists.specs.declared.fault.ListCause.TheVariants.{Field};
ghost use Rattle.lists.specs.declared.fault.ListRefusal.TheVariants.{Broken};
ghost use Rattle.lists.specs.Faults.{byte_of, field_fault_place, field_of, group_fault};

use std::error::Error;
use std::fmt;
use titles::{IssnFault, TextFault};

/// Why the bytes of a field are not what the field should hold.
#[derive(Clone, Copy, Debug, PartialEq, Eq)]
pub enum FieldFault {
    /// They are no text.
    Text(TextFault),
    /// They are no ISSN, and not blank.
    Issn(IssnFault),
}

/// Why a list is broken.
#[derive(Clone, Copy, Debug, PartialEq, Eq)]
pub enum ListCause {
    /// It is empty.
    NoGroup,
    /// A 513th group begins.
    SurplusGroup,
    /// The group has another tag than 0x30, or passes the end of the list.
    BrokenGroup,
    /// A field's tag is not 1 to 4, or not above the one before it.
    MisplacedTag,
    /// A field passes the end of its group.
    CutField,
    /// The bytes of a field are not what it should hold.
    Field(FieldFault),
    /// The name or the publisher is missing.
    MissingField,
}

/// The first fault of a list.
#[derive(Clone, Copy, Debug, PartialEq, Eq)]
pub struct ListFault {
    /// The number of the group, from 0.
    pub entry: usize,
    /// The tag of the field that is missing or holds what it should not; 0 where the list or the group is built wrong. It is
    /// a number, since the refusal tells it as one.
    pub field: u8,
    /// The place in the list, from 0: of the first unfit byte, of the last sign of an ISSN with a wrong sum, or else of the tag
    /// of what is at fault.
    pub byte: usize,
    pub cause: ListCause,
}

/// Why a list was not read.
#[derive(Clone, Copy, Debug, PartialEq, Eq)]
pub enum ListRefusal {
    /// Refusal 10: the list is broken.
    Broken(ListFault),
    /// Refusal 11: the list is right, and has more titles than the table has entries.
    TableTooShort,
}

impl From<TextFault> for FieldFault {
    ghost from_gives = { λ e r. r ≡ Text e };

    fn from(fault: TextFault) -> FieldFault {
        FieldFault::Text(fault)
    }
}

impl From<IssnFault> for FieldFault {
    ghost from_gives = { λ e r. r ≡ Issn e };

    fn from(fault: IssnFault) -> FieldFault {
        FieldFault::Issn(fault)
    }
}

impl From<FieldFault> for ListCause {
    ghost from_gives = { λ e r. r ≡ Field e };

    fn from(fault: FieldFault) -> ListCause {
        ListCause::Field(fault)
    }
}

impl From<ListFault> for ListRefusal {
    ghost from_gives = { λ e r. r ≡ Broken e };

    fn from(fault: ListFault) -> ListRefusal {
        ListRefusal::Broken(fault)
    }
}

impl fmt::Display for FieldFault {
    fn fmt<W: fmt::Write>(&self, f: &mut fmt::Formatter<W>) -> fmt::Result {
        match self {
            FieldFault::Text(fault) => write!(f, "no text: {fault}"),
            FieldFault::Issn(fault) => write!(f, "no ISSN: {fault}"),
        }
    }
}

impl fmt::Display for ListCause {
    fn fmt<W: fmt::Write>(&self, f: &mut fmt::Formatter<W>) -> fmt::Result {
        match self {
            ListCause::NoGroup => write!(f, "no group"),
            ListCause::SurplusGroup => write!(f, "a 513th group"),
            ListCause::BrokenGroup => write!(f, "no whole group"),
            ListCause::MisplacedTag => write!(f, "a misplaced tag"),
            ListCause::CutField => write!(f, "a field that is cut off"),
            ListCause::Field(fault) => write!(f, "{fault}"),
            ListCause::MissingField => write!(f, "a missing field"),
        }
    }
}

impl fmt::Display for ListFault {
    fn fmt<W: fmt::Write>(&self, f: &mut fmt::Formatter<W>) -> fmt::Result {
        let ListFault {
            entry,
            field,
            byte,
            cause,
        } = self;
        write!(f, "entry {entry}, field {field}, byte {byte}: {cause}")
    }
}

impl fmt::Display for ListRefusal {
    fn fmt<W: fmt::Write>(&self, f: &mut fmt::Formatter<W>) -> fmt::Result {
        match self {
            ListRefusal::Broken(fault) => write!(f, "{fault}"),
            ListRefusal::TableTooShort => write!(f, "more titles than the table has entries"),
        }
    }
}

impl Error for FieldFault {}

impl Error for ListCause {}

impl Error for ListFault {}

impl Error for ListRefusal {}

impl FieldFault {
    /// The byte at fault, counted from the first of the field. A wrong length lies at none.
    pub fn place(&self) -> Option<usize>
        ensures { result ≡ field_fault_place self.now }
    {
        // Two arms that read alike, since the faults are of two types: a trait for this one call would be longer.
        match self {
            FieldFault::Text(fault) => fault.place(),
            FieldFault::Issn(fault) => fault.place(),
        }
    }
}

impl ListCause {
    /// The field that this is told of, where it lies at one with this tag.
    pub(crate) fn field(self, tag: u8) -> u8
        ensures { result ≡ field_of self tag }
    {
        match self {
            ListCause::Field(_) | ListCause::MissingField => tag,
            _ => 0,
        }
    }

    /// The byte where this lies, when the field's tag stands at this place.
    pub(crate) fn byte(self, place: usize) -> usize
        requires { byte_of self place < 2 ^ 64 }
        ensures { result ≡ byte_of self place }
    {
        match self {
            ListCause::Field(fault) => fault.place().map_or(place, |unfit| place + 3 + unfit),
            _ => place,
        }
    }
}

impl ListFault {
    /// The fault of the whole group of the entry `number`, which stands at `place`.
    // Not of a `Group`: it is told of blocks that are not whole, or are one too many.
    pub(crate) fn of_group(number: usize, place: usize, cause: ListCause) -> ListFault
        ensures { result ≡ group_fault number place cause }
    {
        ListFault {
            entry: number,
            field: 0,
            byte: place,
            cause,
        }
    }
}
