//! A title in the making, field by field.
ghost use Rattle.std.specs.Prelude.{◌≡◌, Ok, Err, OnOk};
ghost use Rattle.groups.specs.Frames.{choose};
ghost use Rattle.groups.specs.Views.{frame_of};
ghost use Rattle.titles.specs.Places.{map_ok};
ghost use Rattle.titles.specs.Titles.{entry_of};
ghost use Rattle.lists.specs.Entries.{complete, known_of, last_of, with_bytes, with_field};
ghost use Rattle.lists.specs.Fields.{held_or, issn_fault, issn_of, read_bytes, tag_of, text_fault};

use crate::fault::{FieldFault, ListCause};
use crate::field::Field;
use groups::Block;
use titles::{Issn, Title, check_text, read_issn};

/// What the fields of a group have said so far; none where a field is absent, or an ISSN is blank.
#[derive(Clone, Copy, Default)]
pub(crate) struct Draft<'a> {
    /// The field that was noted last.
    last: Option<Field>,
    name: Option<&'a [u8]>,
    publisher: Option<&'a [u8]>,
    print: Option<Issn>,
    online: Option<Issn>,
}

/// The bytes of a field that holds a text.
fn read_text(bytes: &[u8]) -> Result<&[u8], FieldFault>
    ensures { held_or result ≡ read_bytes (text_fault bytes.now) bytes.now }
{
    check_text(bytes)?;
    Ok(bytes)
}

/// The ISSN of a field that holds one, or may be blank.
fn read_blank_or_issn(bytes: &[u8]) -> Result<Option<Issn>, FieldFault>
    ensures { result ≡ choose (issn_fault bytes.now) (Ok (issn_of bytes.now)) Err }
{
    if bytes.is_empty() {
        return Ok(None);
    }
    Ok(Some(read_issn(bytes)?))
}

impl<'a> Draft<'a> {
    /// Notes a field, or tells why it may not stand behind those before it.
    pub(crate) fn note(&mut self, block: &Block<'a>) -> Result<(), ListCause>
        ensures noted { map_ok (λ _. known_of self.new) result ≡ with_field (last_of self.old) (frame_of block.now) (known_of self.old) }
        ensures last { OnOk result (last_of self.new ≡ block.now.tag) }
    {
        let field = Field::try_from(block.tag)?;
        if !field.follows(self.last) {
            return Err(ListCause::MisplacedTag);
        }
        let bytes = block.contents.ok_or(ListCause::CutField)?;
        self.hold(field, bytes)?;
        self.last = Some(field);
        Ok(())
    }

    /// Holds the bytes of a field, if they are what it should hold.
    fn hold(&mut self, field: Field, bytes: &'a [u8]) -> Result<(), FieldFault>
        ensures { map_ok (λ _. known_of self.new) result ≡ with_bytes (tag_of field) bytes.now (known_of self.old) }
    {
        match field {
            Field::Name => self.name = Some(read_text(bytes)?),
            Field::Publisher => self.publisher = Some(read_text(bytes)?),
            Field::Print => self.print = read_blank_or_issn(bytes)?,
            Field::Online => self.online = read_blank_or_issn(bytes)?,
        }
        Ok(())
    }

    /// The title, if its name and its publisher are there, else the first that is not.
    pub(crate) fn title(self) -> Result<Title<'a>, Field>
        ensures { map_ok entry_of result ≡ complete (known_of self.entry) }
    {
        Ok(Title {
            name: self.name.ok_or(Field::Name)?,
            publisher: self.publisher.ok_or(Field::Publisher)?,
            print: self.print,
            online: self.online,
        })
    }
}
