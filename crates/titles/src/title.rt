//! A title: a journal as a title list has it.
ghost use Rattle.std.specs.Prelude.{◌≡◌, is_ok};
ghost use Rattle.titles.specs.Places.{map_ok};
ghost use Rattle.titles.specs.Titles.{check_issn, entry_of, is_entry, judge, new_entry};

use crate::issn::{Issn, IssnFault, read_issn};
use crate::text::{TextFault, check_text};
use std::error::Error;
use std::fmt;

/// A journal: its name, its publisher, and the ISSNs of its printed and its online issues, each of which may be blank.
///
/// Any bytes may stand in the name and the publisher. `check` tells whether they are texts.
/// The default has no bytes in either, and both ISSNs blank.
#[derive(Clone, Copy, Debug, Default, PartialEq, Eq)]
pub struct Title<'a> {
    pub name: &'a [u8],
    pub publisher: &'a [u8],
    pub print: Option<Issn>,
    pub online: Option<Issn>,
}

/// The first part of a title that is not what it should be, and why.
#[derive(Clone, Copy, Debug, PartialEq, Eq)]
pub enum TitleFault {
    Name(TextFault),
    Publisher(TextFault),
    Print(IssnFault),
    Online(IssnFault),
}

impl fmt::Display for TitleFault {
    fn fmt<W: fmt::Write>(&self, f: &mut fmt::Formatter<W>) -> fmt::Result {
        match self {
            TitleFault::Name(fault) => write!(f, "name: {fault}"),
            TitleFault::Publisher(fault) => write!(f, "publisher: {fault}"),
            TitleFault::Print(fault) => write!(f, "print ISSN: {fault}"),
            TitleFault::Online(fault) => write!(f, "online ISSN: {fault}"),
        }
    }
}

impl Error for TitleFault {}

impl<'a> Title<'a> {
    /// A title of these parts, if they are what they should be.
    pub fn new(
        name: &'a [u8],
        publisher: &'a [u8],
        print: Option<Issn>,
        online: Option<Issn>,
    ) -> Result<Title<'a>, TitleFault>
        ensures { map_ok entry_of result ≡ judge (new_entry name.now publisher.now print online) }
    {
        let title = Title {
            name,
            publisher,
            print,
            online,
        };
        title.check()?;
        Ok(title)
    }

    /// Checks that the name and the publisher are texts, and that each ISSN is a right one or blank.
    pub fn check(&self) -> Result<(), TitleFault>
        ensures judged { map_ok (λ _. entry_of self.now) result ≡ judge (entry_of self.now) }
        ensures sound { is_ok result ≡ is_entry (entry_of self.now) }
    {
        check_text(self.name).map_err(TitleFault::Name)?;
        check_text(self.publisher).map_err(TitleFault::Publisher)?;
        check_issn(self.print).map_err(TitleFault::Print)?;
        check_issn(self.online).map_err(TitleFault::Online)
    }
}

/// Checks that an ISSN is a right one or blank.
fn check_issn(issn: Option<Issn>) -> Result<(), IssnFault>
    ensures { map_ok (λ _. issn) result ≡ check_issn issn }
{
    if let Some(issn) = issn {
        read_issn(issn.as_bytes())?;
    }
    Ok(())
}
