//! What is wrong with bytes that are no text.
ghost use Rattle.std.specs.Prelude.{◌≡◌, is_ok};
ghost use Rattle.texts.specs.Texts.{is_text};
ghost use Rattle.titles.specs.Places.{map_ok};
ghost use Rattle.titles.specs.Texts.{first_unfit_byte, read_text, text_fault_place};

use std::error::Error;
use std::fmt;
use texts::{LONGEST, is_fit};

/// Why bytes are no text.
#[derive(Clone, Copy, Debug, PartialEq, Eq)]
pub enum TextFault {
    /// There are none of them, or more than 200.
    Length,
    /// The first byte that may not stand in a text is at this place, counted from 0.
    Unfit { place: usize },
}

impl TextFault {
    /// The byte at fault. A wrong length lies at none.
    pub fn place(&self) -> Option<usize>
        ensures { result ≡ text_fault_place self.now }
    {
        match *self {
            TextFault::Length => None,
            TextFault::Unfit { place } => Some(place),
        }
    }
}

impl fmt::Display for TextFault {
    fn fmt<W: fmt::Write>(&self, f: &mut fmt::Formatter<W>) -> fmt::Result {
        match self {
            TextFault::Length => write!(f, "length"),
            TextFault::Unfit { .. } => write!(f, "unfit byte"),
        }
    }
}

impl Error for TextFault {}

/// Checks that the bytes are a text: 1 to 200 of them, each fit.
#[tactic(auto, using(crate::proofs::Fitness::all_fit_lem))]
pub fn check_text(bytes: &[u8]) -> Result<(), TextFault>
    ensures read { map_ok (λ _. bytes.now) result ≡ read_text bytes.now }
    ensures text { is_ok result ≡ is_text bytes.now }
{
    if !(1..=LONGEST).contains(&bytes.len()) {
        return Err(TextFault::Length);
    }
    match first_unfit(bytes) {
        None => Ok(()),
        Some(place) => Err(TextFault::Unfit { place }),
    }
}

/// Where the first byte stands that may not stand in a text.
fn first_unfit(bytes: &[u8]) -> Option<usize>
    ensures { result ≡ first_unfit_byte bytes.now }
{
    bytes.iter().position(|byte| !is_fit(*byte))
}
