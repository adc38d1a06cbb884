//! International Standard Serial Numbers, as ISO 3297 has them.
ghost use Rattle.std.specs.Prelude.{◌≡◌, is_ok, Decides};
ghost use Rattle.titles.specs.Issns.{issn_fault_place, read_issn, right_sum};
ghost use Rattle.titles.specs.Spelling.{Right};
ghost use Rattle.titles.specs.Weighing.{check_at, digit_at, weigh_back, weigh_front};

use std::error::Error;
use std::fmt;

/// Where the hyphen stands.
const HYPHEN_PLACE: usize = 4;

/// Where the check sign stands.
const CHECK_PLACE: usize = 8;

/// An ISSN, as it is written: four digits, a hyphen, three digits and a check sign.
///
/// Only `read_issn` makes one, and `try_from` by it.
#[derive(Clone, Copy, Debug, PartialEq, Eq)]
pub struct Issn {
    bytes: [u8; 9],
}

/// What is wrong with bytes that are no ISSN.
#[derive(Clone, Copy, Debug, PartialEq, Eq)]
pub enum IssnFault {
    /// There are not nine of them.
    Length,
    /// The byte at this place, from 0 to 8, may not stand there.
    Unfit { place: usize },
    /// They have the form, and the check sign does not fit the digits.
    CheckSum,
}

impl IssnFault {
    /// The byte at fault. A wrong length lies at none, and a wrong sum at the check sign.
    pub fn place(&self) -> Option<usize>
        ensures { result ≡ issn_fault_place self.now }
    {
        match *self {
            IssnFault::Length => None,
            IssnFault::Unfit { place } => Some(place),
            IssnFault::CheckSum => Some(CHECK_PLACE),
        }
    }
}

impl fmt::Display for IssnFault {
    fn fmt<W: fmt::Write>(&self, f: &mut fmt::Formatter<W>) -> fmt::Result {
        match self {
            IssnFault::Length => write!(f, "length"),
            IssnFault::Unfit { .. } => write!(f, "unfit byte"),
            IssnFault::CheckSum => write!(f, "check sum"),
        }
    }
}

impl Error for IssnFault {}

impl Issn {
    /// The nine bytes that were read.
    pub fn as_bytes(&self) -> &[u8]
        ensures { result.now ≡ self.now.bytes }
    {
        &self.bytes
    }
}

impl TryFrom<&[u8]> for Issn {
    type Error = IssnFault;

    ghost try_from_gives = { λ bytes r. r ≡ read_issn bytes.now };

    fn try_from(bytes: &[u8]) -> Result<Issn, IssnFault> {
        read_issn(bytes)
    }
}

/// Reads an ISSN.
///
/// The first seven digits times 8 down to 2, and the check sign, sum to a multiple of 11. A length other than nine
/// is found first, then the first byte that may not stand at its place, and a wrong sum last.
#[tactic(auto, using(crate::proofs::Halves::by_halves, crate::proofs::Spelled::reading_decides))]
pub fn read_issn(bytes: &[u8]) -> Result<Issn, IssnFault>
    ensures read { result ≡ read_issn bytes.now }
    ensures right { Decides (is_ok result) (Right bytes.now) }
{
    match bytes {
        [a, b, c, d, b'-', e, f, g, check] => {
            let front = weigh_front(*a, *b, *c, *d)?;
            let back = weigh_back(*e, *f, *g, *check)?;
            if !is_right_sum(front + back) {
                return Err(IssnFault::CheckSum);
            }
            Ok(Issn {
                bytes: [*a, *b, *c, *d, b'-', *e, *f, *g, *check],
            })
        }
        [a, b, c, d, _, _, _, _, _] => {
            weigh_front(*a, *b, *c, *d)?;
            Err(IssnFault::Unfit {
                place: HYPHEN_PLACE,
            })
        }
        _ => Err(IssnFault::Length),
    }
}

/// The four digits before the hyphen, times 8, 7, 6 and 5.
fn weigh_front(a: u8, b: u8, c: u8, d: u8) -> Result<u32, IssnFault>
    ensures { result ≡ weigh_front a b c d }
{
    Ok(8 * digit(a, 0)? + 7 * digit(b, 1)? + 6 * digit(c, 2)? + 5 * digit(d, 3)?)
}

/// The three digits behind the hyphen, times 4, 3 and 2, and the check sign.
fn weigh_back(e: u8, f: u8, g: u8, check: u8) -> Result<u32, IssnFault>
    ensures { result ≡ weigh_back e f g check }
{
    Ok(4 * digit(e, 5)? + 3 * digit(f, 6)? + 2 * digit(g, 7)? + check_sign(check)?)
}

/// Whether a weighted sum is that of a right ISSN.
fn is_right_sum(sum: u32) -> bool
    ensures { result ≡ right_sum sum }
{
    sum % 11 == 0
}

/// What a digit counts.
fn digit(byte: u8, place: usize) -> Result<u32, IssnFault>
    ensures { result ≡ digit_at byte place }
{
    match byte {
        b'0'..=b'9' => Ok(u32::from(byte - b'0')),
        _ => Err(IssnFault::Unfit { place }),
    }
}

/// What the check sign counts: as a digit does, and a capital X 10.
fn check_sign(byte: u8) -> Result<u32, IssnFault>
    ensures { result ≡ check_at byte 8 }
{
    match byte {
        b'X' => Ok(10),
        _ => digit(byte, CHECK_PLACE),
    }
}
