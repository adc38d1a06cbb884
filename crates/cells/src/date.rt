//! Dates as a report shows them.
ghost use Rattle.std.specs.Prelude.{◌≡◌};
ghost use Rattle.cells.specs.Dates.{pair_in, read_date};

use columns::is_date;
use reports::Date;

/// The number that two digits show.
fn two_digits(tens: u8, ones: u8) -> Option<u8>
    ensures { result ≡ pair_in tens ones }
{
    if tens.is_ascii_digit() && ones.is_ascii_digit() {
        Some((tens - b'0') * 10 + (ones - b'0'))
    } else {
        None
    }
}

/// The date that the bytes show as yyyy-mm-dd, if it is a real one of 2000 to 2099.
// A function and no `TryFrom`, since bytes and dates are both types of other crates.
pub(crate) fn read_date(bytes: &[u8]) -> Option<Date>
    ensures { result ≡ read_date bytes.now }
{
    let [a, b, c, d, b'-', e, f, b'-', g, h] = bytes else {
        return None;
    };
    let century = two_digits(*a, *b)?;
    let years = two_digits(*c, *d)?;
    let month = two_digits(*e, *f)?;
    let day = two_digits(*g, *h)?;
    let year = u16::from(century) * 100 + u16::from(years);
    is_date(year, month, day).then_some(Date { year, month, day })
}
