//! Numbers as a report shows them.
ghost use Rattle.std.specs.Prelude.{◌≡◌};
ghost use Rattle.cells.specs.Numbers.{number_of, plain};

/// The highest number that is shown.
// As in `reports`, whose numbers are sums of 64 bits.
const HIGHEST: u32 = 1_000_000_000;

/// The number that the bytes show, if it is digits without a leading zero and at most 1,000,000,000.
// A function and no `TryFrom`: bytes and numbers are no types of this crate.
pub(crate) fn read_number(bytes: &[u8]) -> Option<u32>
    ensures { result ≡ number_of bytes.now }
{
    if !is_plain(bytes) {
        return None;
    }
    // Digit by digit, and no further than the first byte that is none: each cell of a file comes here, and the library's
    // `parse`, which wants the whole cell to be UTF-8 first, takes three to four times as long.
    let mut number = 0u32;
    for byte in bytes {
        if !byte.is_ascii_digit() || number > HIGHEST / 10 {
            return None;
        }
        number = number * 10 + u32::from(*byte - b'0');
    }
    if number > HIGHEST { None } else { Some(number) }
}

/// Whether there is a byte, and no zero leads others.
fn is_plain(bytes: &[u8]) -> bool
    ensures { result ≡ plain bytes.now }
{
    !matches!(bytes, [] | [b'0', _, ..])
}
