//! Texts: what may stand in a cell of a report.
#![tactic(auto)]

ghost use Rattle.std.specs.Prelude.{◌≡◌};
ghost use Rattle.texts.specs.Texts.{all_fit, fit, is_text};

/// The most bytes that a text has.
pub const LONGEST: usize = 200;

/// Whether a byte may stand in a text: visible ASCII or a space, but no quotation mark, apostrophe or comma.
pub fn is_fit(byte: u8) -> bool
    ensures { result ≡ fit byte }
{
    matches!(byte, b' '..=b'~') && !matches!(byte, b'"' | b'\'' | b',')
}

/// Whether the bytes are a text: 1 to 200 of them, each fit.
pub fn is_text(bytes: &[u8]) -> bool
    ensures { result ≡ is_text bytes.now }
{
    (1..=LONGEST).contains(&bytes.len()) && all_fit(bytes)
}

fn all_fit(bytes: &[u8]) -> bool
    ensures { result ≡ all_fit bytes.now }
{
    bytes.iter().copied().all(is_fit)
}
