//! Checks ISSNs, right and wrong ones, and prints for each what `read_issn` says of it.
#![tactic(auto)]

ghost use Rattle.std.specs.Prelude.{◌≡◌, ◌+◌, ◌<◌, [], ◌∷◌, if◌then◌else◌, nat_lt, slice_index, slice_set};

use std::str::from_utf8;
use titles::read_issn;

/// The digits and the check sign of an ISSN, without its hyphen.
type Signs = [u8; 8];

/// ISSNs that are in use, and some that are right by the rule alone.
const RIGHT: [Signs; 14] = [
    *b"03178471",
    *b"1050124X",
    *b"03785955",
    *b"2434561X",
    *b"20493630",
    *b"00280836",
    *b"14764687",
    *b"00368075",
    *b"01406736",
    *b"1474547X",
    *b"00278424",
    *b"12345679",
    *b"99999994",
    *b"0000006X",
];

/// With its hyphen behind the fourth digit.
fn hyphenated(signs: Signs) -> [u8; 9]
    ensures { result ≡ slice_index signs 0 ∷ slice_index signs 1 ∷ slice_index signs 2 ∷ slice_index signs 3 ∷ 45 ∷ slice_index signs 4 ∷ slice_index signs 5 ∷ slice_index signs 6 ∷ slice_index signs 7 ∷ [] }
{
    let [a, b, c, d, e, f, g, check] = signs;
    [a, b, c, d, b'-', e, f, g, check]
}

/// With the sign at a place and the next one exchanged.
fn exchanged(signs: Signs, place: usize) -> Signs
    requires { place < 7 }
    ensures { result ≡ slice_set (slice_set signs place (slice_index signs (place + 1))) (place + 1) (slice_index signs place) }
{
    let mut other = signs;
    other.swap(place, place + 1);
    other
}

/// With the next digit in the place of a sign, and 0 after 9 and X.
fn changed(signs: Signs, place: usize) -> Signs
    requires { place < 8 }
    ensures { result ≡ slice_set signs place (if nat_lt (slice_index signs place) 57 then slice_index signs place + 1 else 48) }
{
    let mut other = signs;
    let sign = signs[place];
    other[place] = if sign < b'9' { sign + 1 } else { b'0' };
    other
}

fn report(rt: &HostRuntime, bytes: &[u8]) -> anyhow::Result<()> {
    let text = from_utf8(bytes)?;
    match read_issn(bytes) {
        Ok(issn) => {
            let shown = from_utf8(issn.as_bytes())?;
            println!(rt; "{shown}: right")?;
        }
        Err(fault) => match fault.place() {
            Some(place) => println!(rt; "{text}: wrong, {fault} at {place}")?,
            None => println!(rt; "{text}: wrong, {fault}")?,
        },
    }
    Ok(())
}

/// The ISSN, then with each two neighbours exchanged that are not the same, then with each sign changed.
fn report_with_slips(rt: &HostRuntime, signs: Signs) -> anyhow::Result<()> {
    report(rt, &hyphenated(signs))?;
    // By place: it says which two signs are exchanged.
    for place in 0..7 {
        if signs[place] != signs[place + 1] {
            report(rt, &hyphenated(exchanged(signs, place)))?;
        }
    }
    report_changes(rt, signs)
}

fn report_changes(rt: &HostRuntime, signs: Signs) -> anyhow::Result<()> {
    // By place: it says which sign is changed.
    for place in 0..8 {
        report(rt, &hyphenated(changed(signs, place)))?;
    }
    Ok(())
}

fn main(rt: HostRuntime) -> anyhow::Result<()> {
    for signs in RIGHT {
        report_with_slips(&rt, signs)?;
    }
    report(&rt, b"0317-8472")?;
    report(&rt, b"1050-1240")?;
    report(&rt, b"1050-124x")?;
    report(&rt, b"O317-8471")?;
    report(&rt, b"0317/8471")?;
    report(&rt, b"0317-84X1")?;
    report(&rt, b"03178471")?;
    report(&rt, b"0317-84711")?;
    report(&rt, b"")
}
