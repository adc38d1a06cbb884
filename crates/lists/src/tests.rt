//! Lists worked by hand, and lists at the edges of what they may be.
use crate::{ListRefusal, read_list};
use std::array;
use std::test::Fail;
use titles::Title;

/// Kiln Annals, Kiln Press, and the first seven bytes of an ISSN.
const SHORT_ISSN: [u8; 40] =
    *b"\x30\x00\x25\x01\x00\x0bKiln Annals\x02\x00\x0aKiln Press\x03\x00\x071000-00";

/// The same with the whole ISSN, and an empty field for the other.
const RIGHT: [u8; 45] =
    *b"\x30\x00\x2a\x01\x00\x0bKiln Annals\x02\x00\x0aKiln Press\x03\x00\x091000-0003\x04\x00\x00";

/// The first fault of a list: entry, field and byte.
fn places(list: &[u8]) -> Option<(usize, u8, usize)> {
    match read_list(list, &mut []) {
        Err(ListRefusal::Broken(fault)) => Some((fault.entry, fault.field, fault.byte)),
        _ => None,
    }
}

#[test]
fn a_list_by_hand(rt: HostRuntime) {
    assert_eq!(rt; places(&SHORT_ISSN), Some((0, 3, 30)));
    let mut wrong_sum = RIGHT;
    wrong_sum[41] = b'4';
    assert_eq!(rt; places(&wrong_sum), Some((0, 3, 41)));
    let mut table = [Title::default(); 2];
    assert_eq!(rt; read_list(&RIGHT, &mut table), Ok(1));
    assert_eq!(rt; table[0].name, b"Kiln Annals".as_slice());
    assert!(rt; table[1].name.is_empty());
}

#[test]
fn a_refused_list_leaves_the_table(rt: HostRuntime) {
    let mut table = [Title::default(); 2];
    assert_eq!(rt; read_list(&RIGHT, &mut table), Ok(1));
    assert!(rt; read_list(&SHORT_ISSN, &mut table).is_err());
    assert_eq!(rt; table[0].name, b"Kiln Annals".as_slice());
}

#[test]
fn faults_of_the_whole(rt: HostRuntime) {
    assert_eq!(rt; places(b""), Some((0, 0, 0)));
    assert_eq!(rt; places(b"\x31\x00\x00"), Some((0, 0, 0)));
    assert_eq!(rt; places(b"\x30\x00\x00"), Some((0, 1, 0)));
    assert_eq!(rt; read_list(&RIGHT, &mut []), Err(ListRefusal::TableTooShort));
}

/// The smallest group: a name and a publisher of one byte each.
const SMALLEST: [u8; 11] = *b"\x30\x00\x08\x01\x00\x01a\x02\x00\x01b";

/// 513 of them.
fn smallest_groups() -> [u8; 5643] {
    array::from_fn(|place| SMALLEST[place % SMALLEST.len()])
}

#[test]
fn lists_end_at_512_groups(rt: HostRuntime) -> Result<(), Fail> {
    let list = smallest_groups();
    assert_eq!(rt; places(&list), Some((512, 0, 5632)));
    let most = list.get(..5632).ok_or("512 groups")?;
    let mut table = [Title::default(); 512];
    assert_eq!(rt; read_list(most, &mut table), Ok(512));
    Ok(())
}
