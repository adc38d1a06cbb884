//! Titles and texts at the edges of what they may be.
use crate::{TextFault, Title, TitleFault, check_text, read_issn};
use std::test::Fail;

#[test]
fn texts_end_at_200_bytes(rt: HostRuntime) {
    assert!(rt; check_text(&[b'a'; 1]).is_ok());
    assert!(rt; check_text(&[b'a'; 200]).is_ok());
    assert_eq!(rt; check_text(&[b'a'; 201]), Err(TextFault::Length));
    assert_eq!(rt; check_text(b""), Err(TextFault::Length));
}

#[test]
fn texts_have_no_commas_and_quotes(rt: HostRuntime) {
    assert!(rt; check_text(b" ~").is_ok());
    assert_eq!(rt;
        check_text(b"Kiln, Annals"),
        Err(TextFault::Unfit { place: 4 })
    );
    assert_eq!(rt; check_text(b"'Kiln'"), Err(TextFault::Unfit { place: 0 }));
    assert_eq!(rt; check_text(b"Kiln\""), Err(TextFault::Unfit { place: 4 }));
    assert_eq!(rt;
        check_text(b"Kiln\x7f\x1f"),
        Err(TextFault::Unfit { place: 4 })
    );
}

#[test]
fn titles_may_have_blank_issns(rt: HostRuntime) -> Result<(), Fail> {
    let print = read_issn(b"0317-8471").ok();
    let title = Title::new(b"Kiln Annals", b"Kiln Press", print, None)
        .ok()
        .ok_or("refused")?;
    assert!(rt; title.print.is_some() && title.online.is_none());
    assert!(rt; title.check().is_ok());
    Ok(())
}

#[test]
fn titles_tell_the_first_unfit_part(rt: HostRuntime) {
    assert_eq!(rt;
        Title::new(b"", b"", None, None),
        Err(TitleFault::Name(TextFault::Length))
    );
    assert_eq!(rt;
        Title::new(b"Kiln", b"\t", None, None),
        Err(TitleFault::Publisher(TextFault::Unfit { place: 0 }))
    );
}

#[test]
fn a_title_by_default_has_no_name(rt: HostRuntime) {
    let title = Title::default();
    assert!(rt; title.print.is_none() && title.online.is_none());
    assert_eq!(rt; title.check(), Err(TitleFault::Name(TextFault::Length)));
}
