//! Reports of small ledgers.
use crate::{Date, Header, WriteRefusal, write};
use columns::{ColumnScheme, MonthScheme, YearScheme};
use ledger::{Open, Settled, Unsettled};
use records::{BestRule, Request};
use std::test::Fail;
use titles::{Title, read_issn};

/// The start of 2009.
const B: u32 = 284_083_200;

/// The requests of two months, by journal, format and time.
const REQUESTS: [(u16, u8, u32); 6] = [
    (0, 1, B + 100),
    (0, 1, B + 110),
    (0, 1, B + 121),
    (0, 2, B + 121),
    (1, 2, 286_761_595),
    (1, 2, 286_761_605),
];

/// What is reported of them, by month.
const REPORT: &[u8] =
    b"Journal Report 1(R3),Number of Successful Full-text Article Requests by Month and Journal\r
Test College\r
Date run:\r
2009-03-01\r
,Publisher,Platform,Print ISSN,Online ISSN,Jan-2009,Feb-2009,YTD Total,YTD HTML,YTD PDF\r
Total for all journals,,Host,,,3,1,4,2,2\r
Kiln Annals,Kiln Press,Host,1000-0003,2000-0006,3,0,3,2,1\r
Lock Letters,Lock Press,Host,3000-0009,,0,1,1,0,1\r
";

/// A report by year of publication. The publisher of the only title is that of all titles, and no
/// total is shown, so that it may be over 1,000,000,000.
const REPORT_BY_YEAR: &[u8] =
    b"Journal Report 5 (R3),Number of Successful Full-text Article Requests by Year and Journal\r
Test College\r
Date run:\r
2009-03-01\r
,Publisher,Platform,Print ISSN,Online ISSN,YOP-2009,YOP-2008,YOP-2007,YOP-2006,YOP-2005,YOP Pre-2005\r
Total for all journals,Kiln Press,Host,,,1000000000,10,0,0,0,7\r
Kiln Annals,Kiln Press,Host,1000-0003,2000-0006,1000000000,10,0,0,0,7\r
";

fn request(journal: u16, format: u8, time: u32) -> Request {
    Request {
        time,
        status: 200,
        format,
        journal,
        article: 5,
        address: 1,
        ..Request::default()
    }
}

/// A settled ledger of the requests.
fn settled<S: ColumnScheme + Drop>(
    scheme: S,
    titles: usize,
    waiting: &mut [Request],
    cells: &mut [u32],
) -> Option<Settled<BestRule, S>> {
    let mut ledger = Open::new(BestRule, scheme, titles, 100, waiting, cells).ok()?;
    for (journal, format, time) in REQUESTS {
        let item = Ok(request(journal, format, time));
        let _ = ledger.offer(waiting, cells, &item);
    }
    match ledger.settle(waiting, cells) {
        Ok(ledger) => Some(ledger),
        Err(unsettled) => {
            let Unsettled { ledger, refusal: _ } = unsettled;
            ledger.abandon();
            None
        }
    }
}

/// Two titles, the second by this publisher.
fn titles(publisher: &'static [u8]) -> [Title<'static>; 2] {
    [
        Title {
            name: b"Kiln Annals",
            publisher: b"Kiln Press",
            print: read_issn(b"1000-0003").ok(),
            online: read_issn(b"2000-0006").ok(),
        },
        Title {
            name: b"Lock Letters",
            publisher,
            print: read_issn(b"3000-0009").ok(),
            online: None,
        },
    ]
}

fn header(criteria: &'static [u8], platform: &'static [u8], day: u8) -> Header<'static> {
    Header {
        criteria,
        date: Date {
            year: 2009,
            month: 3,
            day,
        },
        platform,
    }
}

#[test]
fn two_titles_by_month(rt: HostRuntime) -> Result<(), Fail> {
    let scheme = MonthScheme::new(2009, 2)?;
    let mut cells = [0; 8];
    let ledger = settled(scheme, 2, &mut [Request::default(); 4], &mut cells).ok_or("a ledger")?;
    let mut out = [b'.'; 600];
    let written = write(
        &ledger,
        &cells,
        &titles(b"Lock Press"),
        &header(b"Test College", b"Host", 1),
        &mut out,
    );
    ledger.close();
    let length = written.ok().ok_or("a report")?;
    assert!(rt; length < 600);
    assert!(rt; &out[0..length] == REPORT);
    assert!(rt; out[length] == b'.');
    Ok(())
}

#[test]
fn one_title_by_year(rt: HostRuntime) -> Result<(), Fail> {
    let scheme = YearScheme::new(2009, 2005)?;
    let ledger = settled(scheme, 1, &mut [Request::default(); 4], &mut [0; 12]).ok_or("a ledger")?;
    let cells = [600_000_000, 400_000_000, 3, 7, 0, 0, 0, 0, 0, 0, 7, 0];
    let mut out = [b'.'; 600];
    let all = titles(b"Lock Press");
    let written = write(
        &ledger,
        &cells,
        &all[0..1],
        &header(b"Test College", b"Host", 1),
        &mut out,
    );
    ledger.close();
    let length = written.ok().ok_or("a report")?;
    assert!(rt; length < 600);
    assert!(rt; &out[0..length] == REPORT_BY_YEAR);
    Ok(())
}

/// A settled ledger of two titles and two months.
fn two_months() -> Option<Settled<BestRule, MonthScheme>> {
    let scheme = MonthScheme::new(2009, 2).ok()?;
    settled(scheme, 2, &mut [Request::default(); 4], &mut [0; 8])
}

#[test]
fn header_first(rt: HostRuntime) -> Result<(), Fail> {
    let ledger = two_months().ok_or("a ledger")?;
    let mut out = [b'.'; 9];
    let criteria = write(
        &ledger,
        &[],
        &[],
        &header(b"Test, College", b"", 32),
        &mut out,
    );
    let platform = write(
        &ledger,
        &[],
        &[],
        &header(b"Test College", b"", 32),
        &mut out,
    );
    let date = write(
        &ledger,
        &[],
        &[],
        &header(b"Test College", b"Host", 32),
        &mut out,
    );
    let count = write(
        &ledger,
        &[],
        &[],
        &header(b"Test College", b"Host", 31),
        &mut out,
    );
    ledger.close();
    assert_eq!(rt; criteria, Err(WriteRefusal::Criteria));
    assert_eq!(rt; platform, Err(WriteRefusal::Platform));
    assert_eq!(rt; date, Err(WriteRefusal::Date));
    assert_eq!(rt; count, Err(WriteRefusal::TitleCount));
    assert!(rt; out == [b'.'; 9]);
    Ok(())
}

#[test]
fn then_titles_and_table(rt: HostRuntime) -> Result<(), Fail> {
    let ledger = two_months().ok_or("a ledger")?;
    let high = [0, 0, 0, 0, 500_000_000, 0, 0, 500_000_001];
    let header = header(b"Test College", b"Host", 31);
    let mut out = [b'.'; 9];
    let title = write(&ledger, &[], &titles(b""), &header, &mut out);
    let table = write(&ledger, &[], &titles(b"Lock Press"), &header, &mut out);
    let number = write(&ledger, &high, &titles(b"Lock Press"), &header, &mut out);
    let buffer = write(&ledger, &[0; 8], &titles(b"Lock Press"), &header, &mut out);
    ledger.close();
    assert!(rt; matches!(title, Err(WriteRefusal::Title { title: 1, fault: _ })));
    assert_eq!(rt; table, Err(WriteRefusal::CellCount));
    assert_eq!(rt; number, Err(WriteRefusal::Number));
    assert_eq!(rt; buffer, Err(WriteRefusal::Buffer));
    assert!(rt; out == [b'.'; 9]);
    Ok(())
}
