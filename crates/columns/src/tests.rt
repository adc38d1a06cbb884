//! Dates and columns that are known from elsewhere.
use crate::{ColumnScheme, Month, MonthScheme, PeriodRefusal, YearScheme, is_date, month_of};
use records::Request;
use std::test::Fail;

/// The start of 2009.
const B: u32 = 284_083_200;

/// Seconds at the edges of months, with year and month.
const EDGES: [(u32, u16, usize); 18] = [
    (0, 2000, 0),
    (5_097_599, 2000, 1),
    (5_097_600, 2000, 1),
    (5_183_999, 2000, 1),
    (5_184_000, 2000, 2),
    (31_622_399, 2000, 11),
    (31_622_400, 2001, 0),
    (36_719_999, 2001, 1),
    (36_720_000, 2001, 2),
    (131_328_000, 2004, 1),
    (131_414_399, 2004, 1),
    (131_414_400, 2004, 2),
    (B - 1, 2008, 11),
    (B, 2009, 0),
    (3_034_627_200, 2096, 1),
    (3_034_713_599, 2096, 1),
    (3_034_713_600, 2096, 2),
    (3_155_759_999, 2099, 11),
];

/// Seconds around January and February 2009, with the column of the month scheme.
const TIMES: [(u32, Option<usize>); 6] = [
    (B - 1, None),
    (B, Some(0)),
    (286_761_595, Some(0)),
    (286_761_605, Some(1)),
    (289_180_799, Some(1)),
    (289_180_800, None),
];

/// Seconds around 2009 and years of publication, with the column of the year scheme from 2005 on.
const PUBLISHED: [(u32, u16, Option<usize>); 8] = [
    (B, 2010, None),
    (B, 2009, Some(0)),
    (B, 2005, Some(4)),
    (B, 2004, Some(5)),
    (B, 0, None),
    (B - 1, 2005, None),
    (315_619_199, 2005, Some(4)),
    (315_619_200, 2005, None),
];

/// Dates, and whether they are real.
const DATES: [(u16, u8, u8, bool); 10] = [
    (2000, 2, 29, true),
    (2096, 2, 29, true),
    (2001, 2, 29, false),
    (2009, 4, 30, true),
    (2009, 4, 31, false),
    (2009, 13, 1, false),
    (2009, 0, 1, false),
    (2009, 1, 0, false),
    (1999, 12, 31, false),
    (2100, 1, 1, false),
];

fn request(time: u32, published: u16) -> Request {
    Request {
        time,
        status: 200,
        format: 1,
        article: 5,
        published,
        address: 1,
        ..Request::default()
    }
}

#[test]
fn months_begin_and_end(rt: HostRuntime) {
    for (time, year, month) in EDGES {
        assert_eq!(rt; month_of(time), Some(Month { year, month }));
    }
    assert_eq!(rt; month_of(3_155_760_000), None);
}

#[test]
fn real_dates(rt: HostRuntime) {
    for (year, month, day, real) in DATES {
        assert_eq!(rt; is_date(year, month, day), real);
    }
}

#[test]
fn january_and_february(rt: HostRuntime) -> Result<(), Fail> {
    let scheme = MonthScheme::new(2009, 2)?;
    assert_eq!(rt; scheme.columns(), 2);
    assert!(rt; scheme.heading(0) == Some(b"Jan-2009".as_slice()));
    assert!(rt; scheme.heading(1) == Some(b"Feb-2009".as_slice()));
    assert!(rt; scheme.heading(2).is_none());
    for (time, column) in TIMES {
        assert_eq!(rt; scheme.column(&request(time, 0)), column);
    }
    Ok(())
}

#[test]
fn five_years_and_before(rt: HostRuntime) -> Result<(), Fail> {
    let scheme = YearScheme::new(2009, 2005)?;
    assert_eq!(rt; scheme.columns(), 6);
    assert!(rt; scheme.heading(0) == Some(b"YOP-2009".as_slice()));
    assert!(rt; scheme.heading(4) == Some(b"YOP-2005".as_slice()));
    assert!(rt; scheme.heading(5) == Some(b"YOP Pre-2005".as_slice()));
    assert!(rt; scheme.heading(6).is_none());
    for (time, published, column) in PUBLISHED {
        assert_eq!(rt; scheme.column(&request(time, published)), column);
    }
    Ok(())
}

/// Years and last months, with what of them is refused.
const MONTHS: [(u16, usize, Option<PeriodRefusal>); 5] = [
    (1999, 13, Some(PeriodRefusal::Year)),
    (2100, 1, Some(PeriodRefusal::Year)),
    (2000, 0, Some(PeriodRefusal::LastMonth)),
    (2099, 13, Some(PeriodRefusal::LastMonth)),
    (2099, 12, None),
];

/// Years and first years of publication, with what of them is refused.
const YEARS: [(u16, u16, Option<PeriodRefusal>); 5] = [
    (1999, 1990, Some(PeriodRefusal::Year)),
    (2100, 2096, Some(PeriodRefusal::Year)),
    (2009, 2006, Some(PeriodRefusal::FirstYear)),
    (2009, 1998, Some(PeriodRefusal::FirstYear)),
    (2009, 1999, None),
];

#[test]
fn periods_out_of_range(rt: HostRuntime) {
    for (year, last_month, refusal) in MONTHS {
        assert_eq!(rt; MonthScheme::new(year, last_month).err(), refusal);
    }
    for (year, first_year, refusal) in YEARS {
        assert_eq!(rt; YearScheme::new(year, first_year).err(), refusal);
    }
}
