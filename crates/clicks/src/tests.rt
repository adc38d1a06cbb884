//! Clicks by one reader for one link, unless a case says otherwise, counted by a settled ledger.
use columns::MonthScheme;
use ledger::{Open, Tallies, Unsettled};
use records::{AddressRule, BestRule, HTML, PDF, ReaderRule, Request};
use std::process::Abort;
use std::test::Fail;

/// The start of 2009.
const B: u32 = 284_083_200;

/// What a run counted: January HTML and PDF, February HTML and PDF.
#[derive(Drop)]
struct Counted {
    cells: [u32; 4],
    tallies: Tallies,
    clock: u32,
}

fn click(format: u8, time: u32) -> Request {
    Request {
        time,
        status: 200,
        format,
        article: 5,
        address: 1,
        ..Request::default()
    }
}

fn offer_all<R: ReaderRule>(
    ledger: &mut Open<R, MonthScheme>,
    waiting: &mut [Request],
    cells: &mut [u32],
    clicks: &[Request],
) {
    for request in clicks {
        let _ = ledger.offer(waiting, cells, &Ok(*request));
    }
}

/// Offers the clicks to a ledger for January and February 2009, and settles it.
fn count<R: ReaderRule + Drop>(rule: R, clicks: &[Request]) -> Result<Counted, Fail> {
    let mut waiting = [click(HTML, 0); 4];
    let mut cells = [9; 4];
    let scheme = MonthScheme::new(2009, 2).map_err(|_| Fail::new("no scheme"))?;
    let mut ledger = Open::new(rule, scheme, 1, 100, &waiting, &mut cells).map_err(|_| Fail::new(
        "not opened",
    ))?;
    offer_all(&mut ledger, &mut waiting, &mut cells, clicks);
    match ledger.settle(&mut waiting, &mut cells) {
        Ok(settled) => {
            let tallies = settled.tallies();
            let clock = settled.clock();
            let _ = settled.close();
            Ok(Counted {
                cells,
                tallies,
                clock,
            })
        }
        Err(Unsettled { ledger, refusal: _ }) => {
            let _ = ledger.abandon();
            Err(Fail::new("not settled"))
        }
    }
}

fn check_cells(
    rt: &impl Abort,
    clicks: &[Request],
    cells: [u32; 4],
    superseded: u32,
) -> Result<(), Fail> {
    let run = count(BestRule, clicks)?;
    assert!(rt; run.cells == cells);
    assert!(rt; run.tallies.superseded == superseded);
    assert!(rt; run.tallies.waiting == 0);
    Ok(())
}

#[test]
fn html_within_ten_seconds_is_one(rt: HostRuntime) -> Result<(), Fail> {
    check_cells(&rt, &[click(HTML, B), click(HTML, B + 10)], [1, 0, 0, 0], 1)?;
    check_cells(&rt, &[click(HTML, B), click(HTML, B + 11)], [2, 0, 0, 0], 0)?;
    check_cells(
        &rt,
        &[click(HTML, B), click(HTML, B + 8), click(HTML, B + 16)],
        [1, 0, 0, 0],
        2,
    )
}

#[test]
fn pdf_within_thirty_seconds_is_one(rt: HostRuntime) -> Result<(), Fail> {
    check_cells(&rt, &[click(PDF, B), click(PDF, B + 30)], [0, 1, 0, 0], 1)?;
    check_cells(&rt, &[click(PDF, B), click(PDF, B + 31)], [0, 2, 0, 0], 0)?;
    check_cells(&rt, &[click(HTML, B), click(PDF, B)], [1, 1, 0, 0], 0)
}

#[test]
fn the_later_click_gives_the_month(rt: HostRuntime) -> Result<(), Fail> {
    check_cells(
        &rt,
        &[click(PDF, 286_761_595), click(PDF, 286_761_605)],
        [0, 0, 0, 1],
        1,
    )
}

#[test]
fn an_unsuccessful_click_leaves_the_clock(rt: HostRuntime) -> Result<(), Fail> {
    let missing = Request {
        status: 404,
        ..click(HTML, B + 5)
    };
    let run = count(BestRule, &[click(HTML, B), missing])?;
    assert!(rt; run.clock == B && run.tallies.passed_over == 1 && run.tallies.presented == 2);
    assert!(rt; run.cells == [1, 0, 0, 0]);
    Ok(())
}

#[test]
fn cookies_part_readers_under_the_best_rule(rt: HostRuntime) -> Result<(), Fail> {
    let five = Request {
        user_cookie: 5,
        ..click(HTML, B)
    };
    let six = Request {
        user_cookie: 6,
        ..click(HTML, B + 1)
    };
    check_cells(&rt, &[five, six], [2, 0, 0, 0], 0)?;
    let run = count(AddressRule, &[five, six])?;
    assert!(rt; run.cells == [1, 0, 0, 0]);
    Ok(())
}
