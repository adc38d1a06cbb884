//! A small Journal Report 1: two titles, January and February 2009, six requests.
//!
//! The report goes to standard output, to the byte. The record of the run goes to standard error: each call with its
//! answer, the tallies, and what the report said when it was read back.
#![tactic(auto)]

use anyhow::anyhow;
use audit::{Audit, Written, run};
use columns::MonthScheme;
use ledger::{Refusal, Tallies};
use lists::read_list;
use records::{BestRule, HTML, PDF, Request, RequestTable};
use replay::{Entry, Reply, Step};
use reports::{Date, Header};
use std::io::Write;
use titles::Title;

/// The start of 2009, in seconds since the start of 2000.
const START: u32 = 284_083_200;

/// A successful request by the reader at address 1 for article 5 of a journal.
fn request(journal: u16, format: u8, time: u32) -> Request {
    Request {
        time,
        status: 200,
        format,
        journal,
        article: 5,
        address: 1,
        ..Request::default()
    }
}

/// An offer of such a request, still to be made.
fn offer(journal: u16, format: u8, time: u32) -> Entry {
    Entry {
        step: Step::Offer {
            item: Ok(request(journal, format, time)),
            lent: true,
        },
        reply: None,
    }
}

/// Whom the report is for, when it was run, and where the journals are hosted.
const HEADER: Header<'static> = Header {
    criteria: b"Test College",
    date: Date {
        year: 2009,
        month: 3,
        day: 1,
    },
    platform: b"Host",
};

/// Two titles: Kiln Annals with both ISSNs, and Lock Letters, whose online ISSN is blank.
const TITLE_LIST: [u8; 97] = *b"\
    \x30\x00\x33\
    \x01\x00\x0bKiln Annals\
    \x02\x00\x0aKiln Press\
    \x03\x00\x091000-0003\
    \x04\x00\x092000-0006\
    \x30\x00\x28\
    \x01\x00\x0cLock Letters\
    \x02\x00\x0aLock Press\
    \x03\x00\x093000-0009";

/// The offers of a small month, with two second clicks among six requests.
fn offers() -> [Entry; 6] {
    [
        offer(0, HTML, START + 100),
        offer(0, HTML, START + 110),
        offer(0, HTML, START + 121),
        offer(0, PDF, START + 121),
        offer(1, PDF, 286_761_595),
        offer(1, PDF, 286_761_605),
    ]
}

/// What the run came to: the tallies of the settled ledger, and the report that was written.
#[derive(Drop)]
struct Outcome {
    tallies: Tallies,
    written: Written,
}

/// Opens a ledger, makes the offers, settles it, writes its report into the buffer and reads it back.
fn perform(
    entries: &mut [Entry],
    waiting: &mut [Request],
    cells: &mut [u32],
    out: &mut [u8],
) -> anyhow::Result<Outcome> {
    let scheme = MonthScheme::new(2009, 2)?;
    let list = TITLE_LIST;
    let mut titles = [Title::default(); 2];
    read_list(&list, &mut titles)?;
    let mut source = RequestTable::new(&[]);
    let Audit { ledger, written } = run(
        BestRule,
        scheme,
        1_000,
        waiting,
        cells,
        &mut source,
        entries,
        &titles,
        &HEADER,
        out,
    )
    .map_err(|unopened| unopened.refusal)?;
    let tallies = ledger.tallies();
    let _ = ledger.close();
    Ok(Outcome {
        tallies,
        written: written?,
    })
}

/// What was replied to an offer.
// A function: a reply is an `Option` of a `Result`, and they have their own printing.
fn words(reply: Option<Result<Reply, Refusal>>) -> &'static str {
    match reply {
        Some(Ok(Reply::Granted)) => "accepted",
        Some(Ok(Reply::PassedOver)) => "passed over",
        Some(Err(_)) => "refused",
        Some(Ok(Reply::Took(_))) | None => "not made",
    }
}

/// Tells each offer with its answer.
fn tell_offers(rt: &HostRuntime, entries: &[Entry]) -> anyhow::Result<()> {
    for entry in entries {
        if let Step::Offer {
            item: Ok(request),
            ..
        } = entry.step
        {
            let Request {
                time,
                format,
                journal,
                ..
            } = request;
            let words = words(entry.reply);
            eprintln!(rt; "offer: journal {journal}, format {format}, at {time}: {words}")?;
        }
    }
    Ok(())
}

/// Tells the settling, the tallies, and the report as it was read back.
fn tell_outcome(rt: &HostRuntime, outcome: &Outcome) -> anyhow::Result<()> {
    let Tallies {
        presented,
        passed_over,
        refused,
        superseded,
        waiting,
        counted,
    } = outcome.tallies;
    let Written {
        length,
        titles,
        total,
    } = outcome.written;
    eprintln!(rt; "settling: granted")?;
    eprintln!(rt; "presented {presented}, passed over {passed_over}, refused {refused}")?;
    eprintln!(rt; "superseded {superseded}, waiting {waiting}, counted {counted}")?;
    eprintln!(rt; "report: {length} bytes; read back: {titles} titles, total {total}")?;
    Ok(())
}

fn main(rt: HostRuntime) -> anyhow::Result<()> {
    let heap = rt.alloc();
    let mut waiting = vec![in heap; request(0, HTML, 0); 64]?;
    let mut cells = vec![in heap; 0u32; 8]?;
    let mut out = vec![in heap; 0u8; 4096]?;
    let mut entries = offers();
    let outcome = perform(&mut entries, &mut waiting, &mut cells, &mut out)?;
    tell_offers(&rt, &entries)?;
    tell_outcome(&rt, &outcome)?;
    match out.get(0..outcome.written.length) {
        Some(text) => Ok(rt.stdout().write_all(text)?),
        None => Err(anyhow!("the report is longer than its buffer")),
    }
}
