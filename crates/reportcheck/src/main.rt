//! Reads a report by month and one by year, damaged copies of them, and files of very many titles, and prints what each
//! reading answers.
#![tactic(auto)]

mod samples;

use columns::{ColumnScheme, MonthScheme, YearScheme};
use readback::{LentTables, read};
use samples::{
    BY_MONTH, BY_YEAR, Damage, MONTH_DAMAGES, ONE_PUBLISHER, YEAR_DAMAGES, damaged, repeated, whole,
};
use std::alloc::Global;
use std::str::from_utf8;
use titles::Title;

/// The most titles of a report.
const MOST: usize = 512;

fn print_text(rt: &HostRuntime, bytes: &[u8]) -> anyhow::Result<()> {
    match from_utf8(bytes) {
        Ok(text) => print!(rt; "{text}")?,
        Err(_) => print!(rt; "bytes that are no text")?,
    }
    Ok(())
}

/// The part of a table that belongs to a title, where each has so many entries.
fn part_of(table: &[u32], width: usize, title: usize) -> &[u32] {
    let start = title.saturating_mul(width);
    table.get(start..start.saturating_add(width)).unwrap_or(&[])
}

/// Prints a title, the numbers of its columns, and its year to date, if there is one.
fn print_title(
    rt: &HostRuntime,
    title: &Title<'_>,
    numbers: &[u32],
    ytd: &[u32],
) -> anyhow::Result<()> {
    print!(rt; "  ")?;
    print_text(rt, title.name)?;
    print!(rt; " of ")?;
    print_text(rt, title.publisher)?;
    for number in numbers {
        print!(rt; " {number}")?;
    }
    if let [html, pdf] = ytd {
        print!(rt; ", HTML {html}, PDF {pdf}")?;
    }
    println!(rt; "")?;
    Ok(())
}

/// Reads a file, and prints the first titles from the tables, or the refusal.
fn print_reading<S: ColumnScheme>(
    rt: &HostRuntime,
    heap: Global,
    scheme: &S,
    file: &[u8],
    few: usize,
) -> anyhow::Result<()> {
    let columns = scheme.columns();
    let mut titles = vec![in heap; Title::default(); MOST]?;
    let mut numbers = vec![in heap; 0u32; columns.saturating_mul(MOST)]?;
    let mut ytd = vec![in heap; 0u32; MOST * 2]?;
    let width = if scheme.has_ytd() { 2 } else { 0 };
    let mut tables = LentTables {
        titles: &mut titles,
        numbers: &mut numbers,
        ytd: &mut ytd,
    };
    match read(scheme, file, &mut tables) {
        Ok(out) => {
            let count = out.titles;
            println!(rt; "read, titles: {count}")?;
            for (t, title) in titles.iter().take(count.min(few)).enumerate() {
                print_title(
                    rt,
                    title,
                    part_of(&numbers, columns, t),
                    part_of(&ytd, width, t),
                )?;
            }
        }
        Err(refusal) => println!(rt; "{refusal}")?,
    }
    Ok(())
}

/// Reads damaged copies of a file.
fn print_damages<S: ColumnScheme>(
    rt: &HostRuntime,
    heap: Global,
    scheme: &S,
    lines: &[&[u8]],
    damages: &[Damage],
) -> anyhow::Result<()> {
    for damage in damages {
        let what = damage.0;
        print!(rt; "{what}: ")?;
        let file = damaged(heap, lines, damage)?;
        print_reading(rt, heap, scheme, &file, 0)?;
    }
    Ok(())
}

fn main(rt: HostRuntime) -> anyhow::Result<()> {
    let heap = rt.alloc();
    let months = MonthScheme::new(2009, 2)?;
    let years = YearScheme::new(2009, 2005)?;
    print!(rt; "by month: ")?;
    print_reading(&rt, heap, &months, &whole(heap, &BY_MONTH)?, 2)?;
    print!(rt; "one publisher: ")?;
    print_reading(&rt, heap, &months, &whole(heap, &ONE_PUBLISHER)?, 2)?;
    print!(rt; "by year: ")?;
    print_reading(&rt, heap, &years, &whole(heap, &BY_YEAR)?, 3)?;
    print!(rt; "by month, under the years: ")?;
    print_reading(&rt, heap, &years, &whole(heap, &BY_MONTH)?, 0)?;
    print_damages(&rt, heap, &months, &BY_MONTH, &MONTH_DAMAGES)?;
    print_damages(&rt, heap, &years, &BY_YEAR, &YEAR_DAMAGES)?;
    print!(rt; "512 titles: ")?;
    print_reading(&rt, heap, &years, &repeated(heap, 512)?, 0)?;
    print!(rt; "513 titles: ")?;
    print_reading(&rt, heap, &years, &repeated(heap, 513)?, 0)
}
