//! A report, read back from the bytes that were written.
ghost use Rattle.std.specs.Prelude.{◌≡◌, ◌≤◌, true, length, sum};
ghost use Rattle.grammar.specs.Files.{read_file};
ghost use Rattle.readback.specs.Answers.{held_by, map_both, roomy};
ghost use Rattle.readback.specs.declared.answer.ReadRefusal.TheVariants.{Faulty};
ghost use Rattle.audit.specs.Readings.{found_in};

use columns::ColumnScheme;
use readback::{LentTables, ReadRefusal, read};
use titles::Title;

/// What a report says once it is read back: how many titles it has, and the sum of all their numbers.
#[derive(Clone, Copy)]
pub(crate) struct Found {
    pub titles: usize,
    pub total: u64,
}

/// The sum of the numbers of a report.
// One chain: as a public function it would have to ask for the bound, and no public function asks for anything.
fn sum_of(numbers: &[u32]) -> u64
    requires { length numbers.now ≤ 6144 }
    ensures { result ≡ sum numbers.now }
{
    numbers.iter().map(|number| u64::from(*number)).sum()
}

/// Reads a report back into tables of full size, and sums up the numbers that it shows.
fn read_into<'a, S: ColumnScheme>(
    scheme: &S,
    file: &'a [u8],
    tables: &mut LentTables<'_, 'a>,
) -> Result<Found, ReadRefusal>
    requires room { roomy (S.ColumnScheme.layout scheme.now) (held_by tables.old) ≡ true }
    requires few { length tables.old.numbers.now ≤ 6144 }
    ensures { result ≡ map_both found_in Faulty (read_file (S.ColumnScheme.layout scheme.now) file.now) }
{
    let out = read(scheme, file, tables)?;
    let shown = out.titles * scheme.columns();
    Ok(Found {
        titles: out.titles,
        total: sum_of(&tables.numbers[..shown]),
    })
}

/// Reads a report back into tables of its own, and sums up the numbers that it shows.
pub(crate) fn read_back<S: ColumnScheme>(scheme: &S, file: &[u8]) -> Result<Found, ReadRefusal>
    ensures { result ≡ map_both found_in Faulty (read_file (S.ColumnScheme.layout scheme.now) file.now) }
{
    let mut titles = [Title::default(); 512];
    let mut numbers = [0u32; 6144];
    let mut ytd = [0u32; 1024];
    let mut tables = LentTables {
        titles: &mut titles,
        numbers: &mut numbers,
        ytd: &mut ytd,
    };
    read_into(scheme, file, &mut tables)
}
