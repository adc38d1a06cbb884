//! A report read from a file.
ghost use Rattle.std.specs.Prelude.{◌≡◌, true, is_ok, IfErr, if◌then◌else◌, Decides};
ghost use Rattle.grammar.specs.Given.{Given};
ghost use Rattle.readback.specs.Answers.{Told, answer, held_by, map_both, refusal_number, roomy, summary_of, tables_after};
ghost use Rattle.readback.specs.Lent.{SameLent};

use crate::answer::{ReadOut, ReadRefusal};
use crate::fill::fill_file;
use crate::judge::judge_file;
use crate::tables::LentTables;
use columns::ColumnScheme;

/// Reads the report that a file shows, under the scheme by which it was made.
///
/// The titles go into the tables from their first entries on, and what lies behind stays. The tables are lent for 512
/// titles, and shorter ones are refused with 11 before the file is looked at. A file that is not a report is refused
/// with 12. A refused reading leaves the tables as they were: the file is judged whole before anything is written.
///
/// Given tables of full size, a file is read exactly where the writer gives it for some report, and what is read out is
/// that report, as far as the file shows it.
pub fn read<'a, S: ColumnScheme>(
    scheme: &S,
    file: &'a [u8],
    tables: &mut LentTables<'_, 'a>,
) -> Result<ReadOut<'a>, ReadRefusal>
    ensures answer { map_both summary_of (λ e. e) result ≡ answer (S.ColumnScheme.layout scheme.now) (held_by tables.old) file.now }
    ensures numbered { IfErr result (λ e. refusal_number e ≡ (if roomy (S.ColumnScheme.layout scheme.now) (held_by tables.old) then 12 else 11)) }
    ensures same { SameLent tables.old tables.new }
    ensures tables { held_by tables.new ≡ tables_after (S.ColumnScheme.layout scheme.now) (held_by tables.old) file.now }
    ensures given { roomy (S.ColumnScheme.layout scheme.now) (held_by tables.old) ≡ true → Decides (is_ok result) (Given (S.ColumnScheme.layout scheme.now) file.now) }
    ensures told { Told (S.ColumnScheme.layout scheme.now) file.now (held_by tables.new) (map_both summary_of (λ e. e) result) }
{
    if !tables.has_room(scheme) {
        return Err(ReadRefusal::ShortTables);
    }
    judge_file(scheme, file)?;
    Ok(fill_file(scheme, file, tables)?)
}
