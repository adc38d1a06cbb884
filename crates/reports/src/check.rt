//! What is judged before a report is written.
ghost use Rattle.std.specs.Prelude.{◌≡◌, map};
ghost use Rattle.std.specs.Result.{result_err};
ghost use Rattle.titles.specs.Titles.{entry_of};
ghost use Rattle.reports.specs.Answers.{first_ground, head_grounds, head_of, titles_ground};

use crate::header::Header;
use crate::refusal::WriteRefusal;
use columns::is_date;
use texts::is_text;
use titles::Title;

/// Judges the criteria, the platform and the date.
pub(crate) fn check_header(header: &Header<'_>) -> Result<(), WriteRefusal>
    ensures { result_err result ≡ first_ground (head_grounds (head_of header.now)) }
{
    if !is_text(header.criteria) {
        return Err(WriteRefusal::Criteria);
    }
    if !is_text(header.platform) {
        return Err(WriteRefusal::Platform);
    }
    if !is_date(header.date.year, header.date.month, header.date.day) {
        return Err(WriteRefusal::Date);
    }
    Ok(())
}

/// Judges each title.
pub(crate) fn check_titles(titles: &[Title<'_>]) -> Result<(), WriteRefusal>
    ensures { result_err result ≡ titles_ground 0 (map entry_of titles.now) }
{
    for (index, title) in titles.iter().enumerate() {
        // No `map_err`: the closure would take as many lines, for one more name.
        if let Err(fault) = title.check() {
            return Err(WriteRefusal::Title {
                title: index,
                fault,
            });
        }
    }
    Ok(())
}
