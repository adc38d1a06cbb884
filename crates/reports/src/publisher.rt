//! The publisher of the line for all journals.
ghost use Rattle.std.specs.Prelude.{◌≡◌, map};
ghost use Rattle.std.specs.List.{list_all};
ghost use Rattle.std.specs.Str.{bytes_eq};
ghost use Rattle.reports.specs.Reports.{shared};

use titles::Title;

/// The publisher of all titles, if they have the same one; else it is blank.
pub(crate) fn shared_publisher<'a>(titles: &[Title<'a>]) -> &'a [u8]
    ensures { result.now ≡ shared (map (λ t. t.publisher.now) titles.now) }
{
    let Some((first, others)) = titles.split_first() else {
        return b"";
    };
    if all_published_by(others, first.publisher) {
        first.publisher
    } else {
        b""
    }
}

/// Whether each title has that publisher.
fn all_published_by(titles: &[Title<'_>], publisher: &[u8]) -> bool
    ensures { result ≡ list_all (λ t. bytes_eq publisher.now t.publisher.now) titles.now }
{
    titles.iter().all(|title| publisher == title.publisher)
}
