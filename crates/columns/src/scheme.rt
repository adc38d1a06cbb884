//! What a column scheme is.
ghost use Rattle.std.specs.Prelude.{◌≡◌, ℕ, ◌<◌, length, IfSome, Option};
ghost use Rattle.records.specs.declared.request.Request.{Request};
ghost use Rattle.columns.specs.Layouts.{heading_at, Layout, lent, Sound};

use records::Request;

/// The columns of a report, and the column of a request.
///
/// A scheme means a layout, which is what a report shows of it, and a place for each request: the
/// request's column, counted from 0, or none.
pub trait ColumnScheme {
    ghost layout: { Self → Layout };

    ghost place: { Self → Request → Option ℕ };

    /// How many columns there are: 1 to 12.
    fn columns(&self) -> usize
        ensures { result ≡ length (layout self.now).headings };

    /// The heading of a column, and none past the last.
    fn heading(&self, column: usize) -> Option<&[u8]>
        ensures { lent result ≡ heading_at (layout self.now) column };

    /// The first cell of a report's first line: which report it is.
    fn report(&self) -> &[u8]
        ensures { result.now ≡ (layout self.now).report };

    /// The second cell of a report's first line: what it counts.
    fn description(&self) -> &[u8]
        ensures { result.now ≡ (layout self.now).description };

    /// Whether the year-to-date columns follow.
    fn has_ytd(&self) -> bool
        ensures { result ≡ (layout self.now).ytd };

    /// The request's column, if it has one.
    fn column(&self, request: &Request) -> Option<usize>
        ensures { result ≡ place self.now request.now };

    ghost sound: { (s : Self) → Sound (layout s) };

    ghost below: { (s : Self) (r : Request) → IfSome (place s r) (λ c. c < length (layout s).headings) };
}
