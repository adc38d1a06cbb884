//! The numbers that a line shows.
ghost use Rattle.std.specs.Prelude.{◌≡◌, ◌+◌, ◌*◌, ◌^◌, ◌≤◌, take, sum};

/// The highest number that may be shown.
// As in `cells`, whose numbers have 32 bits.
const HIGHEST: u64 = 1_000_000_000;

/// A number to each format.
#[derive(Clone, Copy, Debug, PartialEq, Eq)]
pub struct Formats<T> {
    pub html: T,
    pub pdf: T,
}

/// The numbers of a line: one to each column, and the sums of each format over all columns.
///
/// The columns stand in an array with their number beside it: there are at most 12, and no heap.
#[derive(Clone, Copy)]
pub(crate) struct Counts {
    numbers: [u64; 12],
    columns: usize,
    sums: Formats<u64>,
    ghost few: { columns ≤ 12 },
    ghost low_html: { sums.html ≤ columns * 2 ^ 41 },
    ghost low_pdf: { sums.pdf ≤ columns * 2 ^ 41 },
    ghost balanced: { sums.html + sums.pdf ≡ sum (take columns numbers) },
}

impl Counts {
    ghost use Rattle.std.specs.Prelude.{ℕ, ◌<◌, [], ◌∷◌, ◌++◌};
    ghost use Rattle.std.specs.List.{list_all};
    ghost use Rattle.reports.specs.Counting.{Gives, usage_of, with_column};
    ghost use Rattle.reports.specs.Reports.{is_low, shown_numbers};
    ghost use Rattle.reports.specs.Tables.{usage_by};

    /// Those of a line with so many columns, each of the formats that are given for it.
    pub fn by_column<F: Fn(usize) -> Formats<u64>>(columns: usize, formats: F) -> Counts
        requires few { columns ≤ 12 }
        requires given { (c : ℕ) → c < columns → F.pre formats c }
        requires low { (c : ℕ) (f : _) → c < columns → F.post formats c f → (f.html ≤ 2 ^ 41) × (f.pdf ≤ 2 ^ 41) }
        ensures { (html pdf : ℕ → ℕ) → Gives (F.post formats) columns html pdf → usage_of result ≡ usage_by html pdf columns }
    {
        let mut counts = Counts::none();
        // By number: the closure is asked for each column.
        for column in 0..columns {
            counts.add(formats(column));
        }
        counts
    }

    /// Those of a line with no column.
    fn none() -> Counts
        ensures columns { result.columns ≡ 0 }
        ensures usage { usage_of result ≡ record { columns = []; html = 0; pdf = 0 } }
    {
        Counts {
            numbers: [0; 12],
            columns: 0,
            sums: Formats { html: 0, pdf: 0 },
        }
    }

    /// Adds a column with the sum of its formats, and adds each format to its sum.
    fn add(&mut self, formats: Formats<u64>)
        requires room { self.old.columns < 12 }
        requires low { (formats.html ≤ 2 ^ 41) × (formats.pdf ≤ 2 ^ 41) }
        ensures columns { self.new.columns ≡ self.old.columns + 1 }
        ensures usage { usage_of self.new ≡ with_column (usage_of self.old) formats }
    {
        self.numbers[self.columns] = formats.html + formats.pdf;
        self.columns += 1;
        self.sums.html += formats.html;
        self.sums.pdf += formats.pdf;
    }

    /// The numbers of the columns.
    pub fn numbers(&self) -> &[u64]
        ensures { result.now ≡ (usage_of self.now).columns }
    {
        &self.numbers[..self.columns]
    }

    /// The sum of each format over all columns.
    pub fn sums(&self) -> Formats<u64>
        ensures { result ≡ record { html = (usage_of self.now).html; pdf = (usage_of self.now).pdf } }
    {
        self.sums
    }

    /// The sum of all columns.
    pub fn total(&self) -> u64
        ensures columns { result ≡ sum (usage_of self.now).columns }
        ensures formats { result ≡ (usage_of self.now).html + (usage_of self.now).pdf }
    {
        self.sums.html + self.sums.pdf
    }

    /// Whether each number that is shown is low enough.
    ///
    /// No format's sum is over the total.
    pub fn can_be_shown(&self, ytd: bool) -> bool
        ensures { result ≡ list_all is_low (shown_numbers ytd (usage_of self.now)) }
    {
        self.columns_are_low() && (!ytd || self.total() <= HIGHEST)
    }

    fn columns_are_low(&self) -> bool
        ensures { result ≡ list_all is_low (usage_of self.now).columns }
    {
        self.numbers().iter().all(|number| *number <= HIGHEST)
    }
}
