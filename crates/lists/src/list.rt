//! A whole list, read into a table.
ghost use Rattle.std.specs.Prelude.{◌≡◌, ◌<◌, ◌≤◌, true, ◌↔◌, List, length, Ok, Err};
ghost use Rattle.std.specs.List.{AllByRecursion};
ghost use Rattle.titles.specs.Places.{map_ok};
ghost use Rattle.titles.specs.Titles.{Entry, is_entry};
ghost use Rattle.lists.specs.declared.fault.ListRefusal.TheVariants.{Broken};
ghost use Rattle.lists.specs.Broken.{FaultyList};
ghost use Rattle.lists.specs.Lists.{Filled, FilledFrom, Fits, RefusedWith, TableAfter, answer, read_list};
ghost use Rattle.lists.specs.Written.{SpelledList, written_list};

use crate::entry::read_entry;
use crate::fault::{ListCause, ListFault, ListRefusal};
use groups::Blocks;
use titles::Title;

/// Reads the titles of a list into a table, as far as it has room, and counts them all; or tells the first fault.
fn read_titles<'a>(list: &'a [u8], table: &mut [Title<'a>]) -> Result<usize, ListFault>
    ensures counted { result ≡ map_ok length (read_list list.now) }
    ensures filled { Fits (read_list list.now) (length table.old) → FilledFrom (read_list list.now) table.old table.new }
{
    if list.is_empty() {
        return Err(ListFault::of_group(0, 0, ListCause::NoGroup));
    }
    // The count is the answer in the end, so the loop keeps it, and needs no number beside it.
    let mut count = 0;
    for group in Blocks::new(list) {
        let title = read_entry(count, &group)?;
        // Written by its index: behind a borrow of one entry nothing would be known of the others.
        if count < table.len() {
            table[count] = title;
        }
        count += 1;
    }
    Ok(count)
}

/// Reads a title list into the front of a table, and says how many titles it has.
///
/// The list is judged whole before the table is written: a refused list leaves the table as it was. It is accepted with
/// titles exactly where its bytes spell them and the table has room for them; a list that is written of right titles is
/// one. Refusal 10 says that it spells no titles, and tells the fault behind the groups that do spell one. Refusal 11
/// says that it spells more titles than the table has entries.
// The table is the caller's, and the count is the answer: there is no heap to grow one on.
pub fn read_list<'a>(list: &'a [u8], table: &mut [Title<'a>]) -> Result<usize, ListRefusal>
    ensures read { result ≡ answer (length table.old) (read_list list.now) }
    ensures table { TableAfter result (read_list list.now) table.old table.new }
    ensures exact { (es : List Entry) → (read_list list.now ≡ Ok es) ↔ SpelledList list.now es }
    ensures granted { (es : List Entry) → ((result ≡ Ok (length es)) × Filled es table.old table.new) ↔ (SpelledList list.now es × (length es ≤ length table.old)) }
    ensures broken { RefusedWith 10 result ↔ ((es : List Entry) → SpelledList list.now es → ⊥) }
    ensures told { (fault : ListFault) → (result ≡ Err (Broken fault)) ↔ FaultyList list.now fault }
    ensures short { RefusedWith 11 result ↔ ((es : List Entry) × SpelledList list.now es × (length table.old < length es)) }
    ensures written { (es : List Entry) → AllByRecursion (λ e. is_entry e ≡ true) es → 1 ≤ length es → length es ≤ 512 → length es ≤ length table.old → list.now ≡ written_list es → (result ≡ Ok (length es)) × Filled es table.old table.new }
{
    let count = read_titles(list, &mut [])?;
    if count > table.len() {
        return Err(ListRefusal::TableTooShort);
    }
    read_titles(list, table)?;
    Ok(count)
}
