// Whether any stand is in a rectangle: from a text's listing to the first stand of its range, and no further.
// `runs` says which stands are to be looked at, `first` goes through them.
#![tactic(auto)]

ghost use Rattle.base.specs.Lent.{given};
ghost use Rattle.rules.specs.Numbers.{any_numbers};
ghost use Rattle.rules.specs.Tables.{lent_table};
ghost use Rattle.rules.specs.Indexes.{lent_index};
ghost use Rattle.rules.specs.Promises.{AnyPromise};
ghost use Rattle.any.specs.Promises.{AnyFrom};

mod first;

use first::first_in;
use rules::{Grid, Rect, Refusal, Set, Stand};
use runs::met::runs_met;
use runs::notes::EntryNumbers;
use table::text::text_verdict;
use walk::listing::{Listed, listing_of};

// The question from a text's listing; the text itself is no more needed. Inlined, as a set that is handed on is laid out in memory anew.
#[inline(always)]
pub fn any_from(set: Set, at: Listed, rect: Rect) -> Result<Option<Stand>, Refusal>
    ensures { AnyFrom (lent_table set.entry.table) set.entry.grid (lent_index set.entry.index) at rect (any_numbers result) }
{
    let mut numbers: EntryNumbers = [0; Grid::REGIONS];
    let Some(runs) = runs_met(set, at, rect, &mut numbers)? else {
        return Ok(None);
    };
    first_in(runs, rect)
}

// Whether any stand whose name begins with a typed text is in a rectangle; with yes comes the first stand of that range.
// A set that is not lawful is refused where that shows; where it doesn't, the answer is of no worth, and no harm is done.
pub fn any(set: Set, typed: &[u8], rect: Rect) -> Result<Option<Stand>, Refusal>
    ensures { AnyPromise (lent_table set.entry.table) set.entry.grid (lent_index set.entry.index) (given typed) rect (any_numbers result) }
{
    text_verdict(typed)?;
    let at = listing_of(set.index.nodes, set.index.bits, typed);
    any_from(set, at, rect)
}
