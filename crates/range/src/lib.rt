// The range question: from a text's listing to the stands in the rectangle, written to the caller's room.
// `runs` says which stands are to be looked at, `gather` goes through them.
#![tactic(auto)]

ghost use Rattle.std.specs.Prelude.{◌≡◌};
ghost use Rattle.base.specs.Lent.{given};
ghost use Rattle.rules.specs.Tables.{lent_table};
ghost use Rattle.rules.specs.Outcomes.{room_in, range_came_in};
ghost use Rattle.rules.specs.Indexes.{lent_index};
ghost use Rattle.rules.specs.Promises.{RangePromise};
ghost use Rattle.runs.specs.Runs.{easts, norths, stands_there};
ghost use Rattle.range.specs.Promises.{RangeFrom};
ghost use Rattle.range.specs.Fetches.{looked};

mod gather;

use gather::gather;
use rules::{Grid, RangeRefusal, Rect, Refusal, Set};
use runs::Runs;
use runs::met::runs_met;
use runs::notes::EntryNumbers;
use table::text::text_verdict;
use walk::listing::{Listed, listing_of};

// How many matches are kept while they are counted: more than fit a handheld's screen.
const NEAR: usize = 32;

// The runs' matches, written once they are known to fit the room. Up to NEAR of them are kept from the count;
// only for more the runs are gone through again.
fn fill(runs: Runs, rect: Rect, found: &mut [u32]) -> Result<u32, RangeRefusal>
    ensures { range_came_in result found ≡ looked (easts runs.entry) (norths runs.entry) rect (stands_there runs.entry) found.old }
{
    let mut near = [0u32; NEAR];
    let matches = gather(runs, rect, &mut near)?;
    let count = matches as usize;
    if found.len() < count {
        return Err(RangeRefusal {
            why: Refusal::RoomTooSmall,
            matches,
        });
    }
    if count <= NEAR {
        found[..count].copy_from_slice(&near[..count]);
    } else {
        gather(runs, rect, found)?;
    }
    Ok(matches)
}

// The question from a text's listing; the text itself is no more needed. Inlined, as a set that is handed on is laid out in memory anew.
#[inline(always)]
pub fn range_from(set: Set, at: Listed, rect: Rect, found: &mut [u32]) -> Result<u32, RangeRefusal>
    ensures { RangeFrom (lent_table set.entry.table) set.entry.grid (lent_index set.entry.index) at rect (room_in found) (range_came_in result found) }
{
    let mut numbers: EntryNumbers = [0; Grid::REGIONS];
    let Some(runs) = runs_met(set, at, rect, &mut numbers)? else {
        return Ok(0);
    };
    fill(runs, rect, found)
}

// The stands whose name begins with a typed text and which are in a rectangle, by region and then by number.
// A set that is not lawful is refused where that shows; where it doesn't, the answer is of no worth, and no harm is done.
pub fn range(set: Set, typed: &[u8], rect: Rect, found: &mut [u32]) -> Result<u32, RangeRefusal>
    ensures { RangePromise (lent_table set.entry.table) set.entry.grid (lent_index set.entry.index) (given typed) rect (room_in found) (range_came_in result found) }
{
    text_verdict(typed)?;
    let at = listing_of(set.index.nodes, set.index.bits, typed);
    range_from(set, at, rect, found)
}
