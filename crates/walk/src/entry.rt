// One entry of a listing, read from its words, which may be anything.
ghost use Rattle.std.specs.Prelude.{◌≡◌};
ghost use Rattle.base.specs.Lent.{given};
ghost use Rattle.walk.specs.Entries.{entry_within, entry_read};

use rules::layout::{BEST_SCORE, ENTRY_WORDS, FIRST_PLACE, PAST_PLACE, REGION};
use rules::{Broken, Grid, OrderPlace};

// A region, the largest score there, and the run of its stands in the order: from a first place on, short of the one past the last.
#[derive(Clone, Copy)]
pub struct Entry {
    pub region: u32,
    pub score: u32,
    pub first: OrderPlace,
    pub past: OrderPlace,
}

// Whether an entry is of a region, and its run within so many places.
#[tactic(auto, unfolding(crate::specs::Entries::entry_within))]
fn within(entry: Entry, places: usize) -> bool
    ensures { result ≡ entry_within places entry }
{
    if Grid::REGIONS as u32 <= entry.region {
        return false;
    }
    entry.past.0 as usize <= places
}

// The entry of a number, in an order of so many places. None is read that is not there, has no region, or whose run goes past the places.
#[tactic(auto, unfolding(crate::specs::Entries::entry_read))]
pub fn entry_at(entries: &[u32], number: usize, places: usize) -> Result<Entry, Broken>
    ensures { result ≡ entry_read (given entries) places number }
{
    if entries.len() / ENTRY_WORDS <= number {
        return Err(Broken);
    }
    let at = number * ENTRY_WORDS;
    let entry = Entry {
        region: entries[at + REGION],
        score: entries[at + BEST_SCORE],
        first: OrderPlace(entries[at + FIRST_PLACE]),
        past: OrderPlace(entries[at + PAST_PLACE]),
    };
    if !within(entry, places) {
        return Err(Broken);
    }
    Ok(entry)
}
