// The ranked question. On a lawful set it comes to what the rules say; on any other it is harmless.
// Refusals 9 and 8 are the text's, then come 12, 13 and 7; the search itself is the crate `search`.
#![tactic(auto)]

ghost use Rattle.std.specs.Prelude.{◌≡◌};
ghost use Rattle.base.specs.Lent.{given};
ghost use Rattle.rules.specs.Tables.{lent_table};
ghost use Rattle.rules.specs.Questions.{ranking_lawful};
ghost use Rattle.rules.specs.Outcomes.{rooms_in, ranked_came_in};
ghost use Rattle.rules.specs.Indexes.{lent_index};
ghost use Rattle.rules.specs.Promises.{RankedPromise};
ghost use Rattle.search.specs.Searches.{table_columns};
ghost use Rattle.ranked.specs.Promises.{RankedFrom};

use rules::{Grid, Ranking, Refusal, Set};
use search::best_listed;
use table::text::text_verdict;
use walk::listing::{Listed, listing_of};

// Refusal 12 is for a question that is outside its limits.
#[tactic(auto, unfolding(rules::specs::Questions::ranking_lawful, base::specs::Lists::every))]
fn rankable(grid: Grid, asked: Ranking) -> bool
    ensures { result ≡ ranking_lawful grid asked }
{
    if !grid::holds(grid, asked.place) {
        return false;
    }
    if Ranking::WEIGHT_MOST < asked.weight {
        return false;
    }
    if asked.k < 1 {
        return false;
    }
    asked.k <= Ranking::K_MOST
}

// The question from a text's listing; the text itself is no more needed. That its words are broken is told after the question's own refusals.
pub fn ranked_from(
    set: Set,
    at: Listed,
    asked: Ranking,
    found: &mut [u32],
    values: &mut [u64],
) -> Result<u32, Refusal>
    ensures { RankedFrom (table_columns (lent_table set.entry.table)) set.entry.grid set.entry.index.order.now set.entry.index.entries.now at asked (rooms_in found values) (ranked_came_in result found values) }
{
    if !rankable(set.grid, asked) {
        return Err(Refusal::QuestionOutsideLimits);
    }
    let k = asked.k as usize;
    if found.len() < k {
        return Err(Refusal::RoomTooSmall);
    }
    if values.len() < k {
        return Err(Refusal::RoomTooSmall);
    }
    if !grid::lawful(set.grid) {
        return Err(Refusal::NotLawful);
    }
    match at? {
        Some(listing) => best_listed(set, listing, asked, found, values),
        None => Ok(0),
    }
}

// The best k stands whose name begins with the typed text, best first, each with its value.
pub fn ranked(
    set: Set,
    typed: &[u8],
    asked: Ranking,
    found: &mut [u32],
    values: &mut [u64],
) -> Result<u32, Refusal>
    ensures { RankedPromise (lent_table set.entry.table) set.entry.grid (lent_index set.entry.index) (given typed) asked (rooms_in found values) (ranked_came_in result found values) }
{
    text_verdict(typed)?;
    let at = listing_of(set.index.nodes, set.index.bits, typed);
    ranked_from(set, at, asked, found, values)
}
