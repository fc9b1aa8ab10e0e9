// The search behind the ranked question: from a text's listing to its k best stands, written to the caller's rooms.
// `search` is what all of it goes by: the grid's diagonal is reckoned once, and handed on there. `keys` weighs a stand at the end
// of a way, `stands` offers stands, `entries` passes the listed entries over or takes them. The words may be anything:
// those that no building writes are Broken, and nothing outside them is read.
#![tactic(auto)]

ghost use Rattle.std.specs.Prelude.{◌≡◌, ◌≤◌, length};
ghost use Rattle.rules.specs.Tables.{lent_table};
ghost use Rattle.rules.specs.Outcomes.{rooms_in, ranked_came_in};
ghost use Rattle.search.specs.Asked.{Searchable};
ghost use Rattle.search.specs.Searches.{table_columns, Writable, Written, BestListed};

mod entries;
mod keys;
mod search;
mod stands;

use best::{Held, stand_of, value_of};
use grid::worth::diagonal;
use rules::{Broken, Ranking, Refusal, Set};
use search::Search;
use walk::listing::Listing;

// The stands and values of the keys held, best first; the rest of the rooms stays.
fn write_held(held: &Held, found: &mut [u32], values: &mut [u64])
    requires { Writable held.now found.old values.old }
    ensures { Written held.now found.old values.old found.new values.new }
{
    for (i, key) in held.keys().iter().enumerate() {
        found[i] = stand_of(*key).0;
        values[i] = value_of(*key);
    }
}

// The k best stands that are listed, best first.
// Stays: two rooms, for stands and for values, since the C interface lends them so.
pub fn best_listed(
    set: Set,
    listing: Listing,
    asked: Ranking,
    found: &mut [u32],
    values: &mut [u64],
) -> Result<u32, Refusal>
    requires { Searchable set.grid asked found.old values.old }
    ensures { BestListed (table_columns (lent_table set.entry.table)) set.entry.grid asked set.entry.index.order.now set.entry.index.entries.now listing (rooms_in found values) (ranked_came_in result found values) }
{
    let table = set.table;
    let stands = table.east.len();
    let search = Search {
        east: table.east,
        north: table.north.get(..stands).ok_or(Broken)?,
        score: table.score.get(..stands).ok_or(Broken)?,
        order: set.index.order,
        grid: set.grid,
        diagonal: diagonal(set.grid),
        asked,
    };
    let mut held = Held::none();
    search.take_entries(set.index.entries, listing, &mut held)?;
    write_held(&held, found, values);
    Ok(held.keys().len() as u32)
}
