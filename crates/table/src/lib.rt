// A table of stands, and whether the finder takes it: refusals 1 to 5.
// `names` has the names as parts of the text, `lawful` one test for each of refusals 1, 3, 4 and 5; refusal 2 is the crate `grid`'s.
// `text` has the refusals of a typed text.
#![tactic(auto)]

pub mod lawful;
pub mod names;
pub mod text;

ghost use Rattle.std.specs.Prelude.{◌≡◌};
ghost use Rattle.rules.specs.Numbers.{verdict_number};
ghost use Rattle.rules.specs.Tables.{lent_table, table_refusal};

use lawful::{names_allowed, names_in_order, shape_lawful, stands_lawful};
use rules::{Grid, Refusal, Table};

// The first of refusals 1 to 5 that holds.
pub fn table_refusal(table: Table, grid: Grid) -> Result<(), Refusal>
    ensures { verdict_number result ≡ table_refusal (lent_table table.entry) grid }
{
    if !shape_lawful(table) {
        return Err(Refusal::TableMisshapen);
    }
    if !grid::lawful(grid) {
        return Err(Refusal::GridOutsideLimits);
    }
    let stands = table.score.len() as u32;
    if !names_allowed(table, stands) {
        return Err(Refusal::NameNotAllowed);
    }
    if !names_in_order(table, stands) {
        return Err(Refusal::NamesOutOfOrder);
    }
    if !stands_lawful(table.east, table.north, table.score, grid) {
        return Err(Refusal::StandNotAllowed);
    }
    Ok(())
}
