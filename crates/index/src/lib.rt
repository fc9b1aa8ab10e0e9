// The index of a table: building it into four lent buffers, and checking four buffers against it.
#![tactic(auto)]

mod buffers;
mod columns;

ghost use Rattle.std.specs.Prelude.{◌≡◌};
ghost use Rattle.rules.specs.Numbers.{checked_numbers};
ghost use Rattle.rules.specs.Tables.{lent_table};
ghost use Rattle.rules.specs.Indexes.{lent_index, check_told};
ghost use Rattle.index.specs.Promises.{BuildPromise, index_given, index_left};

use buffers::{has_index, put_index};
use columns::{lengths, regions, shares};
use node::Columns;
use rules::{Grid, Index, Refusal, Sizes, Table};
use table::table_refusal;

// Writes the index of a table to four buffers and answers how many nodes, entries and bit records it has; or the first of refusals 1 to 6,
// and the buffers stay as they are.
pub fn build(
    table: Table,
    grid: Grid,
    order: &mut [u32],
    nodes: &mut [u32],
    entries: &mut [u32],
    bits: &mut [u32],
) -> Result<Sizes, Refusal>
    ensures { BuildPromise (lent_table table.entry) grid (index_given order nodes entries bits) result (index_left order nodes entries bits) }
{
    table_refusal(table, grid)?;
    let stands = table.score.len();
    let lengths = lengths(table);
    let shares = shares(table);
    let regions = regions(table, grid);
    let columns = Columns {
        text: table.text,
        starts: table.starts,
        lengths: &lengths[..stands],
        shared: &shares[..stands],
        region: &regions[..stands],
        score: table.score,
    };
    put_index(columns, order, nodes, entries, bits)
}

// Whether table and grid pass refusals 1 to 5 and the four buffers begin with what building writes.
pub fn check(table: Table, grid: Grid, index: Index) -> Option<Sizes>
    ensures { checked_numbers result ≡ check_told (lent_table table.entry) grid (lent_index index.entry) }
{
    table_refusal(table, grid).ok()?;
    // Stays, with the same lines in build: columns lend arrays of the function that makes them. One that made them for both would be handed
    // what is done with them as a closure, and promise what that does, which is no plainer.
    let stands = table.score.len();
    let lengths = lengths(table);
    let shares = shares(table);
    let regions = regions(table, grid);
    let columns = Columns {
        text: table.text,
        starts: table.starts,
        lengths: &lengths[..stands],
        shared: &shares[..stands],
        region: &regions[..stands],
        score: table.score,
    };
    has_index(columns, index)
}
