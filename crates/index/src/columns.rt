// The columns that an index is reckoned from: of each stand the length of its name, how much of it the name before has too, its region.
ghost use Rattle.std.specs.Prelude.{◌≡◌, ◌<◌, length, take};
ghost use Rattle.index.specs.Columns.{shared_in, lengths_in, shares_in, regions_over, Spelled, Located};

use rules::{Grid, Place, Stand, Table};
use table::names::{name_of, shared};

// How many bytes a stand's name shares with the name before it; none before the first.
fn shared_before(table: Table, stand: usize) -> u8
    requires { (Spelled table.text.now table.starts.now (length table.score.now)) × (stand < length table.score.now) }
    ensures { result ≡ shared_in table.entry.text.now table.entry.starts.now stand }
{
    if stand == 0 {
        return 0;
    }
    let before = name_of(table.text, table.starts, Stand((stand - 1) as u32));
    let here = name_of(table.text, table.starts, Stand(stand as u32));
    shared(before, here) as u8
}

// Stays: three columns by three loops. One function with a closure for the row is no plainer, since its contract would have to say for which
// stands the closure may be called and what it gives there. Nor is a table a type of its own where its names are spelled, which only these
// ask for.
// Each is inlined: called, it would have its column on the stack, and so would its caller.
#[inline(always)]
pub fn lengths(table: Table) -> [u8; Stand::MOST]
    requires { Spelled table.text.now table.starts.now (length table.score.now) }
    ensures { take (length table.entry.score.now) result ≡ lengths_in table.entry.text.now table.entry.starts.now (length table.entry.score.now) }
{
    let mut column = [0u8; Stand::MOST];
    for stand in 0..table.score.len() {
        let name = name_of(table.text, table.starts, Stand(stand as u32));
        column[stand] = name.len() as u8;
    }
    column
}

#[inline(always)]
pub fn shares(table: Table) -> [u8; Stand::MOST]
    requires { Spelled table.text.now table.starts.now (length table.score.now) }
    ensures { take (length table.entry.score.now) result ≡ shares_in table.entry.text.now table.entry.starts.now (length table.entry.score.now) }
{
    let mut column = [0u8; Stand::MOST];
    for stand in 0..table.score.len() {
        column[stand] = shared_before(table, stand);
    }
    column
}

#[inline(always)]
pub fn regions(table: Table, grid: Grid) -> [u8; Stand::MOST]
    requires { Located table.east.now table.north.now grid }
    ensures { take (length table.entry.east.now) result ≡ regions_over table.entry.east.now table.entry.north.now grid }
{
    let mut column = [0u8; Stand::MOST];
    for stand in 0..table.east.len() {
        let place = Place {
            east: table.east[stand],
            north: table.north[stand],
        };
        column[stand] = grid::region_of(grid, place) as u8;
    }
    column
}
