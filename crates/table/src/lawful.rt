// One test for each of refusals 1, 3, 4 and 5: true where the refusal does not hold.
// Only the last asks something of its parts, that they are as long as each other; the first tests that.
ghost use Rattle.std.specs.Prelude.{◌≡◌, length};
ghost use Rattle.base.specs.Lent.{given};
ghost use Rattle.rules.specs.Tables.{lent_table, rising, shape_lawful, names_allowed, names_in_order, stands_lawful};

use crate::names::{in_order, name_allowed, name_of};
use rules::{Grid, Place, Stand, Table};

// Whether no start is below the one before it.
fn rising(starts: &[u32]) -> bool
    ensures { result ≡ rising (given starts) }
{
    (1..starts.len()).all(|i| starts[i - 1] <= starts[i])
}

// Refusal 1. That there is one start more than stands comes first, so that the first and the last can be read.
pub fn shape_lawful(table: Table) -> bool
    ensures { result ≡ shape_lawful (lent_table table.entry) }
{
    let Table {
        text,
        starts,
        east,
        north,
        score,
    } = table;
    let stands = score.len();
    if Stand::MOST < stands {
        return false;
    }
    if east.len() != stands {
        return false;
    }
    if north.len() != stands {
        return false;
    }
    if starts.len() != stands + 1 {
        return false;
    }
    if starts[0] != 0 {
        return false;
    }
    if !rising(starts) {
        return false;
    }
    if starts[stands] as usize != text.len() {
        return false;
    }
    true
}

// Refusal 3.
pub fn names_allowed(table: Table, stands: u32) -> bool
    ensures { result ≡ names_allowed table.entry.text.now table.entry.starts.now stands }
{
    (0..stands).all(|i| name_allowed(name_of(table.text, table.starts, Stand(i))))
}

// Refusal 4. Neighbours are enough, since the byte order carries over a name between.
pub fn names_in_order(table: Table, stands: u32) -> bool
    ensures { result ≡ names_in_order table.entry.text.now table.entry.starts.now stands }
{
    (1..stands).all(|i| {
        let before = name_of(table.text, table.starts, Stand(i - 1));
        in_order(before, name_of(table.text, table.starts, Stand(i)))
    })
}

// Refusal 5.
pub fn stands_lawful(east: &[i32], north: &[i32], score: &[u32], grid: Grid) -> bool
    requires { (length east.now ≡ length score.now) × (length north.now ≡ length score.now) }
    ensures { result ≡ stands_lawful (given east) (given north) (given score) grid }
{
    (0..score.len()).all(|i| {
        let place = Place {
            east: east[i],
            north: north[i],
        };
        grid::holds(grid, place) && score[i] <= Stand::SCORE_MOST
    })
}
