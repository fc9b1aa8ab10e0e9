// Ways in the grid and their lengths, the grid's diagonal, and what a stand is worth at the end of a way.
// Lengths and values fit 32 bits on a lawful grid, for places in it, a score to 1,000 and a weight to 16.
ghost use Rattle.std.specs.Prelude.{◌≡◌, ◌+◌, ◌*◌, ◌<◌, ◌≤◌, true};
ghost use Rattle.rules.specs.Places.{grid_lawful, lifted};
ghost use Rattle.rules.specs.Worth.{apart, squared, diagonal, nearest, nearest_in, value_at};
ghost use Rattle.grid.specs.Ways.{way_between, way_to_region, longer_leg, way_length, Short, SeenFrom, Strip, Weighable};

use super::metres::{apart, lift, metres_between};
use super::roots::root;
use rules::{Grid, Place, Ranking, Stand};

// So many metres east or west, and so many north or south.
#[derive(Clone, Copy)]
pub struct Way {
    pub across: u32,
    pub along: u32,
}

// D, the grid's diagonal.
pub fn diagonal(grid: Grid) -> u32
    requires { grid_lawful grid ≡ true }
    ensures { result ≡ diagonal grid }
{
    let cell = grid.cell as u64;
    root(128 * (cell * cell))
}

pub fn way_between(a: Place, b: Place) -> Way
    ensures { result ≡ way_between a b }
{
    Way {
        across: metres_between(a.east, b.east),
        along: metres_between(a.north, b.north),
    }
}

// From the nearest metre of a region's cell to a place of the grid.
pub fn way_to_region(grid: Grid, region: u32, place: Place) -> Way
    requires { SeenFrom grid region place }
    ensures { result ≡ way_to_region grid region place }
{
    let across = gap(grid.west, grid.cell, region % Grid::SIDE, place.east);
    let along = gap(grid.south, grid.cell, region / Grid::SIDE, place.north);
    Way {
        across: across as u32,
        along: along as u32,
    }
}

// No way is shorter than this, and it takes no root.
pub fn longer_leg(way: Way) -> u32
    ensures { result ≡ longer_leg way }
{
    way.across.max(way.along)
}

// How long a way is, in whole metres.
pub fn length(way: Way) -> u32
    requires { Short way }
    ensures { result ≡ way_length way }
{
    root(squares(way))
}

// A value by D, weight, score and distance.
pub fn value_at(diagonal: u32, weight: u32, score: u32, distance: u32) -> u32
    requires { (Weighable diagonal weight score) × (distance ≤ diagonal) }
    ensures { result ≡ value_at diagonal weight score distance }
{
    let by_score = weight * score * diagonal;
    let by_place = (Ranking::WEIGHT_MOST - weight) * (diagonal - distance) * Stand::SCORE_MOST;
    by_score + by_place
}

// The squares of both legs, which is the square of the distance.
fn squares(way: Way) -> u64
    requires { Short way }
    ensures { result ≡ squared way.across + squared way.along }
{
    let across = way.across as u64;
    let along = way.along as u64;
    across * across + along * along
}

// Of the cell metres from low on, the nearest to x.
fn nearest(low: u64, cell: u32, x: u64) -> u64
    requires { (0 < cell) × (low < 8589934592) }
    ensures { result ≡ nearest low cell x }
{
    let past = low + (cell as u64);
    if x < low {
        return low;
    }
    if past <= x {
        return past - 1;
    }
    x
}

// How far x is from the nearest metre of a column or row.
fn gap(edge: i32, cell: u32, strip: u32, x: i32) -> u64
    requires { Strip cell strip }
    ensures { result ≡ apart (nearest_in edge cell strip x) (lifted x) }
{
    let low = lift(edge) + (strip as u64) * (cell as u64);
    let at = lift(x);
    apart(nearest(low, cell, at), at)
}
