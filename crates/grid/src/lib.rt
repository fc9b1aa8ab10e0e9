// Where a place lies in the grid of 8 by 8 regions, and whether grid and place are within their limits.
// Ways and values are in `worth`, roots in `roots`, a rectangle's regions in `cells`, signed metres in `metres`.
#![tactic(auto)]

ghost use Rattle.std.specs.Prelude.{◌≡◌, ◌<◌, true};
ghost use Rattle.rules.specs.Numbers.{told_numbers};
ghost use Rattle.rules.specs.Places.{edge_lawful, grid_lawful, within, in_grid, strip, region_of, region_told, rect_lawful, in_rect};

pub mod cells;
mod metres;
mod roots;
pub mod worth;

use metres::lift;
use rules::{Grid, Place, Rect, Refusal};
use std::num::wrapping_sub_u64;

// The grid's last column, and its last row.
const LAST: u32 = Grid::SIDE - 1;

// How far a row's number is shifted to count the cells of the rows before it.
const ROW_SHIFT: u32 = u32::trailing_zeros(Grid::SIDE);

// Stays, here and in `cells`: an edge and the side of a cell for an axis. A struct is no plainer, since one would be made of the grid for
// each of its two, and a side over 0 is known of a lawful grid alone. And a lawful grid is asked for by three and has no type of its own,
// since the C interface lends any grid, and each call judges it.

// Refusal 2 is for a grid that is not lawful.
pub fn lawful(grid: Grid) -> bool
    ensures { result ≡ grid_lawful grid }
{
    if !edge_lawful(grid.west) {
        return false;
    }
    if !edge_lawful(grid.south) {
        return false;
    }
    let cell = grid.cell;
    if cell < 1 {
        return false;
    }
    cell <= Grid::CELL_MOST
}

// Whether a place is in the grid.
pub fn holds(grid: Grid, place: Place) -> bool
    ensures { result ≡ in_grid grid place }
{
    if !within(grid.west, grid.cell, place.east) {
        return false;
    }
    within(grid.south, grid.cell, place.north)
}

// The region of a place of the grid.
pub fn region_of(grid: Grid, place: Place) -> u32
    requires { (grid_lawful grid ≡ true) × (in_grid grid place ≡ true) }
    ensures { result ≡ region_of grid place }
{
    let row = strip(grid.south, grid.cell, place.north);
    let column = strip(grid.west, grid.cell, place.east);
    (row << ROW_SHIFT) + column
}

// The region of any place in any grid, or why there is none.
pub fn locate(grid: Grid, place: Place) -> Result<u32, Refusal>
    ensures { told_numbers result ≡ region_told grid place }
{
    if !lawful(grid) {
        return Err(Refusal::GridOutsideLimits);
    }
    if !holds(grid, place) {
        return Err(Refusal::QuestionOutsideLimits);
    }
    Ok(region_of(grid, place))
}

// Refusal 11 is for a rectangle that is not lawful: west over east, or south over north.
pub fn rect_lawful(rect: Rect) -> bool
    ensures { result ≡ rect_lawful rect }
{
    if rect.east < rect.west {
        return false;
    }
    rect.south <= rect.north
}

// Whether a place is in a rectangle, to which all four edges belong.
pub fn in_rect(rect: Rect, place: Place) -> bool
    ensures { result ≡ in_rect rect place }
{
    if place.east < rect.west {
        return false;
    }
    if rect.east < place.east {
        return false;
    }
    if place.north < rect.south {
        return false;
    }
    place.north <= rect.north
}

fn edge_lawful(edge: i32) -> bool
    ensures { result ≡ edge_lawful edge }
{
    if edge < -Grid::EDGE_MOST {
        return false;
    }
    edge <= Grid::EDGE_MOST
}

// Whether x is one of the metres from the grid's edge on that its cells cover. Of one before the edge the difference wraps, and is then
// more than any cells cover.
fn within(edge: i32, cell: u32, x: i32) -> bool
    ensures { result ≡ within edge cell x }
{
    let into = wrapping_sub_u64(lift(x), lift(edge));
    into < (Grid::SIDE as u64) * (cell as u64)
}

// The column or row of a coordinate of the grid: cell sides are added while the next strip does not begin past it. The last strip has no
// next one, so that seven steps are the most. A division would be a routine to link where the processor has none.
fn strip(edge: i32, cell: u32, x: i32) -> u32
    requires { (0 < cell) × (within edge cell x ≡ true) }
    ensures { result ≡ strip edge cell x }
{
    let at = x as i64;
    let side = cell as i64;
    let mut next = (edge as i64) + side;
    for strip in 0..LAST {
        if at < next {
            return strip;
        }
        next += side;
    }
    LAST
}
