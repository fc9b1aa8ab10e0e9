// Lines that belong together: the grid's, a stand's, the question's. Each group is read where it begins, in the order of its lines.
ghost use Rattle.std.specs.Prelude.{◌≤◌, length, drop};
ghost use Rattle.base.specs.Lent.{given};
ghost use Rattle.lines.specs.Writing.{ascii};
ghost use Rattle.lines.specs.Says.{Says};
ghost use Rattle.desk_form.specs.Reads.{grid_lines};
ghost use Rattle.desk_form.specs.Says.{SaysStand, SaysQuestion};

use crate::Reading;
use lines::{Part, bytes_line, signed_line, unsigned_line};
use rules::{Grid, Place, Ranking};

// A stand, its name as a part of the input.
#[derive(Clone, Copy)]
pub struct StandRead {
    pub name: Part,
    pub east: i32,
    pub north: i32,
    pub score: u32,
}

// The first of a stand's four lines that is not as it should be, from 0.
// Stays: a number, since StandTorn tells the line's.
#[derive(Clone, Copy)]
pub struct TornLine(pub u32);

// The question, its text as a part of the input.
#[derive(Clone, Copy)]
pub struct Question {
    pub text: Part,
    pub ranking: Ranking,
}

// Stays, here and below: the input and a place in it, as in lines.

// The grid and how many stands follow, and where their lines begin.
pub fn read_opening(input: &[u8]) -> Option<((Grid, u32), usize)>
    ensures { Says (given input) (grid_lines (given input)) result }
{
    let (west, at) = signed_line(input, 0, b"west=")?;
    let (south, at) = signed_line(input, at, b"south=")?;
    let (cell, at) = unsigned_line(input, at, b"cell=", Reading::NUMBER_MOST)?;
    let (stands, at) = unsigned_line(input, at, b"stands=", Reading::STANDS_MOST)?;
    Some(((Grid { west, south, cell }, stands), at))
}

// A stand's four lines, by the keys of the first and the last of them, and where the next lines begin. The question begins with four like
// them, by other keys.
fn read_by(
    input: &[u8],
    at: usize,
    first: &[u8],
    last: &[u8],
) -> Result<(StandRead, usize), TornLine>
    requires { at ≤ length input.now }
    ensures { SaysStand (given input) at (given first) (given last) result }
{
    let name = bytes_line(input, at, first).ok_or(TornLine(0))?;
    let (east, at) = signed_line(input, name.past + 1, b"east=").ok_or(TornLine(1))?;
    let (north, at) = signed_line(input, at, b"north=").ok_or(TornLine(2))?;
    let (score, at) = unsigned_line(input, at, last, Reading::NUMBER_MOST).ok_or(TornLine(3))?;
    let stand = StandRead {
        name,
        east,
        north,
        score,
    };
    Ok((stand, at))
}

pub fn read_stand(input: &[u8], at: usize) -> Result<(StandRead, usize), TornLine>
    requires { at ≤ length input.now }
    ensures { SaysStand (given input) at (ascii "name=") (ascii "score=") result }
{
    read_by(input, at, b"name=", b"score=")
}

// The question, and where its lines end.
pub fn read_question(input: &[u8], at: usize) -> Option<(Question, usize)>
    requires { at ≤ length input.now }
    ensures { SaysQuestion (given input) at result }
{
    let (four, at) = read_by(input, at, b"text=", b"weight=").ok()?;
    let (k, at) = unsigned_line(input, at, b"k=", Reading::NUMBER_MOST)?;
    let StandRead {
        name: text,
        east,
        north,
        score: weight,
    } = four;
    let ranking = Ranking {
        place: Place { east, north },
        weight,
        k,
    };
    Some((Question { text, ranking }, at))
}
