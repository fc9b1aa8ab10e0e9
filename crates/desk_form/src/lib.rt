// The desk program's input: lines of key=value, read into the parts of a table and a question. Form.antt says which inputs are
// of the form, by how one is written; any other is refused 14.
#![tactic(auto)]

mod columns;
mod group;

ghost use Rattle.std.specs.Prelude.{◌≡◌, ◌≤◌, length};
ghost use Rattle.base.specs.Lent.{given};
ghost use Rattle.rules.specs.Tables.{lent_table};
ghost use Rattle.desk_form.specs.Columns.{parts_table, fronts};
ghost use Rattle.desk_form.specs.Answers.{ReadsInput};

use columns::read_stands;
use group::{read_opening, read_question};
use rules::{Grid, Ranking, Refusal, Table};

// What an input says: how many stands it has and how many bytes their names, the grid, where in the input the question's text
// begins and past its end, and what is asked for.
#[derive(Clone, Copy)]
pub struct Reading {
    pub stands: usize,
    pub bytes: usize,
    pub grid: Grid,
    // Stays: two places, and no Range, since ReadsInput tells both and a reading may be copied.
    pub from: usize,
    pub past: usize,
    pub ranking: Ranking,
}

impl Reading {
    // How many bytes an input has at most; so have all its names.
    pub const BYTES_MOST: usize = 16_384;

    // How many stands it has at most.
    pub const STANDS_MOST: u32 = 64;

    // Room for as many, and for one start more.
    pub const STANDS_ROOM: usize = Reading::STANDS_MOST as usize;

    pub const STARTS_ROOM: usize = Reading::STANDS_ROOM + 1;

    // The largest cell, score, weight or k.
    pub const NUMBER_MOST: u32 = 65_535;
}

// The parts of a table with room for any input's stands.
// Stays: how much of them is used is told by the reading, since a Vec would want a heap.
#[derive(Drop)]
pub struct Parts {
    pub text: [u8; Reading::BYTES_MOST],
    pub starts: [u32; Reading::STARTS_ROOM],
    pub east: [i32; Reading::STANDS_ROOM],
    pub north: [i32; Reading::STANDS_ROOM],
    pub score: [u32; Reading::STANDS_ROOM],
}

impl Parts {
    // The table of the first so many stands, whose names have so many bytes.
    pub fn table(&self, bytes: usize, stands: usize) -> Table<'_>
        requires short { bytes ≤ length self.now.text }
        requires few { stands ≤ 64 }
        ensures { lent_table result ≡ fronts bytes stands (parts_table self.now) }
    {
        Table {
            text: &self.text[..bytes],
            starts: &self.starts[..stands + 1],
            east: &self.east[..stands],
            north: &self.north[..stands],
            score: &self.score[..stands],
        }
    }
}

// Reads an input whole. The stands go to the lent parts of a table.
pub fn read_input(input: &[u8], parts: &mut Parts) -> Result<Reading, Refusal>
    ensures { ReadsInput (given input) (parts_table parts.old) result (parts_table parts.new) }
{
    if Reading::BYTES_MOST < input.len() {
        return Err(Refusal::InputMalformed);
    }
    let Some(((grid, stands), next)) = read_opening(input) else {
        return Err(Refusal::InputMalformed);
    };
    let stands = stands as usize;
    let Some((bytes, next)) = read_stands(input, next, stands, parts) else {
        return Err(Refusal::InputMalformed);
    };
    let Some((question, next)) = read_question(input, next) else {
        return Err(Refusal::InputMalformed);
    };
    if next != input.len() {
        return Err(Refusal::InputMalformed);
    }
    Ok(Reading {
        stands,
        bytes,
        grid,
        from: question.text.from,
        past: question.text.past,
        ranking: question.ranking,
    })
}
