// The desk program without its reading and writing: from the bytes of an input to the bytes that are printed.
#![tactic(auto)]

mod printing;
mod reply;

ghost use Rattle.std.specs.Prelude.{◌≡◌};
ghost use Rattle.base.specs.Lent.{given};
ghost use Rattle.rules.specs.Indexes.{lent_index};
ghost use Rattle.desk_answer.specs.Promises.{rooms_index, AnswersInput};

use desk_form::{Parts, Reading, read_input};
use finder::{Index, Ranking, Refusal, Stand};
use printing::put_refusal;
use reply::reply;
use rules::layout::{ENTRY_WORDS, NODE_WORDS, RECORD_WORDS};

// Room for the index of as many stands as an input has at most: a root and a node for each byte of a name, for each stand an entry in
// each node that it is under, and fewer bit records than two for each stand.
pub const ORDER_ROOM: usize = Reading::STANDS_ROOM;

pub const NODES_ROOM: usize = (Reading::STANDS_ROOM * Stand::NAME_MOST + 1) * NODE_WORDS;

pub const ENTRIES_ROOM: usize = Reading::STANDS_ROOM * (Stand::NAME_MOST + 1) * ENTRY_WORDS;

pub const BITS_ROOM: usize = (2 * Reading::STANDS_ROOM - 1) * RECORD_WORDS;

pub const HITS_MOST: usize = Ranking::K_MOST as usize;

// How many bytes are printed at most: some 30 for the first line, and at most 96 for a hit.
pub const OUTPUT_MOST: usize = 2_048;

// The rooms for an index.
// Stays: one size, and no const parameters for the scheme's rooms too, since no function takes both.
#[derive(Drop)]
pub struct Rooms {
    pub order: [u32; ORDER_ROOM],
    pub nodes: [u32; NODES_ROOM],
    pub entries: [u32; ENTRIES_ROOM],
    pub bits: [u32; BITS_ROOM],
}

impl Rooms {
    // The index that they hold, lent.
    fn index(&self) -> Index<'_>
        ensures { lent_index result ≡ rooms_index self.now }
    {
        Index {
            order: &self.order,
            nodes: &self.nodes,
            entries: &self.entries,
            bits: &self.bits,
        }
    }
}

// Reads an input, finds what it asks for, and puts what is printed at the start of `out`, which past it stays as it was; the answer
// is how many bytes that is. The table and its index go to the other rooms.
pub fn answer(
    input: &[u8],
    parts: &mut Parts,
    rooms: &mut Rooms,
    out: &mut [u8; OUTPUT_MOST],
) -> usize
    ensures { AnswersInput (given input) out.old out.new result }
{
    let Ok(reading) = read_input(input, parts) else {
        return put_refusal(out, Refusal::InputMalformed);
    };
    let table = parts.table(reading.bytes, reading.stands);
    let typed = &input[reading.from..reading.past];
    reply(out, table, reading.grid, rooms, typed, reading.ranking)
}
