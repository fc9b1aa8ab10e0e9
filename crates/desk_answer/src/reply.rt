// The finder's calls in a row, on a table and a question: build, check, ask. What they answer goes into the bytes to be printed.
ghost use Rattle.std.specs.Prelude.{◌≤◌, length};
ghost use Rattle.base.specs.Lent.{given};
ghost use Rattle.rules.specs.Names.{folded_text};
ghost use Rattle.rules.specs.Tables.{lent_table};
ghost use Rattle.lines.specs.Puts.{Puts};
ghost use Rattle.desk_form.specs.Printed.{reply_to};
ghost use Rattle.desk_answer.specs.Promises.{rooms_index, MakesIndex, FindsBest};

use crate::printing::{put_hits, put_refusal};
use crate::{HITS_MOST, OUTPUT_MOST, Rooms};
use finder::{Grid, Ranking, Refusal, Set, Table, build, check, ranked};

// Stays, here and below: a length of at most 64 asked by each. A type for a table of so few is no plainer, since only these lend one on.
// Builds an index and checks it. The rooms are enough for 64 stands, so a table is refused only for what it is; and what was built
// is lawful, so the check's refusal is never given.
fn index_made(table: Table, grid: Grid, rooms: &mut Rooms) -> Result<(), Refusal>
    requires { length table.score.now ≤ 64 }
    ensures { MakesIndex (lent_table table.entry) grid result (rooms_index rooms.new) }
{
    build(
        table,
        grid,
        &mut rooms.order,
        &mut rooms.nodes,
        &mut rooms.entries,
        &mut rooms.bits,
    )?;
    check(table, grid, rooms.index()).ok_or(Refusal::NotLawful)?;
    Ok(())
}

// Finds the best stands, and answers how many they are; their numbers and values go to the two rooms.
fn best(
    table: Table,
    grid: Grid,
    rooms: &mut Rooms,
    typed: &[u8],
    asked: Ranking,
    found: &mut [u32; HITS_MOST],
    values: &mut [u64; HITS_MOST],
) -> Result<u32, Refusal>
    requires { length table.score.now ≤ 64 }
    ensures { FindsBest (lent_table table.entry) grid (folded_text (given typed)) asked result found.new values.new }
{
    index_made(table, grid, rooms)?;
    let set = Set {
        table,
        grid,
        index: rooms.index(),
    };
    ranked(set, typed, asked, found, values)
}

pub fn reply(
    out: &mut [u8; OUTPUT_MOST],
    table: Table,
    grid: Grid,
    rooms: &mut Rooms,
    typed: &[u8],
    asked: Ranking,
) -> usize
    requires { length table.score.now ≤ 64 }
    ensures { Puts (reply_to (lent_table table.entry) grid (folded_text (given typed)) asked) out.old 0 out.new result }
{
    let mut found = [0u32; HITS_MOST];
    let mut values = [0u64; HITS_MOST];
    match best(table, grid, rooms, typed, asked, &mut found, &mut values) {
        Ok(count) => {
            let count = count as usize;
            put_hits(out, table, &found[..count], &values[..count])
        }
        Err(why) => put_refusal(out, why),
    }
}
