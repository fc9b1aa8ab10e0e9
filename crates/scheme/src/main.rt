// The small scheme, reckoned with the finder's own calls, line by line of the rules; then tables that are refused, and rests of names.
// What is printed is held to the file stdout.
#![tactic(auto)]

mod answers;
mod set;

use answers::{
    print_any, print_any_typed, print_built, print_checked, print_range, print_ranked,
    print_ranked_typed, print_region, print_rest, print_verdict, print_words,
};
use finder::{Grid, Place, Ranking, Rect, Session, Set, Stand};
use rules::layout::NODE_WORDS;
use set::{GRID, SCORE, STARTS, Words, table, table_with};
use std::io;

fn rect(west: i32, east: i32, south: i32, north: i32) -> Rect {
    Rect {
        west,
        east,
        south,
        north,
    }
}

fn asked(east: i32, north: i32, weight: u32, k: u32) -> Ranking {
    Ranking {
        place: Place { east, north },
        weight,
        k,
    }
}

// Lines 1 and 12: regions of places.
fn regions(rt: &impl Print) -> io::Result<()> {
    rt.write_all(b"regions\n")?;
    print_region(rt, GRID, 5, 5)?;
    print_region(rt, GRID, 75, 75)?;
    print_region(rt, GRID, 12, 5)?;
    print_region(rt, GRID, 9, 9)?;
    print_region(rt, GRID, 10, 9)?;
    print_region(rt, GRID, 79, 79)?;
    print_region(rt, GRID, 80, 79)
}

// Lines 5 and 6, with a capital and with bytes beside the capitals, and of line 12 the one with room for three stands and for two.
fn ranges(rt: &impl Print, set: Set) -> io::Result<()> {
    rt.write_all(b"range\n")?;
    let mut found = [0u32; 5];
    print_range(rt, set, b"ki", rect(0, 12, 0, 9), &mut found)?;
    print_range(rt, set, b"ki", rect(0, 11, 0, 9), &mut found)?;
    print_range(rt, set, b"", rect(12, 12, 5, 5), &mut found)?;
    print_range(rt, set, b"kiz", rect(0, 80, 0, 80), &mut found)?;
    print_range(rt, set, b"ki", rect(1, 0, 0, 9), &mut found)?;
    print_range(rt, set, b"kI", rect(0, 12, 0, 9), &mut found)?;
    print_range(rt, set, b"k@", rect(0, 12, 0, 9), &mut found)?;
    print_range(rt, set, b"k[", rect(0, 12, 0, 9), &mut found)?;
    let mut three = [0u32; 3];
    print_range(rt, set, b"kibo", rect(0, 80, 0, 80), &mut three)?;
    let mut two = [0u32; 2];
    print_range(rt, set, b"kibo", rect(0, 80, 0, 80), &mut two)
}

// Lines 5 and 6 as yes and no.
fn yes_or_no(rt: &impl Print, set: Set) -> io::Result<()> {
    rt.write_all(b"any\n")?;
    print_any(rt, set, b"ki", rect(0, 12, 0, 9))?;
    print_any(rt, set, b"ki", rect(0, 11, 0, 9))?;
    print_any(rt, set, b"", rect(12, 12, 5, 5))?;
    print_any(rt, set, b"kiz", rect(0, 80, 0, 80))?;
    print_any(rt, set, b"ki", rect(11, 11, 0, 9))?;
    print_any(rt, set, b"ki", rect(1, 0, 0, 9))?;
    print_any(rt, set, b"kI", rect(12, 80, 0, 80))?;
    print_any(rt, set, b"k@", rect(0, 12, 0, 9))
}

// Lines 7 to 10, and line 9 in capitals.
fn rankings(rt: &impl Print, set: Set) -> io::Result<()> {
    rt.write_all(b"ranked\n")?;
    print_ranked(rt, set, b"ki", asked(5, 5, 0, 2))?;
    print_ranked(rt, set, b"ki", asked(5, 5, 16, 2))?;
    print_ranked(rt, set, b"ki", asked(5, 5, 8, 4))?;
    print_ranked(rt, set, b"", asked(5, 5, 0, 3))?;
    print_ranked(rt, set, b"KI", asked(5, 5, 8, 4))
}

// The limits of line 12.
fn limits(rt: &impl Print, set: Set) -> io::Result<()> {
    rt.write_all(b"limits\n")?;
    print_ranked(rt, set, b"ki", asked(5, 5, 8, 16))?;
    print_ranked(rt, set, b"ki", asked(5, 5, 8, 17))?;
    print_ranked(rt, set, b"ki", asked(79, 79, 8, 1))?;
    print_ranked(rt, set, b"ki", asked(80, 79, 8, 1))?;
    print_ranked(rt, set, b"abcdefghijklmnopqrstuvwx", asked(5, 5, 8, 1))?;
    print_ranked(rt, set, b"abcdefghijklmnopqrstuvwxy", asked(5, 5, 8, 1))
}

fn press(rt: &impl Print, set: Set, session: &mut Session, byte: u8) -> io::Result<()> {
    print_verdict(rt, finder::type_byte(set.index.nodes, session, byte))
}

// Line 11, its last letter typed as a capital, and questions on the letters that stand.
fn keys(rt: &impl Print, set: Set) -> io::Result<()> {
    rt.write_all(b"session\n")?;
    let mut session = Session::fresh();
    press(rt, set, &mut session, b'k')?;
    press(rt, set, &mut session, b'i')?;
    press(rt, set, &mut session, b'Z')?;
    print_words(rt, "path", &session.path)?;
    print_any_typed(rt, set, session, rect(0, 80, 0, 80))?;
    print_ranked_typed(rt, set, session, asked(5, 5, 8, 4))?;
    print_verdict(rt, finder::rub_out(&mut session))?;
    print_words(rt, "path", &session.path)?;
    print_any_typed(rt, set, session, rect(0, 80, 0, 80))?;
    print_ranked_typed(rt, set, session, asked(5, 5, 8, 4))
}

// Of line 12: 24 letters pass, and the next is refused.
fn full(rt: &impl Print, set: Set) -> io::Result<()> {
    rt.write_all(b"full\n")?;
    let mut session = Session::fresh();
    for _ in 0..25 {
        press(rt, set, &mut session, b'k')?;
    }
    Ok(())
}

// Line 2 by the check: of the set as it is, and with one word of the order bent.
fn checks(rt: &impl Print, words: Words) -> io::Result<()> {
    rt.write_all(b"check\n")?;
    print_checked(rt, words.set())?;
    let mut bent = words;
    bent.order[0] = 1;
    print_checked(rt, bent.set())
}

// Line 3, the words of the node of "ki"; and the bit records, of the root, "kibor", "kit" and "m".
fn node_and_records(rt: &impl Print, words: &Words) -> io::Result<()> {
    rt.write_all(b"words\n")?;
    print_words(rt, "node", &words.nodes[2 * NODE_WORDS..3 * NODE_WORDS])?;
    print_words(rt, "records", &words.bits)
}

// What building says of the scheme's table with these starts, scores and grid.
fn print_table(rt: &impl Print, starts: &[u32], score: &[u32], grid: Grid) -> io::Result<()> {
    let mut words = Words::NONE;
    let answer = finder::build(
        table_with(starts, score),
        grid,
        &mut words.order,
        &mut words.nodes,
        &mut words.entries,
        &mut words.bits,
    );
    print_built(rt, answer)
}

// The table as it is, and with one thing in it out of its limits.
fn tables(rt: &impl Print) -> io::Result<()> {
    rt.write_all(b"tables\n")?;
    let wide = Grid {
        west: 0,
        south: 0,
        cell: 8_193,
    };
    print_region(rt, wide, 5, 5)?;
    print_table(rt, &STARTS, &SCORE, GRID)?;
    print_table(rt, &[0, 8, 4, 14, 18, 21], &SCORE, GRID)?;
    print_table(rt, &STARTS, &SCORE, wide)?;
    print_table(rt, &[0, 4, 4, 14, 18, 21], &SCORE, GRID)?;
    print_table(rt, &[0, 4, 9, 14, 18, 21], &SCORE, GRID)?;
    print_table(rt, &STARTS, &[100, 900, 400, 400, 1_001], GRID)
}

fn rests(rt: &impl Print) -> io::Result<()> {
    rt.write_all(b"rests\n")?;
    let text = table().text;
    let starts = table().starts;
    print_rest(rt, finder::rest_of_name(text, starts, Stand(2), b"kibo"))?;
    print_rest(rt, finder::rest_of_name(text, starts, Stand(3), b"kibo"))?;
    print_rest(rt, finder::rest_of_name(text, starts, Stand(5), b""))
}

fn main(rt: HostRuntime) -> io::Result<()> {
    let mut words = Words::NONE;
    // A table that is refused would show in the check's line.
    let _ = finder::build(
        table(),
        GRID,
        &mut words.order,
        &mut words.nodes,
        &mut words.entries,
        &mut words.bits,
    );
    let set = words.set();
    regions(&rt)?;
    checks(&rt, words)?;
    node_and_records(&rt, &words)?;
    ranges(&rt, set)?;
    yes_or_no(&rt, set)?;
    rankings(&rt, set)?;
    limits(&rt, set)?;
    keys(&rt, set)?;
    full(&rt, set)?;
    tables(&rt)?;
    rests(&rt)
}
