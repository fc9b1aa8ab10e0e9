// The index of the small scheme and of some generated tables, printed word by word.
// tests/src/words.rs prints the same from a scan of every stand; the file stdout is what both print.
#![tactic(auto)]

ghost use Rattle.std.specs.Prelude.{◌<◌};

use finder::{Grid, Table};
use rules::layout::{ENTRY_WORDS, NODE_WORDS, RECORD_WORDS};
use std::{array, io};

// Three stands to a pair of letters, and room for their names.
const LETTER_COUNT: usize = 5;

const PAIRS: usize = LETTER_COUNT * LETTER_COUNT;

const STANDS: usize = 3 * PAIRS;

const TEXT: usize = 7 * PAIRS;

// Room for any index of such a text: a root and a node for each byte, an entry for each byte and each stand, and fewer bit records than
// two for each stand.
const NODES: usize = (TEXT + 1) * NODE_WORDS;

const ENTRIES: usize = (TEXT + STANDS) * ENTRY_WORDS;

const BITS: usize = (2 * STANDS - 1) * RECORD_WORDS;

const LETTERS: [u8; LETTER_COUNT] = [32, 48, 57, 97, 122];

// Words on a line.
fn print_words(rt: &impl Print, words: &[u32]) -> io::Result<()> {
    for word in words {
        print!(rt; " {word}")?;
    }
    rt.write_all(b"\n")
}

// So many rows of so many words, each on a line behind its kind.
fn print_rows(
    rt: &impl Print,
    kind: &[u8],
    words: &[u32],
    rows: usize,
    width: usize,
) -> io::Result<()>
    requires { 0 < width }
{
    for row in words.chunks_exact(width).take(rows) {
        rt.write_all(kind)?;
        print_words(rt, row)?;
    }
    Ok(())
}

// All names, one after the other. Of three stands that follow each other two have one name, of two letters, and the third's begins with it.
fn names() -> [u8; TEXT] {
    let mut text = [b'a'; TEXT];
    for pair in 0..PAIRS {
        let high = LETTERS[pair / LETTER_COUNT];
        let low = LETTERS[pair % LETTER_COUNT];
        let at = 7 * pair;
        text[at..at + 6].copy_from_slice(&[high, low, high, low, high, low]);
    }
    text
}

// Where each name begins, and the last one ends.
fn starts() -> [u32; STANDS + 1] {
    array::from_fn(|i| (2 * i + i / 3) as u32)
}

// So many metres on for each stand, and round again.
fn metres(step: usize, first: usize) -> [i32; STANDS]
    requires { (step < 100) × (first < 100) }
{
    array::from_fn(|i| ((first + i * step) % 36) as i32)
}

fn scores() -> [u32; STANDS] {
    array::from_fn(|i| (i * 397 % 1001) as u32)
}

// The index of a table that fits the rooms here.
fn print_index(rt: &impl Print, table: Table, grid: Grid) -> io::Result<()> {
    let mut order = [0u32; STANDS];
    let mut nodes = [0u32; NODES];
    let mut entries = [0u32; ENTRIES];
    let mut bits = [0u32; BITS];
    let Ok(sizes) = finder::build(table, grid, &mut order, &mut nodes, &mut entries, &mut bits)
    else {
        return rt.write_all(b"refused\n");
    };
    let stands = table.score.len();
    println!(rt; "stands {stands}")?;
    print_rows(rt, b"order", &order, stands, 1)?;
    print_rows(rt, b"node", &nodes, sizes.nodes as usize, NODE_WORDS)?;
    print_rows(rt, b"entry", &entries, sizes.entries as usize, ENTRY_WORDS)?;
    print_rows(rt, b"record", &bits, sizes.bits as usize, RECORD_WORDS)
}

// The first so many stands of a longer table.
fn print_first(rt: &impl Print, count: usize, table: Table, grid: Grid) -> io::Result<()> {
    let Table {
        text,
        starts,
        east,
        north,
        score,
    } = table;
    if starts.len() <= count || east.len() < count || north.len() < count || score.len() < count {
        return Ok(());
    }
    let past = starts[count] as usize;
    if text.len() < past {
        return Ok(());
    }
    let first = Table {
        text: &text[..past],
        starts: &starts[..count + 1],
        east: &east[..count],
        north: &north[..count],
        score: &score[..count],
    };
    print_index(rt, first, grid)
}

// The first so many of the generated stands.
fn print_sample(rt: &impl Print, count: usize) -> io::Result<()>
    requires { count < 100 }
{
    let table = Table {
        text: &names(),
        starts: &starts(),
        east: &metres(37, count),
        north: &metres(23, 5),
        score: &scores(),
    };
    let grid = Grid {
        west: -20,
        south: -13,
        cell: 7,
    };
    print_first(rt, count, table, grid)
}

fn main(rt: HostRuntime) -> io::Result<()> {
    let table = Table {
        text: b"kibokibokiborikitomto",
        starts: &[0, 4, 8, 14, 18, 21],
        east: &[5, 75, 12, 9, 10],
        north: &[5, 75, 5, 9, 9],
        score: &[100, 900, 400, 400, 0],
    };
    let grid = Grid {
        west: 0,
        south: 0,
        cell: 10,
    };
    print_index(&rt, table, grid)?;
    print_sample(&rt, 0)?;
    print_sample(&rt, 1)?;
    print_sample(&rt, 20)?;
    print_sample(&rt, 75)
}
