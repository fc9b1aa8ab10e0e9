// The answers of the finder's calls on the small scheme, each on a line.
use finder::{Grid, Place, RangeRefusal, Ranking, Rect, Refusal, Session, Set, Sizes, Stand};
use std::fmt::Display;
use std::io;

// Room for the most stands that may be asked for.
const MOST: usize = Ranking::K_MOST as usize;

fn print_refusal(rt: &impl Print, why: Refusal) -> io::Result<()> {
    println!(rt; "refused {}", u32::from(why))
}

// Numbers behind their kind.
fn print_numbers<T: Display>(rt: &impl Print, kind: &str, numbers: &[T]) -> io::Result<()> {
    print!(rt; "{kind}")?;
    for number in numbers {
        print!(rt; " {number}")?;
    }
    Ok(())
}

pub(crate) fn print_words(rt: &impl Print, kind: &str, words: &[u32]) -> io::Result<()> {
    print_numbers(rt, kind, words)?;
    rt.write_all(b"\n")
}

pub(crate) fn print_verdict(rt: &impl Print, verdict: Result<(), Refusal>) -> io::Result<()> {
    match verdict {
        Ok(()) => println!(rt; "verdict 0"),
        Err(why) => println!(rt; "verdict {}", u32::from(why)),
    }
}

pub(crate) fn print_built(rt: &impl Print, answer: Result<Sizes, Refusal>) -> io::Result<()> {
    match answer {
        Ok(
            Sizes {
                nodes,
                entries,
                bits,
            },
        ) => println!(rt; "built {nodes} {entries} {bits}"),
        Err(why) => print_refusal(rt, why),
    }
}

pub(crate) fn print_checked(rt: &impl Print, set: Set) -> io::Result<()> {
    match finder::check(set.table, set.grid, set.index) {
        Some(
            Sizes {
                nodes,
                entries,
                bits,
            },
        ) => println!(rt; "lawful {nodes} {entries} {bits}"),
        None => println!(rt; "unlawful"),
    }
}

pub(crate) fn print_region(rt: &impl Print, grid: Grid, east: i32, north: i32) -> io::Result<()> {
    match finder::locate(grid, Place { east, north }) {
        Ok(region) => println!(rt; "region {region}"),
        Err(why) => print_refusal(rt, why),
    }
}

pub(crate) fn print_rest(rt: &impl Print, rest: &[u8]) -> io::Result<()> {
    rt.write_all(b"rest \"")?;
    rt.write_all(rest)?;
    rt.write_all(b"\"\n")
}

// A range question with as much room as is lent.
pub(crate) fn print_range(
    rt: &impl Print,
    set: Set,
    typed: &[u8],
    rect: Rect,
    found: &mut [u32],
) -> io::Result<()> {
    match finder::range(set, typed, rect, found) {
        Ok(count) => print_words(rt, "stands", &found[..found.len().min(count as usize)]),
        Err(RangeRefusal { why, matches }) => {
            println!(rt; "refused {} matches {matches}", u32::from(why))
        }
    }
}

fn print_yes_or_no(rt: &impl Print, answer: Result<Option<Stand>, Refusal>) -> io::Result<()> {
    match answer {
        Ok(Some(stand)) => println!(rt; "yes {}", stand.0),
        Ok(None) => println!(rt; "no"),
        Err(why) => print_refusal(rt, why),
    }
}

// Whether any stand is in a rectangle.
pub(crate) fn print_any(rt: &impl Print, set: Set, typed: &[u8], rect: Rect) -> io::Result<()> {
    print_yes_or_no(rt, finder::any(set, typed, rect))
}

// The same on the letters of a session.
pub(crate) fn print_any_typed(
    rt: &impl Print,
    set: Set,
    session: Session,
    rect: Rect,
) -> io::Result<()> {
    print_yes_or_no(rt, finder::any_typed(set, session, rect))
}

fn print_best(
    rt: &impl Print,
    answer: Result<u32, Refusal>,
    found: &[u32; MOST],
    values: &[u64; MOST],
) -> io::Result<()> {
    match answer {
        Ok(count) => {
            let count = MOST.min(count as usize);
            print_numbers(rt, "stands", &found[..count])?;
            print_numbers(rt, " values", &values[..count])?;
            rt.write_all(b"\n")
        }
        Err(why) => print_refusal(rt, why),
    }
}

// Stays, with the next: a closure for the question is no plainer, since the rooms would go through it and each would ask as it does here.
// A ranked question with room for as many as may be asked for.
pub(crate) fn print_ranked(
    rt: &impl Print,
    set: Set,
    typed: &[u8],
    asked: Ranking,
) -> io::Result<()> {
    let mut found = [0u32; MOST];
    let mut values = [0u64; MOST];
    let answer = finder::ranked(set, typed, asked, &mut found, &mut values);
    print_best(rt, answer, &found, &values)
}

// The same on the letters of a session.
pub(crate) fn print_ranked_typed(
    rt: &impl Print,
    set: Set,
    session: Session,
    asked: Ranking,
) -> io::Result<()> {
    let mut found = [0u32; MOST];
    let mut values = [0u64; MOST];
    let answer = finder::ranked_typed(set, session, asked, &mut found, &mut values);
    print_best(rt, answer, &found, &values)
}
