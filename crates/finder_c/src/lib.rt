// The finder for C: a slice is a pointer and a length, an answer its numbers. Each call hands on to the finder's own.
// include/krzewido.h says the same to C. Nothing is asked of any argument: what the calls under these promise, these promise of the numbers.
#![tactic(auto)]

ghost use Rattle.std.specs.Prelude.{◌≡◌};
ghost use Rattle.base.specs.Lent.{given};
ghost use Rattle.rules.specs.Numbers.{told_numbers, built_numbers, checked_numbers, range_numbers, any_numbers, verdict_number};
ghost use Rattle.rules.specs.Places.{region_told};
ghost use Rattle.rules.specs.Tables.{table_in};
ghost use Rattle.rules.specs.Outcomes.{room_in, rooms_in};
ghost use Rattle.rules.specs.Indexes.{index_in, check_told};
ghost use Rattle.rules.specs.Sessions.{fresh_session};
ghost use Rattle.rules.specs.Promises.{RangePromise, AnyPromise, RankedPromise, TypedRangePromise, TypedAnyPromise, TypedRankedPromise};
ghost use Rattle.index.specs.Promises.{BuildPromise, index_given, index_left};
ghost use Rattle.session.specs.Promises.{TypePromise, RubPromise};
ghost use Rattle.finder_c.specs.Told.{Tells, located_told, built_told, checked_told, found_told, any_told, found_in, founds_in, ranking_of, RestPart, set_in};

use finder::{
    Grid, Index, Place, RangeRefusal, Ranking, Rect, Refusal, Session, Set, Sizes, Stand, Table,
};
use rules::number_of;
use table::names::{Span, rest_span};

// Stays: numbers for refusals and for yes, and parts lent one by one, since the C interface has them so.
// A refusal is its number, or 0; with one every other number is 0, but for a range's matches.
#[repr(C)]
#[derive(Clone, Copy)]
pub struct Located {
    pub refusal: u32,
    pub region: u32,
}

#[repr(C)]
#[derive(Clone, Copy)]
pub struct Built {
    pub refusal: u32,
    pub nodes: u32,
    pub entries: u32,
    pub bits: u32,
}

// Lawful is 1 or 0.
#[repr(C)]
#[derive(Clone, Copy)]
pub struct Checked {
    pub lawful: u32,
    pub nodes: u32,
    pub entries: u32,
    pub bits: u32,
}

#[repr(C)]
#[derive(Clone, Copy)]
pub struct Found {
    pub refusal: u32,
    pub count: u32,
}

// Yes is 1 or 0, and without a yes the stand is 0.
#[repr(C)]
#[derive(Clone, Copy)]
pub struct AnyFound {
    pub refusal: u32,
    pub yes: u32,
    pub stand: u32,
}

// A part of the table's text: where it begins, and how many bytes it has.
#[repr(C)]
#[derive(Clone, Copy)]
pub struct Part {
    pub start: u32,
    pub length: u32,
}

impl From<Result<u32, Refusal>> for Located {
    ghost from_gives = { λ answer told. located_told told ≡ told_numbers answer };

    fn from(answer: Result<u32, Refusal>) -> Located {
        match answer {
            Ok(region) => Located { refusal: 0, region },
            Err(why) => Located {
                refusal: why.into(),
                region: 0,
            },
        }
    }
}

impl From<Result<Sizes, Refusal>> for Built {
    ghost from_gives = { λ answer told. built_told told ≡ built_numbers answer };

    fn from(answer: Result<Sizes, Refusal>) -> Built {
        match answer {
            Ok(
                Sizes {
                    nodes,
                    entries,
                    bits,
                },
            ) => Built {
                refusal: 0,
                nodes,
                entries,
                bits,
            },
            Err(why) => Built {
                refusal: why.into(),
                nodes: 0,
                entries: 0,
                bits: 0,
            },
        }
    }
}

impl From<Option<Sizes>> for Checked {
    ghost from_gives = { λ answer told. checked_told told ≡ checked_numbers answer };

    fn from(answer: Option<Sizes>) -> Checked {
        match answer {
            Some(
                Sizes {
                    nodes,
                    entries,
                    bits,
                },
            ) => Checked {
                lawful: 1,
                nodes,
                entries,
                bits,
            },
            None => Checked {
                lawful: 0,
                nodes: 0,
                entries: 0,
                bits: 0,
            },
        }
    }
}

impl From<Result<u32, RangeRefusal>> for Found {
    ghost from_gives = { λ answer told. found_told told ≡ range_numbers answer };

    fn from(answer: Result<u32, RangeRefusal>) -> Found {
        match answer {
            Ok(count) => Found { refusal: 0, count },
            Err(RangeRefusal { why, matches }) => Found {
                refusal: why.into(),
                count: matches,
            },
        }
    }
}

impl From<Result<u32, Refusal>> for Found {
    ghost from_gives = { λ answer told. found_told told ≡ told_numbers answer };

    fn from(answer: Result<u32, Refusal>) -> Found {
        Found::from(answer.map_err(RangeRefusal::from))
    }
}

impl From<Result<Option<Stand>, Refusal>> for AnyFound {
    ghost from_gives = { λ answer told. any_told told ≡ any_numbers answer };

    fn from(answer: Result<Option<Stand>, Refusal>) -> AnyFound {
        match answer {
            Ok(Some(stand)) => AnyFound {
                refusal: 0,
                yes: 1,
                stand: stand.0,
            },
            Ok(None) => AnyFound {
                refusal: 0,
                yes: 0,
                stand: 0,
            },
            Err(why) => AnyFound {
                refusal: why.into(),
                yes: 0,
                stand: 0,
            },
        }
    }
}

// The set that C lends part by part.
fn set_of<'a>(
    text: &'a [u8],
    starts: &'a [u32],
    east: &'a [i32],
    north: &'a [i32],
    score: &'a [u32],
    grid: Grid,
    order: &'a [u32],
    nodes: &'a [u32],
    entries: &'a [u32],
    bits: &'a [u32],
) -> Set<'a>
    ensures { result ≡ set_in text starts east north score grid order nodes entries bits }
{
    Set {
        table: Table {
            text,
            starts,
            east,
            north,
            score,
        },
        grid,
        index: Index {
            order,
            nodes,
            entries,
            bits,
        },
    }
}

#[unsafe(no_mangle)]
pub extern "C" fn krz_region(grid: Grid, place: Place) -> Located
    ensures { located_told result ≡ region_told grid place }
{
    finder::locate(grid, place).into()
}

#[unsafe(no_mangle)]
pub extern "C" fn krz_build(
    text: &[u8],
    starts: &[u32],
    east: &[i32],
    north: &[i32],
    score: &[u32],
    grid: Grid,
    order: &mut [u32],
    nodes: &mut [u32],
    entries: &mut [u32],
    bits: &mut [u32],
) -> Built
    ensures { Tells built_numbers (λ a. BuildPromise (table_in text starts east north score) grid (index_given order nodes entries bits) a (index_left order nodes entries bits)) (built_told result) }
{
    let table = Table {
        text,
        starts,
        east,
        north,
        score,
    };
    finder::build(table, grid, order, nodes, entries, bits).into()
}

#[unsafe(no_mangle)]
pub extern "C" fn krz_check(
    text: &[u8],
    starts: &[u32],
    east: &[i32],
    north: &[i32],
    score: &[u32],
    grid: Grid,
    order: &[u32],
    nodes: &[u32],
    entries: &[u32],
    bits: &[u32],
) -> Checked
    ensures { checked_told result ≡ check_told (table_in text starts east north score) grid (index_in order nodes entries bits) }
{
    let set = set_of(
        text, starts, east, north, score, grid, order, nodes, entries, bits,
    );
    finder::check(set.table, set.grid, set.index).into()
}

#[unsafe(no_mangle)]
pub extern "C" fn krz_range(
    text: &[u8],
    starts: &[u32],
    east: &[i32],
    north: &[i32],
    score: &[u32],
    grid: Grid,
    order: &[u32],
    nodes: &[u32],
    entries: &[u32],
    bits: &[u32],
    typed: &[u8],
    rect: Rect,
    found: &mut [u32],
) -> Found
    ensures { RangePromise (table_in text starts east north score) grid (index_in order nodes entries bits) (given typed) rect (room_in found) (found_in result found) }
{
    let set = set_of(
        text, starts, east, north, score, grid, order, nodes, entries, bits,
    );
    finder::range(set, typed, rect, found).into()
}

#[unsafe(no_mangle)]
pub extern "C" fn krz_any(
    text: &[u8],
    starts: &[u32],
    east: &[i32],
    north: &[i32],
    score: &[u32],
    grid: Grid,
    order: &[u32],
    nodes: &[u32],
    entries: &[u32],
    bits: &[u32],
    typed: &[u8],
    rect: Rect,
) -> AnyFound
    ensures { AnyPromise (table_in text starts east north score) grid (index_in order nodes entries bits) (given typed) rect (any_told result) }
{
    let set = set_of(
        text, starts, east, north, score, grid, order, nodes, entries, bits,
    );
    finder::any(set, typed, rect).into()
}

#[unsafe(no_mangle)]
pub extern "C" fn krz_ranked(
    text: &[u8],
    starts: &[u32],
    east: &[i32],
    north: &[i32],
    score: &[u32],
    grid: Grid,
    order: &[u32],
    nodes: &[u32],
    entries: &[u32],
    bits: &[u32],
    typed: &[u8],
    place: Place,
    weight: u32,
    k: u32,
    found: &mut [u32],
    values: &mut [u64],
) -> Found
    ensures { RankedPromise (table_in text starts east north score) grid (index_in order nodes entries bits) (given typed) (ranking_of place weight k) (rooms_in found values) (founds_in result found values) }
{
    let set = set_of(
        text, starts, east, north, score, grid, order, nodes, entries, bits,
    );
    let asked = Ranking { place, weight, k };
    finder::ranked(set, typed, asked, found, values).into()
}

#[unsafe(no_mangle)]
pub extern "C" fn krz_range_typed(
    text: &[u8],
    starts: &[u32],
    east: &[i32],
    north: &[i32],
    score: &[u32],
    grid: Grid,
    order: &[u32],
    nodes: &[u32],
    entries: &[u32],
    bits: &[u32],
    session: Session,
    rect: Rect,
    found: &mut [u32],
) -> Found
    ensures { TypedRangePromise (table_in text starts east north score) grid (index_in order nodes entries bits) session rect (room_in found) (found_in result found) }
{
    let set = set_of(
        text, starts, east, north, score, grid, order, nodes, entries, bits,
    );
    finder::range_typed(set, session, rect, found).into()
}

#[unsafe(no_mangle)]
pub extern "C" fn krz_any_typed(
    text: &[u8],
    starts: &[u32],
    east: &[i32],
    north: &[i32],
    score: &[u32],
    grid: Grid,
    order: &[u32],
    nodes: &[u32],
    entries: &[u32],
    bits: &[u32],
    session: Session,
    rect: Rect,
) -> AnyFound
    ensures { TypedAnyPromise (table_in text starts east north score) grid (index_in order nodes entries bits) session rect (any_told result) }
{
    let set = set_of(
        text, starts, east, north, score, grid, order, nodes, entries, bits,
    );
    finder::any_typed(set, session, rect).into()
}

#[unsafe(no_mangle)]
pub extern "C" fn krz_ranked_typed(
    text: &[u8],
    starts: &[u32],
    east: &[i32],
    north: &[i32],
    score: &[u32],
    grid: Grid,
    order: &[u32],
    nodes: &[u32],
    entries: &[u32],
    bits: &[u32],
    session: Session,
    place: Place,
    weight: u32,
    k: u32,
    found: &mut [u32],
    values: &mut [u64],
) -> Found
    ensures { TypedRankedPromise (table_in text starts east north score) grid (index_in order nodes entries bits) session (ranking_of place weight k) (rooms_in found values) (founds_in result found values) }
{
    let set = set_of(
        text, starts, east, north, score, grid, order, nodes, entries, bits,
    );
    let asked = Ranking { place, weight, k };
    finder::ranked_typed(set, session, asked, found, values).into()
}

#[unsafe(no_mangle)]
pub extern "C" fn krz_fresh() -> Session
    ensures { result ≡ fresh_session }
{
    Session::fresh()
}

// Of the set only the nodes are read.
#[unsafe(no_mangle)]
pub extern "C" fn krz_type(
    text: &[u8],
    starts: &[u32],
    east: &[i32],
    north: &[i32],
    score: &[u32],
    grid: Grid,
    order: &[u32],
    nodes: &[u32],
    entries: &[u32],
    bits: &[u32],
    session: &mut Session,
    byte: u8,
) -> u32
    ensures { Tells verdict_number (λ v. TypePromise (given nodes) byte session.old session.new v) result }
{
    number_of(finder::type_byte(nodes, session, byte))
}

// It takes the whole set so that all calls on a session look alike in C.
#[unsafe(no_mangle)]
pub extern "C" fn krz_rub_out(
    text: &[u8],
    starts: &[u32],
    east: &[i32],
    north: &[i32],
    score: &[u32],
    grid: Grid,
    order: &[u32],
    nodes: &[u32],
    entries: &[u32],
    bits: &[u32],
    session: &mut Session,
) -> u32
    ensures { Tells verdict_number (λ v. RubPromise session.old session.new v) result }
{
    number_of(finder::rub_out(session))
}

#[unsafe(no_mangle)]
pub extern "C" fn krz_rest(text: &[u8], starts: &[u32], stand: u32, typed: &[u8]) -> Part
    ensures { RestPart (given text) (given starts) stand (given typed) result }
{
    let Span { from, past } = rest_span(text, starts, Stand(stand), typed);
    Part {
        start: from as u32,
        length: (past - from) as u32,
    }
}
