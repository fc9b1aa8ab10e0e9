// What the finder's calls are given and what they answer: the table and its index, places, numberings, questions, the session, refusals.
// Code reads a limit here, at the type that it belongs to; specs/ has the rules, with their numbers written out.
#![tactic(auto)]

ghost use Rattle.std.specs.Prelude.{◌≡◌};
ghost use Rattle.rules.specs.Numbers.{refusal_number, verdict_number, range_refused};
ghost use Rattle.rules.specs.Sessions.{fresh_session};
ghost use Rattle.rules.specs.declared.Refusal.{Refusal};
ghost use Rattle.rules.specs.declared.Refusal.TheVariants.{NotLawful};

pub mod layout;

// The number of a stand: its position in the table.
// Stays: three types for three numberings, as the rules name them; one generic type would still want a tag for each.
#[derive(Clone, Copy)]
pub struct Stand(pub u32);

// The number of a node of the letter tree, in pre-order.
#[derive(Clone, Copy)]
pub struct Node(pub u32);

// A place in the stand order.
#[derive(Clone, Copy)]
pub struct OrderPlace(pub u32);

impl Stand {
    // How many stands a table has at most.
    pub const MOST: usize = 1_024;

    // How many bytes a name, and so a typed text, has at most.
    pub const NAME_MOST: usize = 24;

    pub const SCORE_MOST: u32 = 1_000;
}

// Where the grid lies: its west and south edge and the side of a cell, in metres.
#[repr(C)]
#[derive(Clone, Copy)]
pub struct Grid {
    pub west: i32,
    pub south: i32,
    pub cell: u32,
}

impl Grid {
    // How far an edge may lie from 0, either way.
    pub const EDGE_MOST: i32 = 1_000_000;

    pub const CELL_MOST: u32 = 8_192;

    // Cells to a row, and rows.
    pub const SIDE: u32 = 8;

    pub const REGIONS: usize = (Grid::SIDE * Grid::SIDE) as usize;
}

// A table of stands, as it is lent: all names one after the other, where each begins and the last one ends, and a column for each number.
#[derive(Clone, Copy)]
pub struct Table<'a> {
    pub text: &'a [u8],
    pub starts: &'a [u32],
    pub east: &'a [i32],
    pub north: &'a [i32],
    pub score: &'a [u32],
}

// The four buffers of an index, lent to be read.
#[derive(Clone, Copy)]
pub struct Index<'a> {
    pub order: &'a [u32],
    pub nodes: &'a [u32],
    pub entries: &'a [u32],
    pub bits: &'a [u32],
}

// What a question is put to.
#[derive(Clone, Copy)]
pub struct Set<'a> {
    pub table: Table<'a>,
    pub grid: Grid,
    pub index: Index<'a>,
}

#[repr(C)]
#[derive(Clone, Copy)]
pub struct Place {
    pub east: i32,
    pub north: i32,
}

// A rectangle; all four edges belong to it.
#[repr(C)]
#[derive(Clone, Copy)]
pub struct Rect {
    pub west: i32,
    pub east: i32,
    pub south: i32,
    pub north: i32,
}

// What a ranked question asks for: the best k stands at a place, by this weight of score against nearness.
#[derive(Clone, Copy)]
pub struct Ranking {
    pub place: Place,
    pub weight: u32,
    pub k: u32,
}

impl Ranking {
    pub const WEIGHT_MOST: u32 = 16;

    pub const K_MOST: u32 = 16;
}

// A stand that a ranked question found, with its value.
#[derive(Clone, Copy)]
pub struct Hit {
    pub stand: u32,
    pub value: u64,
}

// Stays: an array with a length beside it, since the C interface lends this record (krz_session).
// The letters typed so far, and at place i of the path the node of the first i of them; 0 where there is none.
#[repr(C)]
#[derive(Clone, Copy)]
pub struct Session {
    pub text: [u8; Stand::NAME_MOST],
    pub len: u32,
    pub path: [u32; Session::PATH],
}

impl Session {
    // A node for each length of text, the empty one's among them.
    pub const PATH: usize = Stand::NAME_MOST + 1;

    // No letter typed.
    pub fn fresh() -> Session
        ensures { result ≡ fresh_session }
    {
        Session {
            text: [0; Stand::NAME_MOST],
            len: 0,
            path: [0; Session::PATH],
        }
    }
}

// Why a call refuses, by the numbers that it is known by.
#[derive(Clone, Copy, Debug, PartialEq, Eq)]
pub enum Refusal {
    TableMisshapen = 1,
    GridOutsideLimits,
    NameNotAllowed,
    NamesOutOfOrder,
    StandNotAllowed,
    BufferTooSmall,
    NotLawful,
    TextByteNotAllowed,
    TextTooLong,
    NothingToRubOut,
    RectReversed,
    QuestionOutsideLimits,
    RoomTooSmall,
    InputMalformed,
}

impl Refusal {
    pub fn number(self) -> u32
        ensures { result ≡ refusal_number self }
    {
        u32::from(self)
    }
}

impl From<Refusal> for u32 {
    ghost from_gives = { λ why n. n ≡ refusal_number why };

    fn from(why: Refusal) -> u32 {
        why as u32
    }
}

// A verdict is told by its refusal's number, or 0.
pub fn number_of(verdict: Result<(), Refusal>) -> u32
    ensures { result ≡ verdict_number verdict }
{
    match verdict {
        Ok(()) => 0,
        Err(why) => why.number(),
    }
}

// Some words are not those of an index. Wherever that shows, the set is refused as not lawful.
#[derive(Clone, Copy, Debug, PartialEq, Eq)]
pub struct Broken;

impl From<Broken> for Refusal {
    ghost from_gives = { λ _ why. why ≡ NotLawful };

    fn from(_: Broken) -> Refusal {
        Refusal::NotLawful
    }
}

// Why a range question is refused; for want of room, also how many stands match.
#[derive(Clone, Copy, Debug, PartialEq, Eq)]
pub struct RangeRefusal {
    // First, since behind the reason, which is a byte, it would be cleared with the gap between, by a routine that a Cortex-M0 has to link.
    pub matches: u32,
    pub why: Refusal,
}

impl From<Refusal> for RangeRefusal {
    ghost from_gives = { λ why refused. refused ≡ range_refused why };

    fn from(why: Refusal) -> RangeRefusal {
        RangeRefusal { why, matches: 0 }
    }
}

impl From<Broken> for RangeRefusal {
    ghost from_gives = { λ _ refused. refused ≡ range_refused NotLawful };

    fn from(broken: Broken) -> RangeRefusal {
        RangeRefusal::from(Refusal::from(broken))
    }
}

// How many nodes, entries and bit records an index has.
#[derive(Clone, Copy, Debug, PartialEq, Eq)]
pub struct Sizes {
    pub nodes: u32,
    pub entries: u32,
    pub bits: u32,
}
