// The small scheme as a set: its table, its grid, and the index that building writes for it.
use finder::{Grid, Index, Set, Table};

static TEXT: [u8; 21] = *b"kibokibokiborikitomto";

pub(crate) static STARTS: [u32; 6] = [0, 4, 8, 14, 18, 21];

static EAST: [i32; 5] = [5, 75, 12, 9, 10];

static NORTH: [i32; 5] = [5, 75, 5, 9, 9];

pub(crate) static SCORE: [u32; 5] = [100, 900, 400, 400, 0];

pub(crate) const GRID: Grid = Grid {
    west: 0,
    south: 0,
    cell: 10,
};

// The scheme's table, with these starts and scores.
pub(crate) fn table_with<'a>(starts: &'a [u32], score: &'a [u32]) -> Table<'a> {
    Table {
        text: &TEXT,
        starts,
        east: &EAST,
        north: &NORTH,
        score,
    }
}

pub(crate) fn table() -> Table<'static> {
    table_with(&STARTS, &SCORE)
}

// The four buffers, with just the room that the scheme's index needs.
#[derive(Clone, Copy)]
pub(crate) struct Words {
    pub order: [u32; 5],
    pub nodes: [u32; 96],
    pub entries: [u32; 88],
    pub bits: [u32; 8],
}

impl Words {
    pub(crate) const NONE: Words = Words {
        order: [0; 5],
        nodes: [0; 96],
        entries: [0; 88],
        bits: [0; 8],
    };

    pub(crate) fn set(&self) -> Set<'_> {
        Set {
            table: table(),
            grid: GRID,
            index: Index {
                order: &self.order,
                nodes: &self.nodes,
                entries: &self.entries,
                bits: &self.bits,
            },
        }
    }
}
