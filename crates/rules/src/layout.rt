// How the index lies in its words: how many a node, an entry and a bit record have, and which of them, counted from 0, is what.

pub const NODE_WORDS: usize = 8;

pub const PARENT: usize = 0;

pub const LAST_BYTE: usize = 1;

pub const FIRST_STAND: usize = 2;

pub const PAST_STAND: usize = 3;

// The number past the node's subtree.
pub const PAST_NODE: usize = 4;

// The number of the bit record that has the node's regions.
pub const RECORD: usize = 5;

// 1 if that is the parent's record too, else 0.
pub const REPEATS: usize = 6;

pub const FIRST_ENTRY: usize = 7;

pub const ENTRY_WORDS: usize = 4;

pub const REGION: usize = 0;

pub const BEST_SCORE: usize = 1;

pub const FIRST_PLACE: usize = 2;

pub const PAST_PLACE: usize = 3;

pub const RECORD_WORDS: usize = 2;

// Region bits 0 to 31, and 32 to 63.
pub const LOW_REGIONS: usize = 0;

pub const HIGH_REGIONS: usize = 1;
