// Bit records: a node whose regions are those of the node above it keeps none of its own.
ghost use Rattle.std.specs.Prelude.{◌≡◌, ◌≤◌};
ghost use Rattle.node.specs.Visits.{keeps_in, served_in, halves_of};

use crate::cursor::Cursor;
use crate::{Above, RegionPath, parent_of};
use rules::layout::RECORD_WORDS;

// The record that serves a node, and whether it is the node's own or its parent's.
#[derive(Clone, Copy)]
pub struct Served {
    pub number: u32,
    pub own: bool,
}

// Whether a node with these regions keeps a record of its own. The root, which has no node above it, keeps one.
#[tactic(auto, unfolding(crate::specs::Visits::keeps_in))]
pub fn keeps(regions: &RegionPath, length: u8, bits: u64) -> bool
    requires { length ≤ 24 }
    ensures { result ≡ keeps_in regions.now length bits }
{
    length == 0 || regions[usize::from(length - 1)] != bits
}

impl Above {
    // The record that serves the cursor's node, which has these regions: the next one, or that of the node above it.
    #[tactic(auto, unfolding(crate::specs::Visits::served_in))]
    pub fn serve(&self, cursor: Cursor, bits: u64) -> Served
        requires { cursor.length ≤ 24 }
        ensures { result ≡ served_in self.now.records self.now.regions cursor.length cursor.records bits }
    {
        let own = keeps(&self.regions, cursor.length, bits);
        let number = if own {
            cursor.records
        } else {
            parent_of(&self.records, cursor.length)
        };
        Served { number, own }
    }
}

// The words of a record: the bits of regions 0 to 31, and of 32 to 63.
pub fn halves(bits: u64) -> [u32; RECORD_WORDS]
    ensures { result ≡ halves_of bits }
{
    [(bits % 4294967296) as u32, (bits / 4294967296) as u32]
}
