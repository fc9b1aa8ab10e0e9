// What lies under a node: where its stands end, how many nodes they make, and what each region holds of them.
ghost use Rattle.std.specs.Prelude.{◌≡◌, ◌≤◌, ◌<◌, length};
ghost use Rattle.node.specs.Columns.{at, Placed, Ends, stands_under, grown_of, bits_among, RegionAt};
ghost use Rattle.node.specs.Rows.{Tallies};
ghost use Rattle.node.specs.Asks.{TallyAsks};

use crate::{Columns, Work};
use rules::Stand;

// What a column has of a stand, 0 past the end: the root of an empty table has no stand.
pub fn value_at(column: &[u8], stand: Stand) -> u8
    ensures { result ≡ at column.now stand.0 }
{
    column.get(stand.0 as usize).copied().unwrap_or(0)
}

// The region of a stand.
// Stays, here and in the stand order: Placed asked of a column, and not said by its type. Given all columns, the promises, which say no more
// than `region.now` (RegionAt, counts_of, places_at), would have to name the others.
pub fn region_at(region: &[u8], stand: Stand) -> usize
    requires { (Placed region.now) × (stand.0 < length region.now) }
    ensures { RegionAt region.now stand.0 result }
{
    usize::from(region[stand.0 as usize])
}

// The first stand past this one that shares less than so many bytes with the one before; this one itself past the end.
pub fn end_of(shared: &[u8], stand: Stand, bytes: u8) -> Stand
    requires { (stand.0 ≤ length shared.now) × (length shared.now ≤ 1024) }
    ensures { Ends shared.now stand.0 bytes result.0 }
{
    let first = stand.0 as usize;
    if shared.len() <= first {
        return stand;
    }
    let mut past = first + 1;
    // Stays: tried and slower: by a for loop building at 1,024 stands takes 1,118,080 instructions, and 1,094,795 so.
    while past < shared.len() && bytes <= shared[past] {
        past += 1;
    }
    Stand(past as u32)
}

// How many nodes the stands from first on make, past not among them; none where first is past it.
pub fn grown(columns: Columns, first: Stand, past: Stand) -> u32
    requires { past.0 ≤ length columns.lengths.now }
    ensures { result ≡ grown_of columns.entry.lengths.now columns.entry.shared.now first.0 past.0 }
{
    let mut sum = 0;
    for stand in first.0 as usize..past.0 as usize {
        sum += u32::from(columns.lengths[stand] - columns.shared[stand]);
    }
    sum
}

// The regions of the stands under the node of a stand's first bytes, a bit for each; none past the end. Counting entries asks for no more,
// so that the stands are gone through once.
pub fn regions_under(columns: Columns, stand: Stand, bytes: u8) -> u64
    ensures { result ≡ bits_among columns.entry.region.now (stands_under columns.entry.shared.now stand.0 bytes) }
{
    let first = stand.0 as usize;
    if columns.shared.len() <= first {
        return 0;
    }
    let mut bits = 1u64 << region_at(columns.region, stand);
    for past in first + 1..columns.shared.len() {
        if columns.shared[past] < bytes {
            return bits;
        }
        bits |= 1u64 << region_at(columns.region, Stand(past as u32));
    }
    bits
}

impl Work {
    // One walk over those stands: their regions as bits, and for each of those regions the largest score and the place past its last stand.
    // A region's slots count only once its bit is set, so nothing is cleared.
    // Stays: two columns, and not all: no more is asked of a table than is read.
    pub fn tally(&mut self, region: &[u8], score: &[u32], first: Stand, past: Stand) -> u64
        requires { TallyAsks region.now score.now first.0 past.0 self.old }
        ensures { Tallies region.now score.now first.0 past.0 self.old self.new result }
    {
        let mut bits = 0;
        for stand in first.0..past.0 {
            let slot = region_at(region, Stand(stand));
            let known = (bits >> slot) % 2 == 1;
            let next = self.next[slot];
            let seen = (self.places[slot], self.best[slot]);
            let (place, so_far) = if known { seen } else { (next, 0) };
            self.places[slot] = place + 1;
            self.best[slot] = so_far.max(score[stand as usize]);
            bits |= 1u64 << slot;
        }
        bits
    }
}
