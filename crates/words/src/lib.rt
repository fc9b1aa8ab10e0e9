// The words of an index, reckoned from a table's columns: the length and the region of each name, how much it shares with the one
// before, and its score. One cursor goes through the nodes in pre-order and serves counting, writing and checking.
#![tactic(auto)]

pub mod order;
pub mod rooms;
pub mod turn;

ghost use Rattle.std.specs.Prelude.{◌≡◌, length};
ghost use Rattle.node.specs.Lent.{columns_of};
ghost use Rattle.node.specs.Visits.{visits_from};
ghost use Rattle.words.specs.Words.{rooms_of, rooms_in, Counted, WriteAsks, WroteAll, ComparesAll};

use node::cursor::{root, step};
use node::records::keeps;
use node::tally::{grown, regions_under};
use node::{Above, Columns, Work};
use order::places_of;
pub use order::{has_order, put_order};
use rules::{Grid, Index, Session, Sizes, Stand};
use turn::{check_node, write_node};

// How many nodes.
pub fn count_nodes(columns: Columns) -> u32
    ensures { result ≡ length (visits_from columns.entry.lengths.now columns.entry.shared.now 0 0) }
{
    let stands = columns.lengths.len() as u32;
    grown(columns, Stand(0), Stand(stands)) + 1
}

// How many nodes, entries and bit records.
pub fn count(columns: Columns) -> Sizes
    ensures { Counted (columns_of columns.entry) result }
{
    let all = count_nodes(columns);
    let mut regions = [0u64; Session::PATH];
    let mut cursor = root();
    // Stays: a for is no plainer, here and below, since the cursor counts its nodes itself.
    while cursor.number.0 < all {
        let length = cursor.length;
        let bits = regions_under(columns, cursor.stand, length);
        let own = keeps(&regions, length, bits);
        regions[usize::from(length)] = bits;
        cursor = step(columns, cursor, u64::count_ones(bits), u32::from(own));
    }
    Sizes {
        nodes: all,
        entries: cursor.entries,
        bits: cursor.records,
    }
}

// All words of the nodes, the entries and the bit records, in rooms that have place for them.
pub fn write(columns: Columns, all: u32, nodes: &mut [u32], entries: &mut [u32], bits: &mut [u32])
    requires { WriteAsks (columns_of columns) all (rooms_of nodes.old entries.old bits.old) }
    ensures { WroteAll (columns_of columns.entry) (rooms_of nodes.old entries.old bits.old) (rooms_of nodes.new entries.new bits.new) }
{
    // Stays: fixed memory: handed out by a function, the work would be on the stack twice, which then is 8,000 bytes deep and not 7,088.
    let mut work = Work {
        next: places_of(columns.region),
        above: Above {
            numbers: [0u32; Session::PATH],
            records: [0u32; Session::PATH],
            regions: [0u64; Session::PATH],
        },
        places: [0u32; Grid::REGIONS],
        best: [0u32; Grid::REGIONS],
        ranked: [0u32; Grid::REGIONS],
    };
    let mut cursor = root();
    while cursor.number.0 < all {
        cursor = write_node(columns, cursor, &mut work, nodes, entries, bits);
    }
}

// How many nodes, entries and bit records there are, if an index begins with all words of them.
pub fn check(columns: Columns, index: Index) -> Option<Sizes>
    ensures { ComparesAll (columns_of columns.entry) (rooms_in index.entry) result }
{
    let all = count_nodes(columns);
    // Stays: fixed memory, as in `write`.
    let mut work = Work {
        next: places_of(columns.region),
        above: Above {
            numbers: [0u32; Session::PATH],
            records: [0u32; Session::PATH],
            regions: [0u64; Session::PATH],
        },
        places: [0u32; Grid::REGIONS],
        best: [0u32; Grid::REGIONS],
        ranked: [0u32; Grid::REGIONS],
    };
    let mut here = root();
    while here.number.0 < all {
        here = check_node(columns, here, &mut work, index)?;
    }
    Some(Sizes {
        nodes: all,
        entries: here.entries,
        bits: here.records,
    })
}
