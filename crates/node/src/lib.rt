// One node of the index, reckoned from a table's columns: what lies under it, gathered and ranked, and its row of words.
// `cursor` goes from node to node, `records` says whose bits serve one. The work for a node grows with its stands and its entries.
#![tactic(auto)]

pub mod columns;
pub mod cursor;
pub mod ranks;
pub mod records;
pub mod tally;

ghost use Rattle.std.specs.Prelude.{◌≡◌, ◌≤◌};
ghost use Rattle.node.specs.Lent.{columns_of};
ghost use Rattle.node.specs.Rows.{last_of, past_number, Gathers, Rowed};
ghost use Rattle.node.specs.Visits.{above_in};
ghost use Rattle.node.specs.Asks.{GatherAsks, LastAsks, PastAsks, RowAsks};

pub use columns::Columns;
use cursor::Cursor;
use ranks::ranks;
use records::Served;
use rules::layout::NODE_WORDS;
use rules::{Grid, Node, Session, Stand};
use tally::{end_of, grown, value_at};

// A number for each region.
pub type Slots = [u32; Grid::REGIONS];

// A number for each length of a text, that of the node above which has so long a one.
pub type Path = [u32; Session::PATH];

// And its regions, as bits.
pub type RegionPath = [u64; Session::PATH];

// What lies above a node: of each node there the number, the bit record that serves it, and the regions.
#[derive(Drop)]
pub struct Above {
    pub numbers: Path,
    pub records: Path,
    pub regions: RegionPath,
}

// What is kept from node to node, made once: each region's next place in the stand order and what lies above; and slots for what lies
// under a node, of each region there the place past its last stand and the best score, and those regions in the order of their entries.
#[derive(Drop)]
pub struct Work {
    pub next: Slots,
    pub above: Above,
    pub places: Slots,
    pub best: Slots,
    // Stays: how many are held is told beside it (`Gathered`), since a Vec would want a heap.
    pub ranked: Slots,
}

// The stand past a node's last, its regions as bits, and how many regions and so entries it has.
#[derive(Clone, Copy)]
pub struct Gathered {
    pub past: Stand,
    pub bits: u64,
    pub held: usize,
}

impl Work {
    // What lies under the cursor's node: its regions' places and scores in their slots, and the regions ranked.
    pub fn gather(&mut self, columns: Columns, cursor: Cursor) -> Gathered
        requires { GatherAsks (columns_of columns) cursor self.old }
        ensures { Gathers (columns_of columns.entry) cursor self.old self.new result }
    {
        let stand = cursor.stand;
        let past = end_of(columns.shared, stand, cursor.length);
        let bits = self.tally(columns.region, columns.score, stand, past);
        let held = ranks(bits, &self.best, &mut self.ranked);
        Gathered { past, bits, held }
    }
}

// The last byte of a node, 0 for the root.
fn last_byte(text: &[u8], starts: &[u32], stand: Stand, length: u8) -> u32
    requires { LastAsks text.now starts.now stand.0 length }
    ensures { result ≡ last_of text.now starts.now stand.0 length }
{
    if length == 0 {
        return 0;
    }
    let at = starts[stand.0 as usize] as usize + usize::from(length - 1);
    u32::from(text[at])
}

// What the path has of a node's parent, 0 for the root.
fn parent_of(path: &Path, length: u8) -> u32
    requires { length ≤ 24 }
    ensures { result ≡ above_in path.now length }
{
    if length == 0 {
        return 0;
    }
    path[usize::from(length - 1)]
}

// The number past the subtree of the cursor's node: those under it are the longer ones of its first stand, and what the stands behind that
// one add.
fn past_number(columns: Columns, cursor: Cursor, past: Stand) -> Node
    requires { PastAsks columns.lengths.now cursor past.0 }
    ensures { result.0 ≡ past_number columns.entry.lengths.now columns.entry.shared.now cursor.stand.0 cursor.length past.0 cursor.number.0 }
{
    let stand = cursor.stand;
    let own = u32::from(value_at(columns.lengths, stand) - cursor.length);
    let behind = Stand(stand.0 + 1);
    let grew = grown(columns, behind, past);
    Node(cursor.number.0 + 1 + own + grew)
}

// The words of the cursor's node, whose stands end here and which is served so, in the order of rules::layout.
pub fn row(
    columns: Columns,
    above: &Above,
    cursor: Cursor,
    past: Stand,
    served: Served,
) -> [u32; NODE_WORDS]
    requires { RowAsks (columns_of columns) above.now.numbers cursor past.0 served }
    ensures { Rowed (columns_of columns.entry) above.now.numbers cursor past.0 served result }
{
    let stand = cursor.stand;
    let length = cursor.length;
    let parent = parent_of(&above.numbers, length);
    let last_byte = last_byte(columns.text, columns.starts, stand, length);
    let past_node = past_number(columns, cursor, past);
    [
        parent,
        last_byte,
        stand.0,
        past.0,
        past_node.0,
        served.number,
        u32::from(!served.own),
        cursor.entries,
    ]
}
