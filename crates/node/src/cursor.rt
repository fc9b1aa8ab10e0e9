// The walk through the nodes in pre-order. A cursor is five numbers by value; what grows with it, what lies above it and each region's next
// place in the stand order, is in the work beside it, so that counting carries no more of it than it needs.
ghost use Rattle.std.specs.Prelude.{◌≡◌};
ghost use Rattle.node.specs.Lent.{columns_of};
ghost use Rattle.node.specs.Visits.{root_cursor, places_at, Stepped, Advanced};
ghost use Rattle.node.specs.Asks.{StepAsks, PassAsks, AdvanceAsks};

use crate::records::Served;
use crate::tally::{region_at, value_at};
use crate::{Columns, Gathered, Slots, Work};
use rules::{Node, Stand};

// The node of a stand's first length bytes, its number, and how many entries and bit records the nodes before it have.
#[derive(Clone, Copy)]
pub struct Cursor {
    pub stand: Stand,
    pub length: u8,
    pub number: Node,
    pub entries: u32,
    pub records: u32,
}

pub fn root() -> Cursor
    ensures { result ≡ root_cursor }
{
    Cursor {
        stand: Stand(0),
        length: 0,
        number: Node(0),
        entries: 0,
        records: 0,
    }
}

// The next node after the cursor's, which has so many entries and keeps so many records.
pub fn step(columns: Columns, cursor: Cursor, held: u32, kept: u32) -> Cursor
    requires { StepAsks columns.lengths.now columns.shared.now cursor held kept }
    ensures { Stepped columns.entry.lengths.now columns.entry.shared.now cursor held kept result }
{
    let number = Node(cursor.number.0 + 1);
    let entries = cursor.entries + held;
    let records = cursor.records + kept;
    let mut stand = cursor.stand.0 as usize;
    let mut length = cursor.length + 1;
    // Stays: a for is no plainer, since each stand brings the length that the next test holds against it.
    while stand < columns.lengths.len() && columns.lengths[stand] < length {
        stand += 1;
        length = value_at(columns.shared, Stand(stand as u32)) + 1;
    }
    Cursor {
        stand: Stand(stand as u32),
        length,
        number,
        entries,
        records,
    }
}

// The next places moved on over the stands that were passed.
fn pass(region: &[u8], next: &mut Slots, from: Stand, to: Stand)
    requires { PassAsks region.now next.old from.0 to.0 }
    ensures { next.new ≡ places_at region.now to.0 }
{
    for stand in from.0..to.0 {
        let slot = region_at(region, Stand(stand));
        next[slot] += 1;
    }
}

impl Work {
    // The next node after the cursor's, of which this was gathered and which is served so, with what lies above and the next places brought
    // along.
    pub fn advance(
        &mut self,
        columns: Columns,
        cursor: Cursor,
        gathered: Gathered,
        served: Served,
    ) -> Cursor
        requires { AdvanceAsks (columns_of columns) cursor gathered served self.old }
        ensures { Advanced (columns_of columns.entry) cursor gathered served self.old self.new result }
    {
        let place = usize::from(cursor.length);
        self.above.numbers[place] = cursor.number.0;
        self.above.records[place] = served.number;
        self.above.regions[place] = gathered.bits;
        let further = step(columns, cursor, gathered.held as u32, u32::from(served.own));
        pass(columns.region, &mut self.next, cursor.stand, further.stand);
        further
    }
}
