// The four buffers past refusals 1 to 5: whether they have room, and the words of the index written to them or compared with them.
ghost use Rattle.std.specs.Prelude.{◌≡◌, ◌||◌, ◌*◌, ltb, length};
ghost use Rattle.rules.specs.Indexes.{lent_index};
ghost use Rattle.node.specs.Lent.{columns_of};
ghost use Rattle.index.specs.Promises.{index_given, index_left};
ghost use Rattle.index.specs.Written.{short_of, BuiltFrom, CheckedFrom};

use node::Columns;
use rules::layout::{ENTRY_WORDS, NODE_WORDS, RECORD_WORDS};
use rules::{Index, Refusal, Sizes};
use words::{count, has_order, put_order};

// Refusal 6, by the lengths of the buffers.
fn too_small(room: Index, stands: usize, sizes: Sizes) -> bool
    ensures { result ≡ short_of (lent_index room.entry) stands sizes }
{
    room.order.len() < stands
        || room.nodes.len() < NODE_WORDS * (sizes.nodes as usize)
        || room.entries.len() < ENTRY_WORDS * (sizes.entries as usize)
        || room.bits.len() < RECORD_WORDS * (sizes.bits as usize)
}

// Stays: the buffers one by one, and writing and checking in two functions, as in words' `turn` and `rooms`.
// The index of the table with these columns, in the buffers. Whether they have room is known before the first word is written.
pub fn put_index(
    columns: Columns,
    order: &mut [u32],
    nodes: &mut [u32],
    entries: &mut [u32],
    bits: &mut [u32],
) -> Result<Sizes, Refusal>
    ensures { BuiltFrom (columns_of columns.entry) (index_given order nodes entries bits) result (index_left order nodes entries bits) }
{
    let sizes = count(columns);
    let room = Index {
        order,
        nodes,
        entries,
        bits,
    };
    if too_small(room, columns.region.len(), sizes) {
        return Err(Refusal::BufferTooSmall);
    }
    put_order(columns.region, order);
    words::write(columns, sizes.nodes, nodes, entries, bits);
    Ok(sizes)
}

// How many nodes, entries and bit records there are, if the buffers begin with the index of the table with these columns.
pub fn has_index(columns: Columns, index: Index) -> Option<Sizes>
    ensures { CheckedFrom (columns_of columns.entry) (lent_index index.entry) result }
{
    if !has_order(columns.region, index.order) {
        return None;
    }
    words::check(columns, index)
}
