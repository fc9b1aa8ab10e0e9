// One turn of building and of checking: the node at the cursor is gathered, its words put into the rooms or compared with them, and
// the cursor moved on.
ghost use Rattle.node.specs.Lent.{columns_of};
ghost use Rattle.words.specs.Words.{rooms_of, rooms_in, Standing, PutAsks, PutTurn, Compares};

use crate::rooms::{has_entries, has_record, has_words, put_entries, put_record, put_words};
use node::cursor::Cursor;
use node::{Columns, Work, row};
use rules::Index;
use rules::layout::{ENTRY_WORDS, NODE_WORDS, RECORD_WORDS};

// The node's words, in the rooms.
// Stays: a struct of the three rooms is no plainer, since each contract would have to say of each field that it is the same loan still.
// And writing and checking are two functions, here and in the crate's root, as in `rooms`.
pub fn write_node(
    columns: Columns,
    cursor: Cursor,
    work: &mut Work,
    nodes: &mut [u32],
    entries: &mut [u32],
    bits: &mut [u32],
) -> Cursor
    requires { PutAsks (columns_of columns) cursor work.old (rooms_of nodes.old entries.old bits.old) }
    ensures { PutTurn (columns_of columns.entry) cursor work.old result work.new (rooms_of nodes.old entries.old bits.old) (rooms_of nodes.new entries.new bits.new) }
{
    let gathered = work.gather(columns, cursor);
    let served = work.above.serve(cursor, gathered.bits);
    let words = row(columns, &work.above, cursor, gathered.past, served);
    put_words(nodes, cursor.number.0 as usize * NODE_WORDS, &words);
    let entry = cursor.entries as usize * ENTRY_WORDS;
    put_entries(entries, entry, work, gathered.held);
    let record = cursor.records as usize * RECORD_WORDS;
    put_record(bits, record, served.own, gathered.bits);
    work.advance(columns, cursor, gathered, served)
}

// The cursor past the node, if the index has its words.
pub fn check_node(columns: Columns, cursor: Cursor, work: &mut Work, index: Index) -> Option<Cursor>
    requires { Standing (columns_of columns) cursor work.old }
    ensures { Compares (columns_of columns.entry) cursor work.old work.new (rooms_in index.entry) result }
{
    let gathered = work.gather(columns, cursor);
    let served = work.above.serve(cursor, gathered.bits);
    let words = row(columns, &work.above, cursor, gathered.past, served);
    if !has_words(index.nodes, cursor.number.0 as usize * NODE_WORDS, &words) {
        return None;
    }
    let entry = cursor.entries as usize * ENTRY_WORDS;
    if !has_entries(index.entries, entry, work, gathered.held) {
        return None;
    }
    let record = cursor.records as usize * RECORD_WORDS;
    if !has_record(index.bits, record, served.own, gathered.bits) {
        return None;
    }
    Some(work.advance(columns, cursor, gathered, served))
}
