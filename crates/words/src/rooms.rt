// Words put into a lent room, and compared with one: any words, a node's bit record, and its entries out of the slots of its regions.
// Stays: one function for putting and comparing is no plainer, since putting asks for room and cannot fail, and comparing asks for none and
// can: each caller would have to say which it is.
ghost use Rattle.std.specs.Prelude.{◌≡◌, ◌+◌, ◌*◌, ◌≤◌, ◌<◌, length, drop};
ghost use Rattle.base.specs.Lists.{begins};
ghost use Rattle.rules.specs.Indexes.{entry_row};
ghost use Rattle.node.specs.Columns.{entry_from};
ghost use Rattle.words.specs.Over.{over};
ghost use Rattle.words.specs.Words.{entry_rows, entries_held, kept_words, HeldAsks};

use node::Work;
use node::records::halves;
use rules::layout::ENTRY_WORDS;

// Words from a place of the room on; and whether it has them there.
pub fn put_words(room: &mut [u32], at: usize, words: &[u32])
    requires { at + length words.now ≤ length room.old }
    ensures { room.new ≡ over room.old at words.now }
{
    // Stays: tried and slower: by copy_from_slice building at 1,024 stands takes 1,148,662 instructions, and 1,122,848 so.
    for (i, word) in words.iter().enumerate() {
        room[at + i] = *word;
    }
}

pub fn has_words(room: &[u32], at: usize, words: &[u32]) -> bool
    ensures { result ≡ begins words.now (drop at room.now) }
{
    room[at.min(room.len())..].starts_with(words)
}

// The record of a node with these regions, from a place of the room on, if it keeps its own; and whether the room has it there.
pub fn put_record(room: &mut [u32], at: usize, own: bool, bits: u64)
    requires { at + length (kept_words own bits) ≤ length room.old }
    ensures { room.new ≡ over room.old at (kept_words own bits) }
{
    if own {
        put_words(room, at, &halves(bits));
    }
}

pub fn has_record(room: &[u32], at: usize, own: bool, bits: u64) -> bool
    ensures { result ≡ begins (kept_words own bits) (drop at room.now) }
{
    !own || has_words(room, at, &halves(bits))
}

// A region's entry, in the order of rules::layout: the region, its largest score, its first place and the place past its last.
fn entry_row(region: u32, work: &Work) -> [u32; ENTRY_WORDS]
    requires { region < 64 }
    ensures { result ≡ entry_row (entry_from work.now.best work.now.next work.now.places region) }
{
    let slot = region as usize;
    [region, work.best[slot], work.next[slot], work.places[slot]]
}

// The entries of the first held ranked regions, from a place of the room on.
pub fn put_entries(room: &mut [u32], at: usize, work: &Work, held: usize)
    requires { (HeldAsks work.now.ranked held) × (at + held * 4 ≤ length room.old) }
    ensures { room.new ≡ over room.old at (entry_rows (entries_held work.now held)) }
{
    for (rank, region) in work.ranked[..held].iter().enumerate() {
        let row = entry_row(*region, work);
        put_words(room, at + rank * ENTRY_WORDS, &row);
    }
}

// Whether the room has them there.
pub fn has_entries(room: &[u32], at: usize, work: &Work, held: usize) -> bool
    requires { (HeldAsks work.now.ranked held) × (at < 4294967000) }
    ensures { result ≡ begins (entry_rows (entries_held work.now held)) (drop at room.now) }
{
    for (rank, region) in work.ranked[..held].iter().enumerate() {
        let row = entry_row(*region, work);
        if !has_words(room, at + rank * ENTRY_WORDS, &row) {
            return false;
        }
    }
    true
}
