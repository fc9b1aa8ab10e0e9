// Names as parts of a table's text: where a name lies, how it compares, and what is left of it after a typed text.
// The byte rule stands here, and how a typed byte is read; a name is never folded.
// Nothing is asked of text and starts: a stand whose starts are broken has the empty name at the text's start.
ghost use Rattle.std.specs.Prelude.{◌≡◌, ◌≤◌, ◌<◌, eqb, length, get_or, true};
ghost use Rattle.base.specs.Lent.{given};
ghost use Rattle.base.specs.Lists.{all, begins, shared_length};
ghost use Rattle.rules.specs.Names.{allowed, folded, folded_text, name_allowed, in_order, name};
ghost use Rattle.table.specs.Parts.{Spans, RestSpans, Rest};

use rules::Stand;

// A part of the text: where it begins, and past its end.
// Stays: no Range, since the library's is not copied.
#[derive(Clone, Copy)]
pub struct Span {
    pub from: usize,
    pub past: usize,
}

// Whether a byte is a to z, 0 to 9 or space.
#[tactic(auto, using(rules::proofs::Bytes::space, rules::proofs::Bytes::digit, rules::proofs::Bytes::letter, rules::proofs::Bytes::below, rules::proofs::Bytes::between, rules::proofs::Bytes::above))]
pub fn allowed(b: u8) -> bool
    ensures { result ≡ allowed b }
{
    match b {
        b'a'..=b'z' => true,
        b'0'..=b'9' | b' ' => true,
        _ => false,
    }
}

// A typed byte as it is read: a capital as its small letter.
pub fn folded(b: u8) -> u8
    ensures { result ≡ folded b }
{
    b.to_ascii_lowercase()
}

// Whether a byte is known to be no capital by one bit: every allowed byte has the bit 32, and no capital has it. So a small letter costs
// no fold.
pub fn plain(b: u8) -> bool
    ensures { result ≡ true → b ≡ folded b }
{
    b / 32 % 2 == 1
}

pub fn bytes_allowed(bytes: &[u8]) -> bool
    ensures { result ≡ all allowed (given bytes) }
{
    bytes.iter().all(|byte| allowed(*byte))
}

pub fn name_allowed(name: &[u8]) -> bool
    ensures { result ≡ name_allowed (given name) }
{
    if name.len() < 1 {
        return false;
    }
    if Stand::NAME_MOST < name.len() {
        return false;
    }
    bytes_allowed(name)
}

// How many bytes a and b have in common from their beginnings on.
pub fn shared(a: &[u8], b: &[u8]) -> usize
    ensures { result ≡ shared_length (given a) (given b) }
{
    let most = a.len().min(b.len());
    for i in 0..most {
        if a[i] != b[i] {
            return i;
        }
    }
    most
}

// Whether the letter of a name at i is the typed one, as that is read. The two ways spare a small letter the fold. Each returns: of an
// answered comparison the compiler makes two conditional moves, and folds all the same.
fn same_letter(name: &[u8], typed: &[u8], i: usize) -> bool
    requires { (i < length typed.now) × (i < length name.now) }
    ensures { result ≡ eqb (folded (get_or (given typed) i 0)) (get_or (given name) i 0) }
{
    let byte = typed[i];
    if plain(byte) {
        if byte != name[i] {
            return false;
        }
    } else if folded(byte) != name[i] {
        return false;
    }
    true
}

// Whether a name, or as much of one as was typed, begins with a typed text. The first letter goes alone, so that a name that differs there
// is told at once; the others go by twos, which makes up for what reading a letter costs.
// Stays: tried and slower: as one chain, `all` over the letters, the rest of a name behind 24 of them took 418 instructions, with each way
// of a letter returning 266, and 211 so.
fn begins(name: &[u8], typed: &[u8]) -> bool
    requires { length typed.now ≤ length name.now }
    ensures { result ≡ begins (folded_text (given typed)) (given name) }
{
    if typed.len() == 0 {
        return true;
    }
    if !same_letter(name, typed, 0) {
        return false;
    }
    let mut i = 1;
    if typed.len() % 2 == 0 {
        if !same_letter(name, typed, 1) {
            return false;
        }
        i = 2;
    }
    while i < typed.len() {
        if !same_letter(name, typed, i) {
            return false;
        }
        if !same_letter(name, typed, i + 1) {
            return false;
        }
        i += 2;
    }
    true
}

// Whether name a may stand before name b: byte order, the shorter first, equal ones either way.
pub fn in_order(a: &[u8], b: &[u8]) -> bool
    ensures { result ≡ in_order (given a) (given b) }
{
    // Stays: tried as `a <= b`, the library's order of slices, which looks at each byte twice: building 1,024 stands took 5 in 100 more.
    let at = shared(a, b);
    if at == a.len() {
        true
    } else if at == b.len() {
        false
    } else {
        a[at] < b[at]
    }
}

// Stays, here and below: text and starts alone, since the C interface lends them so for the rest of a name.
// Where a stand's name lies.
fn name_span(text: &[u8], starts: &[u32], stand: Stand) -> Span
    ensures { Spans (given text) (given starts) stand.0 result }
{
    let i = stand.0 as usize;
    if starts.len() <= i + 1 {
        return Span { from: 0, past: 0 };
    }
    let from = starts[i] as usize;
    let past = starts[i + 1] as usize;
    if past < from || text.len() < past {
        return Span { from: 0, past: 0 };
    }
    Span { from, past }
}

// A stand's name, as a part of the text.
pub fn name_of<'a>(text: &'a [u8], starts: &[u32], stand: Stand) -> &'a [u8]
    ensures { result.now ≡ name (given text) (given starts) stand.0 }
{
    let Span { from, past } = name_span(text, starts, stand);
    &text[from..past]
}

// Where the rest of a stand's name after a typed text lies; where the name doesn't begin so, the empty part at the text's start.
pub fn rest_span(text: &[u8], starts: &[u32], stand: Stand, typed: &[u8]) -> Span
    ensures { RestSpans (given text) (given starts) stand.0 (given typed) result }
{
    let Span { from: start, past } = name_span(text, starts, stand);
    let from = start + typed.len();
    if past < from {
        return Span { from: 0, past: 0 };
    }
    if begins(&text[start..from], typed) {
        return Span { from, past };
    }
    Span { from: 0, past: 0 }
}

// What is left of a stand's name after a typed text, for showing a hit. Bytes and place are promised, so that no caller has to look
// the part up in the text again.
pub fn rest_of_name<'a>(text: &'a [u8], starts: &[u32], stand: Stand, typed: &[u8]) -> &'a [u8]
    ensures { Rest (given text) (given starts) stand.0 (given typed) text.entry.ref_ptr result.now result.ref_ptr }
{
    let Span { from, past } = rest_span(text, starts, stand, typed);
    &text[from..past]
}
