// Keystrokes: a letter typed or rubbed out, in the one session record that a caller lends or by value; and where its letters came to.
// Nothing is asked of session and nodes: on any words a keystroke ends, reads nothing outside them, and a refused one alters nothing.
#![tactic(auto)]

ghost use Rattle.std.specs.Prelude.{◌≡◌, ◌≤◌, ◌<◌, IfOk};
ghost use Rattle.base.specs.Lent.{given};
ghost use Rattle.rules.specs.Names.{folded};
ghost use Rattle.session.specs.Promises.{TypePromise, RubPromise};
ghost use Rattle.session.specs.Strokes.{Struck, lost, next_on, led_on, typed_on, rubbed_out, reached};

use rules::{Broken, Node, Refusal, Session, Stand};
use table::names::{allowed, folded};
use walk::child_of;

// What a keystroke by value comes to: whether it is taken, and the session after it, which is the old one where it is not.
// Stays: a verdict beside a session, since a caller by value has the session after a refusal, too.
#[derive(Clone, Copy)]
pub struct Stroke {
    pub verdict: Result<(), Refusal>,
    pub session: Session,
}

// Whether the letters led nowhere, by the word of the path past them. The root is node 0 too, so a 0 says so only past some letters.
#[tactic(auto, unfolding(crate::specs::Strokes::lost))]
fn lost(letters: usize, last: u32) -> bool
    ensures { result ≡ lost letters last }
{
    if letters == 0 {
        return false;
    }
    last == 0
}

// Where one more letter leads from the node of the letters so far; from nowhere none leads on.
#[tactic(auto, unfolding(crate::specs::Strokes::next_on))]
fn next(nodes: &[u32], letters: usize, last: Node, byte: u8) -> Result<Option<Node>, Broken>
    ensures { result ≡ next_on (given nodes) letters last.0 byte }
{
    if lost(letters, last.0) {
        return Ok(None);
    }
    child_of(nodes, last, byte)
}

// Whether a letter is taken behind so many, and the node that it leads to, 0 for none. It is taken where it leads nowhere too.
// Stays: 0 and no Option, since this is the word for the session's path, which the C interface has so.
#[tactic(auto, unfolding(crate::specs::Strokes::led_on))]
fn leads(nodes: &[u32], letters: usize, last: Node, byte: u8) -> Result<u32, Refusal>
    requires { letters ≤ 24 }
    ensures node { result ≡ led_on (given nodes) letters last.0 byte }
    ensures room { IfOk result (λ _. letters < 24) }
{
    if letters == Stand::NAME_MOST {
        return Err(Refusal::TextTooLong);
    }
    if !allowed(byte) {
        return Err(Refusal::TextByteNotAllowed);
    }
    match next(nodes, letters, last, byte)? {
        Some(node) => Ok(node.0),
        None => Ok(0),
    }
}

// A letter typed into the session that is lent: one look among the children of the last letter's node, however long the text.
// A refusal leaves the session as it was. It is changed in place: handed back in a Result it would be copied once more.
pub fn type_byte(nodes: &[u32], session: &mut Session, byte: u8) -> Result<(), Refusal>
    ensures step { Struck (typed_on (given nodes) session.old (folded byte)) session.old session.new result }
    ensures promise { TypePromise (given nodes) byte session.old session.new result }
{
    let len = session.len as usize;
    if Stand::NAME_MOST < len {
        return Err(Refusal::NotLawful);
    }
    let letter = folded(byte);
    let last = Node(session.path[len]);
    let node = leads(nodes, len, last, letter)?;
    session.text[len] = letter;
    session.path[len + 1] = node;
    session.len += 1;
    Ok(())
}

// The last letter of the session that is lent, rubbed out. Its places are 0 again, as behind any text.
#[tactic(auto, unfolding(crate::specs::Strokes::rubbed_out, crate::specs::Strokes::shortened))]
pub fn rub_out(session: &mut Session) -> Result<(), Refusal>
    ensures step { Struck (rubbed_out session.old) session.old session.new result }
    ensures promise { RubPromise session.old session.new result }
{
    let len = session.len as usize;
    if Stand::NAME_MOST < len {
        return Err(Refusal::NotLawful);
    }
    if len == 0 {
        return Err(Refusal::NothingToRubOut);
    }
    session.text[len - 1] = 0;
    session.path[len] = 0;
    session.len -= 1;
    Ok(())
}

// A letter typed, by value: for a caller who keeps the session of before.
pub fn with_letter(nodes: &[u32], session: Session, byte: u8) -> Stroke
    ensures { Struck (typed_on (given nodes) session (folded byte)) session result.session result.verdict }
{
    let mut longer = session;
    let verdict = type_byte(nodes, &mut longer, byte);
    Stroke {
        verdict,
        session: longer,
    }
}

// The last letter rubbed out, by value.
pub fn rubbed_out(session: Session) -> Stroke
    ensures { Struck (rubbed_out session) session result.session result.verdict }
{
    let mut shorter = session;
    let verdict = rub_out(&mut shorter);
    Stroke {
        verdict,
        session: shorter,
    }
}

// Where the session's letters came to. Its path says so: nothing is walked.
#[tactic(auto, unfolding(crate::specs::Strokes::reached))]
pub fn reached(session: Session) -> Result<Option<Node>, Broken>
    ensures { result ≡ reached session }
{
    let len = session.len as usize;
    if Stand::NAME_MOST < len {
        return Err(Broken);
    }
    let node = session.path[len];
    if lost(len, node) {
        return Ok(None);
    }
    Ok(Some(Node(node)))
}
