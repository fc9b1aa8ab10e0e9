// From a text to its node, by the nodes' words. The words may be anything: a walk always ends and reads nothing outside them.
// Where they are what building writes, the node found is the text's. `listing` goes on to the node's entries, `entry` reads one.
#![tactic(auto)]

ghost use Rattle.std.specs.Prelude.{◌≡◌};
ghost use Rattle.base.specs.Lent.{given};
ghost use Rattle.rules.specs.Names.{folded, folded_text};
ghost use Rattle.walk.specs.Walks.{child_in, node_in};

use rules::layout::{LAST_BYTE, NODE_WORDS, PAST_NODE};
use rules::{Broken, Node};
use table::names::{folded, plain};

pub mod entry;
pub mod listing;

// The child of a node with this last byte, if there is one. A node's first child comes right after it, and the next one past that one's
// subtree.
pub fn child_of(nodes: &[u32], above: Node, byte: u8) -> Result<Option<Node>, Broken>
    ensures { result ≡ child_in (given nodes) above.0 byte }
{
    let all = nodes.len() / NODE_WORDS;
    let p = above.0 as usize;
    if all <= p {
        return Err(Broken);
    }
    let past = nodes[p * NODE_WORDS + PAST_NODE] as usize;
    if all < past {
        return Err(Broken);
    }
    let wanted = byte as u32;
    let mut c = p + 1;
    // Stays: a `for` is no plainer, since each step goes to where the sibling's word says.
    while c < past {
        if nodes[c * NODE_WORDS + LAST_BYTE] == wanted {
            return Ok(Some(Node(c as u32)));
        }
        let next = nodes[c * NODE_WORDS + PAST_NODE] as usize;
        if next <= c {
            return Err(Broken);
        }
        c = next;
    }
    Ok(None)
}

// The child by a typed byte.
fn child_typed(nodes: &[u32], above: Node, byte: u8) -> Result<Option<Node>, Broken>
    ensures { result ≡ child_in (given nodes) above.0 (folded byte) }
{
    if plain(byte) {
        return child_of(nodes, above, byte);
    }
    let letter = folded(byte);
    child_of(nodes, above, letter)
}

// The node of a typed text, from the root letter by letter, if a name begins so.
#[tactic(auto, unfolding(crate::specs::Walks::node_from))]
pub fn node_of(nodes: &[u32], typed: &[u8]) -> Result<Option<Node>, Broken>
    ensures { result ≡ node_in (given nodes) (folded_text (given typed)) }
{
    let mut at = Node(0);
    for byte in typed {
        let Some(below) = child_typed(nodes, at, *byte)? else {
            return Ok(None);
        };
        at = below;
    }
    Ok(Some(at))
}
