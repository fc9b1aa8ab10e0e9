// Where a text's stands are listed: the entries of its node, one for each of the node's regions. The words may be anything.
// A question starts from a listing, and so it needs no nodes and no bits: a node's bits are read here and nowhere else.
ghost use Rattle.std.specs.Prelude.{◌≡◌};
ghost use Rattle.base.specs.Lent.{given};
ghost use Rattle.rules.specs.Names.{folded_text};
ghost use Rattle.walk.specs.Walks.{node_in};
ghost use Rattle.walk.specs.Listings.{listing_in, listing_at};

use crate::node_of;
use grid::cells::Cells;
use rules::layout::{FIRST_ENTRY, HIGH_REGIONS, LOW_REGIONS, NODE_WORDS, RECORD, RECORD_WORDS};
use rules::{Broken, Node};

// The regions that have an entry, and the number of the first entry.
#[derive(Clone, Copy)]
pub struct Listing {
    pub regions: Cells,
    pub first: u32,
}

// A text has no listing where no name begins so.
pub type Listed = Result<Option<Listing>, Broken>;

// Stays, here and below: nodes and bits alone. A whole set is no plainer, since of one nothing else is read here.
// A node's entries are those of the regions in its bit record.
#[tactic(auto, unfolding(crate::specs::Listings::listing_in))]
fn entries_of(nodes: &[u32], bits: &[u32], node: Node) -> Listed
    ensures { result ≡ listing_in (given nodes) (given bits) node.0 }
{
    let j = node.0 as usize;
    if nodes.len() / NODE_WORDS <= j {
        return Err(Broken);
    }
    let at = j * NODE_WORDS;
    let record = nodes[at + RECORD] as usize;
    if bits.len() / RECORD_WORDS <= record {
        return Err(Broken);
    }
    let regions = Cells {
        low: bits[record * RECORD_WORDS + LOW_REGIONS],
        high: bits[record * RECORD_WORDS + HIGH_REGIONS],
    };
    Ok(Some(Listing {
        regions,
        first: nodes[at + FIRST_ENTRY],
    }))
}

// The listing of where a walk came to.
pub fn listing_at(nodes: &[u32], bits: &[u32], at: Result<Option<Node>, Broken>) -> Listed
    ensures { result ≡ listing_at (given nodes) (given bits) at }
{
    match at? {
        Some(node) => entries_of(nodes, bits, node),
        None => Ok(None),
    }
}

// The listing of a typed text.
pub fn listing_of(nodes: &[u32], bits: &[u32], typed: &[u8]) -> Listed
    ensures { result ≡ listing_at (given nodes) (given bits) (node_in (given nodes) (folded_text (given typed))) }
{
    listing_at(nodes, bits, node_of(nodes, typed))
}
