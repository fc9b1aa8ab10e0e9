// What a question about a rectangle has to look at: the stands of the regions that a text's listing and the rectangle share, region by region.
// `met` finds them, `notes` has the entry of each such region, which says where its stands are in the order, and `sight` where a stand is on the map.
// No stand is reached but through the listing.
#![tactic(auto)]

ghost use Rattle.std.specs.Prelude.{◌≡◌};
ghost use Rattle.base.specs.Lent.{given};
ghost use Rattle.runs.specs.Notes.{blank};
ghost use Rattle.runs.specs.Sights.{noted_in, Ready, agreed, look_by, listed_look, look_at};

pub mod met;
pub mod notes;
pub mod sight;

use grid::cells::cells_of;
use notes::{EntryNumbers, note};
use rules::{Broken, Grid, Rect, Refusal, Stand};
use walk::listing::{Listed, Listing};

// The runs of the regions that a rectangle touches, where `agree` does not refuse the set. Only what a scan of them reads is handed on.
#[derive(Clone, Copy)]
pub struct Runs<'a> {
    pub east: &'a [i32],
    pub north: &'a [i32],
    pub order: &'a [u32],
    pub entries: &'a [u32],
    // The regions, and the number of the first entry of the text's listing.
    pub touched: Listing,
    pub numbers: &'a EntryNumbers,
    ghost ready: { Ready east.now north.now (noted_in east.now order.now entries.now touched.first numbers.now) },
}

// Whether there is a place for each stand, and a place in the order.
#[tactic(auto, unfolding(crate::specs::Sights::agree, base::specs::Lists::every))]
fn agree(east: &[i32], north: &[i32], order: &[u32]) -> Result<(), Broken>
    ensures { result ≡ agreed (given east) (given north) (given order) }
{
    let stands = east.len();
    if Stand::MOST < stands {
        return Err(Broken);
    }
    if north.len() < stands {
        return Err(Broken);
    }
    if order.len() < stands {
        return Err(Broken);
    }
    Ok(())
}

// Those of some listed regions that the rectangle touches, with the number of the listing's first entry, if there are any. Where it touches
// none of them no entry is read.
#[tactic(auto, unfolding(crate::specs::Sights::listed_look))]
fn touched_of(
    grid: Grid,
    entries: &[u32],
    listing: Listing,
    rect: Rect,
    numbers: &mut EntryNumbers,
) -> Result<Option<Listing>, Refusal>
    requires { numbers.old ≡ blank }
    ensures { look_by result numbers.new ≡ listed_look grid (given entries) listing.regions listing.first rect }
{
    if !grid::lawful(grid) {
        return Err(Refusal::NotLawful);
    }
    let regions = listing.regions.both(cells_of(grid, rect));
    if regions.is_empty() {
        return Ok(None);
    }
    let first = listing.first;
    note(entries, first, listing.regions.count(), numbers)?;
    Ok(Some(Listing { regions, first }))
}

// The regions of a text's listing that a rectangle touches.
fn touched_regions(
    grid: Grid,
    entries: &[u32],
    at: Listed,
    rect: Rect,
    numbers: &mut EntryNumbers,
) -> Result<Option<Listing>, Refusal>
    requires { numbers.old ≡ blank }
    ensures { look_by result numbers.new ≡ look_at grid (given entries) at rect }
{
    if !grid::rect_lawful(rect) {
        return Err(Refusal::RectReversed);
    }
    match at? {
        Some(listing) => touched_of(grid, entries, listing, rect, numbers),
        None => Ok(None),
    }
}
