// The questions on the letters of a session. Its path has the letters' node, so nothing is walked from the root.
// On a lawful set and session the outcome is that of the same text given afresh; on any other it is harmless.
// Stays: a question for a text and one for a session. A trait for the two would be no plainer, since they share all but two lines already,
// and each promises by its own ground of lawfulness.
#![tactic(auto)]

ghost use Rattle.std.specs.Prelude.{◌≡◌};
ghost use Rattle.rules.specs.Numbers.{verdict_number, any_numbers};
ghost use Rattle.rules.specs.Tables.{lent_table};
ghost use Rattle.rules.specs.Outcomes.{room_in, rooms_in, range_came_in, ranked_came_in};
ghost use Rattle.rules.specs.Indexes.{lent_index};
ghost use Rattle.rules.specs.Promises.{TypedRangePromise, TypedAnyPromise, TypedRankedPromise};
ghost use Rattle.letters.specs.Letters.{letters_refusal};

use any::any_from;
use range::range_from;
use ranked::ranked_from;
use rules::{RangeRefusal, Ranking, Rect, Refusal, Session, Set, Stand};
use session::reached;
use table::text::text_verdict;
use walk::listing::listing_at;

// A session is refused 7 for a length that none has, else as its letters are.
#[tactic(auto, unfolding(crate::specs::Letters::letters_refusal))]
fn letters_verdict(session: Session) -> Result<(), Refusal>
    ensures { verdict_number result ≡ letters_refusal session }
{
    let len = session.len as usize;
    if Stand::NAME_MOST < len {
        return Err(Refusal::NotLawful);
    }
    text_verdict(&session.text[..len])
}

// The stands whose name begins with the session's letters and which are in a rectangle, by region and then by number.
pub fn range_typed(
    set: Set,
    session: Session,
    rect: Rect,
    found: &mut [u32],
) -> Result<u32, RangeRefusal>
    ensures { TypedRangePromise (lent_table set.entry.table) set.entry.grid (lent_index set.entry.index) session rect (room_in found) (range_came_in result found) }
{
    letters_verdict(session)?;
    let at = listing_at(set.index.nodes, set.index.bits, reached(session));
    range_from(set, at, rect, found)
}

// Whether any stand whose name begins with the session's letters is in a rectangle; with yes comes the first stand of that range.
pub fn any_typed(set: Set, session: Session, rect: Rect) -> Result<Option<Stand>, Refusal>
    ensures { TypedAnyPromise (lent_table set.entry.table) set.entry.grid (lent_index set.entry.index) session rect (any_numbers result) }
{
    letters_verdict(session)?;
    let at = listing_at(set.index.nodes, set.index.bits, reached(session));
    any_from(set, at, rect)
}

// The best k stands whose name begins with the session's letters, best first, each with its value.
pub fn ranked_typed(
    set: Set,
    session: Session,
    asked: Ranking,
    found: &mut [u32],
    values: &mut [u64],
) -> Result<u32, Refusal>
    ensures { TypedRankedPromise (lent_table set.entry.table) set.entry.grid (lent_index set.entry.index) session asked (rooms_in found values) (ranked_came_in result found values) }
{
    letters_verdict(session)?;
    let at = listing_at(set.index.nodes, set.index.bits, reached(session));
    ranked_from(set, at, asked, found, values)
}
