// How both questions about a rectangle begin: with the runs that there are to look at. They differ in what they make of the stands there.
ghost use Rattle.std.specs.Prelude.{◌≡◌};
ghost use Rattle.rules.specs.Tables.{lent_table};
ghost use Rattle.rules.specs.Indexes.{lent_index};
ghost use Rattle.runs.specs.Notes.{blank};
ghost use Rattle.runs.specs.Runs.{met_by, met_at};

use crate::notes::EntryNumbers;
use crate::{Runs, agree, touched_regions};
use rules::{Index, Rect, Refusal, Set, Table};
use walk::listing::Listed;

// The runs of the regions that a text's listing and a rectangle share, if there are any. The caller holds the room for what is noted, and the
// runs are lent it. Inlined, as a set that is handed on is laid out in memory anew.
#[inline(always)]
pub fn runs_met<'a>(
    set: Set<'a>,
    at: Listed,
    rect: Rect,
    numbers: &'a mut EntryNumbers,
) -> Result<Option<Runs<'a>>, Refusal>
    requires { numbers.old ≡ blank }
    ensures { met_by result ≡ met_at (lent_table set.entry.table) set.entry.grid (lent_index set.entry.index) at rect }
{
    let Table { east, north, .. } = set.table;
    let Index { order, entries, .. } = set.index;
    let Some(touched) = touched_regions(set.grid, entries, at, rect, numbers)? else {
        return Ok(None);
    };
    agree(east, north, order)?;
    Ok(Some(Runs {
        east,
        north,
        order,
        entries,
        touched,
        numbers,
    }))
}
