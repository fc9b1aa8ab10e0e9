// Which entry of a listing is of each region. The entries stand by their scores, and a rectangle is gone through by regions.
// The words may be anything.
ghost use Rattle.std.specs.Prelude.{◌≡◌, ◌≤◌};
ghost use Rattle.base.specs.Lent.{given};
ghost use Rattle.runs.specs.Notes.{notes_by, notes_in};

use rules::layout::{ENTRY_WORDS, REGION};
use rules::{Broken, Grid};

// For each region the number of its entry, counted from the listing's first.
pub type EntryNumbers = [u8; Grid::REGIONS];

// The numbers of count entries, each noted at its region. Broken, if one is missing or has no region.
#[tactic(auto, unfolding(crate::specs::Notes::notes_in, crate::specs::Notes::note_from))]
pub(crate) fn note(
    entries: &[u32],
    first: u32,
    count: u32,
    numbers: &mut EntryNumbers,
) -> Result<(), Broken>
    requires { count ≤ 64 }
    ensures { notes_by result numbers.new ≡ notes_in (given entries) first count numbers.old }
{
    let from = first as usize;
    let most = count as usize;
    if entries.len() / ENTRY_WORDS < from + most {
        return Err(Broken);
    }
    for i in 0..most {
        let region = entries[(from + i) * ENTRY_WORDS + REGION] as usize;
        if Grid::REGIONS <= region {
            return Err(Broken);
        }
        numbers[region] = i as u8;
    }
    Ok(())
}
