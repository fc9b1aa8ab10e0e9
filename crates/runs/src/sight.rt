// Where the stands are that a question about a rectangle looks at: in the order by their region's run, on the map by their number.
ghost use Rattle.std.specs.Prelude.{◌≡◌, ◌<◌};
ghost use Rattle.runs.specs.Sights.{sighted, entry_noted, run_seen, run_of, run_found, run_told};
ghost use Rattle.runs.specs.Runs.{easts, norths, noted};

use crate::Runs;
use rules::{Broken, Place, Stand};
use walk::entry::entry_at;

impl<'a> Runs<'a> {
    // A region's run, as the entry says that is noted for it. One that ends before it begins has no stands.
    pub fn run_of(self, region: u32) -> Result<&'a [u32], Broken>
        requires { region < 64 }
        ensures told { run_found result ≡ run_told (noted self.entry) (entry_noted (noted self.entry) region) }
        ensures seen { run_seen (noted self.entry) result ≡ run_of (noted self.entry) region }
    {
        let order = self.order;
        let number = self.numbers[region as usize] as usize;
        let entry = entry_at(
            self.entries,
            self.touched.first as usize + number,
            self.east.len(),
        )?;
        let past = entry.past.0 as usize;
        let first = (entry.first.0 as usize).min(past);
        Ok(&order[first..past])
    }

    // Where a stand is that the order has. It may be any number, as the order's words may.
    #[tactic(auto, unfolding(crate::specs::Sights::sighted))]
    pub fn sight(self, stand: Stand) -> Result<Place, Broken>
        ensures { result ≡ sighted (easts self.entry) (norths self.entry) stand.0 }
    {
        let s = stand.0 as usize;
        if self.east.len() <= s {
            return Err(Broken);
        }
        Ok(Place {
            east: self.east[s],
            north: self.north[s],
        })
    }
}
