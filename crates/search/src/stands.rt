// Stands offered to the k best, one by one or all that stand at some places of the order.
ghost use Rattle.std.specs.Prelude.{◌≡◌, ◌≤◌, ◌<◌, length};
ghost use Rattle.std.proofs.Math.Seq.{slice};
ghost use Rattle.rules.specs.Tables.{place_in};
ghost use Rattle.search.specs.Searches.{columns_of, RunHeld, readable_stand, stand_offered, stands_offered, Keeps};

use crate::search::Search;
use best::Held;
use grid::worth::{length, way_between};
use rules::{Broken, OrderPlace, Place, Stand};

impl<'a> Search<'a> {
    fn place_of(&self, s: usize) -> Place
        requires { s < length self.now.east.now }
        ensures { result ≡ place_in self.now.east.now self.now.north.now s }
    {
        Place {
            east: self.east[s],
            north: self.north[s],
        }
    }

    // Whether a stand can be reckoned with: a number that a key has room for, a place of the grid, a score in its limits.
    #[tactic(auto, unfolding(crate::specs::Searches::readable_stand, base::specs::Lists::every))]
    fn readable(&self, s: usize) -> bool
        ensures { result ≡ readable_stand (columns_of self.now) self.now.grid s }
    {
        if Stand::MOST <= s {
            return false;
        }
        if self.east.len() <= s {
            return false;
        }
        if Stand::SCORE_MOST < self.score[s] {
            return false;
        }
        grid::holds(self.grid, self.place_of(s))
    }

    // One stand seen: of the keys held and its own the k largest stay.
    fn offer_stand(&self, stand: Stand, held: &mut Held) -> Result<(), Broken>
        requires { length held.old ≤ self.now.asked.k }
        ensures { Keeps (stand_offered (columns_of self.now) self.now.grid self.now.asked stand.0 held.old) self.now.asked.k held.new result }
    {
        let s = stand.0 as usize;
        if !self.readable(s) {
            return Err(Broken);
        }
        let way = way_between(self.place_of(s), self.asked.place);
        let score = self.score[s];
        let k = self.asked.k as usize;
        if let Some(last) = held.kth(k) {
            if self.late_by_leg(score, way, stand, last) {
                return Ok(());
            }
        }
        held.offer(k, self.key_at(score, length(way), stand));
        Ok(())
    }

    // Each stand from one place of the order on, short of another.
    pub(crate) fn offer_places(
        &self,
        first: OrderPlace,
        past: OrderPlace,
        held: &mut Held,
    ) -> Result<(), Broken>
        requires { length held.old ≤ self.now.asked.k × RunHeld self.now.order.now first.0 past.0 }
        ensures { Keeps (stands_offered (columns_of self.now) self.now.grid self.now.asked (slice first.0 past.0 self.now.order.now) held.old) self.now.asked.k held.new result }
    {
        for stand in &self.order[first.0 as usize..past.0 as usize] {
            self.offer_stand(Stand(*stand), held)?;
        }
        Ok(())
    }
}
