// The listed entries in their order, each passed over or taken.
// Stays, here and in `stands`: k beside what is held. A field for it is no plainer, since each contract would have to say that it is still
// the k that was asked for.
// An entry is passed over if k are held and even a stand with its bound and its first number would come after the last of them.
ghost use Rattle.std.specs.Prelude.{◌≡◌, ◌≤◌, true, length};
ghost use Rattle.base.specs.Lent.{given};
ghost use Rattle.walk.specs.Entries.{entry_within};
ghost use Rattle.best.specs.Keys.{key_of};
ghost use Rattle.search.specs.Searches.{columns_of, usable, MayTake, bound_hit, passed_over, entry_taken, listed_on, Keeps};

use crate::search::Search;
use best::Held;
use grid::worth::{length, way_to_region};
use rules::{Broken, Stand};
use walk::entry::{Entry, entry_at};
use walk::listing::Listing;

impl<'a> Search<'a> {
    // Whether an entry can be gone by: a score in its limits, some place, a first stand that a key has room for.
    #[tactic(auto, unfolding(crate::specs::Searches::usable, base::specs::Lists::every), using(walk::proofs::Spelled::within_facts))]
    fn usable(&self, entry: Entry) -> bool
        requires { entry_within (length self.now.order.now) entry ≡ true }
        ensures { result ≡ usable self.now.order.now entry }
    {
        if Stand::SCORE_MOST < entry.score {
            return false;
        }
        if entry.past.0 <= entry.first.0 {
            return false;
        }
        (self.order[entry.first.0 as usize] as usize) < Stand::MOST
    }

    // Whether k are held and the last of them goes before every stand of the entry: before one with the entry's bound for its value
    // and the entry's first number. The bound is not reckoned before k are held.
    fn passed_over(&self, entry: Entry, held: &Held) -> bool
        requires { MayTake self.now.order.now entry }
        ensures { result ≡ passed_over self.now.asked.k held.now (key_of (bound_hit self.now.grid self.now.asked self.now.order.now entry)) }
    {
        let Some(last) = held.kth(self.asked.k as usize) else {
            return false;
        };
        let way = way_to_region(self.grid, entry.region, self.asked.place);
        let first = Stand(self.order[entry.first.0 as usize]);
        if self.late_by_leg(entry.score, way, first, last) {
            return true;
        }
        self.key_at(entry.score, length(way), first) < last
    }

    // One entry: passed over, or its stands offered.
    fn take_entry(&self, entry: Entry, held: &mut Held) -> Result<(), Broken>
        requires { length held.old ≤ self.now.asked.k × MayTake self.now.order.now entry }
        ensures { Keeps (entry_taken (columns_of self.now) self.now.grid self.now.asked self.now.order.now entry held.old) self.now.asked.k held.new result }
    {
        if self.passed_over(entry, held) {
            return Ok(());
        }
        self.offer_places(entry.first, entry.past, held)
    }

    // Each entry of a listing: one for each of its regions.
    pub(crate) fn take_entries(
        &self,
        entries: &[u32],
        listing: Listing,
        held: &mut Held,
    ) -> Result<(), Broken>
        requires { length held.old ≤ self.now.asked.k }
        ensures { Keeps (listed_on (columns_of self.now) self.now.grid self.now.asked self.now.order.now (given entries) listing held.old) self.now.asked.k held.new result }
    {
        let from = listing.first as usize;
        for number in from..from + listing.regions.count() as usize {
            let entry = entry_at(entries, number, self.order.len())?;
            if !self.usable(entry) {
                return Err(Broken);
            }
            self.take_entry(entry, held)?;
        }
        Ok(())
    }
}
