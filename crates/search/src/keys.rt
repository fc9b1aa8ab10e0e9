// The key of a stand at the end of a way, and which stands come too late by one leg of it.
ghost use Rattle.std.specs.Prelude.{◌≡◌, ltb};
ghost use Rattle.grid.specs.Ways.{longer_leg, way_length};
ghost use Rattle.best.specs.Keys.{key_of};
ghost use Rattle.search.specs.Searches.{Keyable, hit_at};

use crate::search::Search;
use best::key_of;
use grid::worth::{Way, longer_leg, value_at};
use rules::Stand;

impl<'a> Search<'a> {
    // Of a stand with this score, so many metres away.
    pub(crate) fn key_at(&self, score: u32, metres: u32, stand: Stand) -> u64
        requires { Keyable self.now.diagonal self.now.asked score metres stand.0 }
        ensures { result ≡ key_of (hit_at self.now.diagonal self.now.asked score metres stand.0) }
    {
        let value = value_at(self.diagonal, self.asked.weight, score, metres);
        key_of(u64::from(value), stand)
    }

    // Whether the last of k held goes before the stand, were it no further than the longer leg of its way.
    // Most that come too late are told so, and their way's root is never taken.
    pub(crate) fn late_by_leg(&self, score: u32, way: Way, stand: Stand, last: u64) -> bool
        requires { Keyable self.now.diagonal self.now.asked score (way_length way) stand.0 }
        ensures { result ≡ ltb (key_of (hit_at self.now.diagonal self.now.asked score (longer_leg way) stand.0)) last }
    {
        self.key_at(score, longer_leg(way), stand) < last
    }
}
