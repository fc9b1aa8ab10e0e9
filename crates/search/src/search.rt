// What a search goes by, the same at each of its steps.
ghost use Rattle.search.specs.Asked.{Ready, Level};

use rules::{Grid, Ranking};

// Columns of one length, so that a stand's number is held against it once; the order; the question, with the grid's diagonal reckoned.
#[derive(Clone, Copy)]
pub(crate) struct Search<'a> {
    pub(crate) east: &'a [i32],
    pub(crate) north: &'a [i32],
    pub(crate) score: &'a [u32],
    pub(crate) order: &'a [u32],
    pub(crate) grid: Grid,
    pub(crate) diagonal: u32,
    pub(crate) asked: Ranking,
    ghost ready: { Ready grid diagonal asked },
    ghost level: { Level east.now north.now score.now },
}
