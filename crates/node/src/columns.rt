// A file of its own, since a struct with a ghost field imports each `ghost use` beside it, and some of those of lib.rt are written with this
// struct.
ghost use Rattle.node.specs.Columns.{index_columns, LawfulColumns};

// The columns of a table, with a row for each stand: where its name begins in the text, how long the name is and how much of it the name
// before has too, its region and its score. They are lawful, so that no call asks for it.
#[derive(Clone, Copy)]
pub struct Columns<'a> {
    pub text: &'a [u8],
    pub starts: &'a [u32],
    pub lengths: &'a [u8],
    pub shared: &'a [u8],
    pub region: &'a [u8],
    pub score: &'a [u32],
    ghost lawful: { LawfulColumns (index_columns text.now starts.now lengths.now shared.now region.now score.now) },
}
