// The finder: every call that users make and every type that these take, by one name.
// specs/Runs says what any sequence of calls on one session comes to.
#![tactic(auto)]

pub use any::any;
pub use grid::locate;
pub use index::{build, check};
pub use letters::{any_typed, range_typed, ranked_typed};
pub use range::range;
pub use ranked::ranked;
pub use rules::{
    Grid, Index, Place, RangeRefusal, Ranking, Rect, Refusal, Session, Set, Sizes, Stand, Table,
};
pub use session::{rub_out, type_byte};
pub use table::names::rest_of_name;
