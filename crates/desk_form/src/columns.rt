// The stands, laid out as the parts of a table: the names one after the other, where each begins, and a column for each number.
ghost use Rattle.base.specs.Lent.{given};
ghost use Rattle.desk_form.specs.Columns.{parts_table};
ghost use Rattle.desk_form.specs.Says.{RoomFor, SaysStands};

use crate::Parts;
use crate::group::{StandRead, read_stand};
use lines::put;

// How many bytes the names have, and where the lines behind the stands begin.
pub fn read_stands(
    input: &[u8],
    at: usize,
    stands: usize,
    parts: &mut Parts,
) -> Option<(usize, usize)>
    requires { RoomFor input.now at stands }
    ensures { SaysStands (given input) at stands (parts_table parts.old) (parts_table parts.new) result }
{
    parts.starts[0] = 0;
    let mut bytes = 0;
    let mut next = at;
    for i in 0..stands {
        let (stand, behind) = read_stand(input, next).ok()?;
        let StandRead {
            name,
            east,
            north,
            score,
        } = stand;
        bytes = put(&mut parts.text, bytes, &input[name.from..name.past]);
        parts.starts[i + 1] = bytes as u32;
        parts.east[i] = east;
        parts.north[i] = north;
        parts.score[i] = score;
        next = behind;
    }
    Some((bytes, next))
}
