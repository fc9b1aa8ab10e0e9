// What is printed, put as lines into the room for it. Each call answers where the next line goes.
ghost use Rattle.std.specs.Prelude.{◌≡◌, ◌+◌, ◌≤◌, length};
ghost use Rattle.base.specs.Lent.{given};
ghost use Rattle.rules.specs.Numbers.{refusal_number};
ghost use Rattle.rules.specs.Names.{name};
ghost use Rattle.lines.specs.Puts.{Puts};
ghost use Rattle.desk_form.specs.Printed.{printed_refusal};
ghost use Rattle.desk_answer.specs.Printing.{found_lines, NamesListed, PutsHit};

use crate::OUTPUT_MOST;
use finder::{Refusal, Stand, Table};
use lines::{put_line, put_number};
use table::names::name_of;

// A refusal is one line.
pub fn put_refusal(out: &mut [u8; OUTPUT_MOST], why: Refusal) -> usize
    ensures { Puts (printed_refusal (refusal_number why)) out.old 0 out.new result }
{
    put_number(out, 0, b"refused=", u64::from(u32::from(why)))
}

// A hit's three lines: stand number, name and value.
fn put_hit(out: &mut [u8; OUTPUT_MOST], at: usize, table: Table, stand: Stand, value: u64) -> usize
    requires { (at + 96 ≤ 2048) × (length (name table.text.now table.starts.now stand.0) ≤ 24) }
    ensures { PutsHit table.entry.text.now table.entry.starts.now stand.0 value out.old at out.new result }
{
    let name = name_of(table.text, table.starts, stand);
    let at = put_number(out, at, b"object=", u64::from(stand.0));
    let at = put_line(out, at, b"name=", name);
    put_number(out, at, b"value=", value)
}

// How many hits there are, then each.
pub fn put_hits(out: &mut [u8; OUTPUT_MOST], table: Table, found: &[u32], values: &[u64]) -> usize
    requires names { NamesListed table.text.now table.starts.now found.now }
    requires each_valued { length values.now ≡ length found.now }
    ensures { Puts (found_lines table.entry.text.now table.entry.starts.now (given found) (given values)) out.old 0 out.new result }
{
    let mut at = put_number(out, 0, b"found=", found.len() as u64);
    for (stand, value) in found.iter().zip(values) {
        at = put_hit(out, at, table, Stand(*stand), *value);
    }
    at
}
