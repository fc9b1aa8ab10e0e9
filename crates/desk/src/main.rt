// The desk program: a scheme and a question on standard input, the best stands or a refusal on standard output.
// What is printed is settled in desk_answer; here stand its rooms, all zero at the start, one read and one write.
#![tactic(auto)]

ghost use Rattle.std.specs.Prelude.{◌≤◌, IfOk, length};

use desk_answer::{BITS_ROOM, ENTRIES_ROOM, ORDER_ROOM, OUTPUT_MOST, Rooms, answer};
use desk_form::{Parts, Reading};
use std::io;
use std::io::Read;

// One byte more than an input may have, so that a longer one is known by its length.
const INPUT_ROOM: usize = Reading::BYTES_MOST + 1;

// Reads until the room is full or the input ends, and answers how many bytes were read.
fn read_full(reader: &mut impl Read, room: &mut [u8]) -> io::Result<usize>
    ensures { IfOk result (λ n. n ≤ length room.new) }
{
    // Stays: no heap. read_to_end wants one, and read_exact takes no input that is shorter than the room.
    let mut done = 0;
    while done < room.len() {
        let count = reader.read(&mut room[done..])?;
        if count == 0 {
            break;
        }
        done += count;
    }
    Ok(done)
}

fn main(rt: HostRuntime) -> io::Result<()> {
    let mut input = [0u8; INPUT_ROOM];
    let mut parts = Parts {
        text: [0; Reading::BYTES_MOST],
        starts: [0; Reading::STARTS_ROOM],
        east: [0; Reading::STANDS_ROOM],
        north: [0; Reading::STANDS_ROOM],
        score: [0; Reading::STANDS_ROOM],
    };
    let mut rooms = Rooms {
        order: [0; ORDER_ROOM],
        nodes: [0; 12_296],
        entries: [0; ENTRIES_ROOM],
        bits: [0; BITS_ROOM],
    };
    let mut out = [0u8; OUTPUT_MOST];
    let count = read_full(&mut rt.stdin(), &mut input)?;
    let length = answer(&input[..count], &mut parts, &mut rooms, &mut out);
    rt.write_all(&out[..length])
}
