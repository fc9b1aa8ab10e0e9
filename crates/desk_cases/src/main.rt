// The desk program's answers on inputs that are not of its form, on inputs that the finder refuses, and at the limits.
// Each answer stands behind the name of its case; what is printed is held to the file stdout.
#![tactic(auto)]

use desk_answer::{BITS_ROOM, ENTRIES_ROOM, NODES_ROOM, ORDER_ROOM, OUTPUT_MOST, Rooms, answer};
use desk_form::{Parts, Reading};
use lines::put;
use std::io;

// One byte more than an input may have.
const INPUT_ROOM: usize = Reading::BYTES_MOST + 1;

// The answer to the first so many bytes.
// Stays: fixed memory. The rooms are made here as in the desk program, since what hands them out has some 90 KB on the stack twice.
fn print_answer(rt: &impl Print, room: &[u8], count: usize) -> io::Result<()> {
    if room.len() < count {
        return Ok(());
    }
    let mut parts = Parts {
        text: [0; Reading::BYTES_MOST],
        starts: [0; Reading::STARTS_ROOM],
        east: [0; Reading::STANDS_ROOM],
        north: [0; Reading::STANDS_ROOM],
        score: [0; Reading::STANDS_ROOM],
    };
    let mut rooms = Rooms {
        order: [0; ORDER_ROOM],
        nodes: [0; NODES_ROOM],
        entries: [0; ENTRIES_ROOM],
        bits: [0; BITS_ROOM],
    };
    let mut out = [0u8; OUTPUT_MOST];
    let length = answer(&room[..count], &mut parts, &mut rooms, &mut out);
    rt.write_all(&out[..length])
}

// Puts bytes behind those before `at`, if there is room.
fn put_if_room(input: &mut [u8], at: usize, bytes: &[u8]) -> usize {
    if input.len() < at || input.len() - at < bytes.len() {
        return at;
    }
    put(input, at, bytes)
}

// The input is a head, some lines so many times, and a tail.
fn print_case(
    rt: &impl Print,
    name: &[u8],
    head: &[u8],
    lines: &[u8],
    times: usize,
    tail: &[u8],
) -> io::Result<()> {
    let mut input = [0u8; INPUT_ROOM];
    let mut at = put_if_room(&mut input, 0, head);
    for _ in 0..times {
        at = put_if_room(&mut input, at, lines);
    }
    at = put_if_room(&mut input, at, tail);
    rt.write_all(name)?;
    rt.write_all(b"\n")?;
    print_answer(rt, &input, at)
}

// An input with each of these lines in its place; the line names the case.
fn print_lines(rt: &impl Print, before: &[u8], lines: &[&[u8]], after: &[u8]) -> io::Result<()> {
    for line in lines {
        print_case(rt, line, before, line, 1, after)?;
    }
    Ok(())
}

fn print_west(rt: &impl Print, lines: &[&[u8]]) -> io::Result<()> {
    print_lines(
        rt,
        b"",
        lines,
        b"\nsouth=0\ncell=10\nstands=0\ntext=\neast=5\nnorth=5\nweight=8\nk=2\n",
    )
}

fn print_cell(rt: &impl Print, lines: &[&[u8]]) -> io::Result<()> {
    print_lines(
        rt,
        b"west=0\nsouth=0\n",
        lines,
        b"\nstands=0\ntext=\neast=5\nnorth=5\nweight=8\nk=2\n",
    )
}

// One stand follows.
fn print_stands(rt: &impl Print, lines: &[&[u8]]) -> io::Result<()> {
    print_lines(
        rt,
        b"west=0\nsouth=0\ncell=10\n",
        lines,
        b"\nname=kibo\neast=5\nnorth=5\nscore=100\ntext=\neast=5\nnorth=5\nweight=8\nk=2\n",
    )
}

fn print_east(rt: &impl Print, lines: &[&[u8]]) -> io::Result<()> {
    print_lines(
        rt,
        b"west=0\nsouth=0\ncell=10\nstands=1\nname=kibo\n",
        lines,
        b"\nnorth=5\nscore=100\ntext=ki\neast=5\nnorth=5\nweight=8\nk=2\n",
    )
}

fn print_score(rt: &impl Print, lines: &[&[u8]]) -> io::Result<()> {
    print_lines(
        rt,
        b"west=0\nsouth=0\ncell=10\nstands=1\nname=kibo\neast=5\nnorth=5\n",
        lines,
        b"\ntext=ki\neast=5\nnorth=5\nweight=16\nk=2\n",
    )
}

// Numbers, as they are written.
fn print_numbers(rt: &impl Print) -> io::Result<()> {
    print_west(
        rt,
        &[
            b"west=-0", b"west=00", b"west=+1", b"west=-", b"west=", b"west=0 ", b"West=0",
        ],
    )
}

// And their ranges, then the grid's.
fn print_grids(rt: &impl Print) -> io::Result<()> {
    print_west(
        rt,
        &[
            b"west=2147483648",
            b"west=-2147483649",
            b"west=2147483647",
            b"west=-1000001",
            b"west=-1000000",
            b"west=-1",
        ],
    )?;
    print_cell(
        rt,
        &[
            b"cell=65536",
            b"cell=65535",
            b"cell=8193",
            b"cell=8192",
            b"cell=0",
        ],
    )
}

// The first of two stands; the other one's name is kito.
fn print_names(rt: &impl Print) -> io::Result<()> {
    print_lines(
        rt,
        b"west=0\nsouth=0\ncell=10\nstands=2\n",
        &[
            b"name=",
            b"name=Kibo",
            b"name=name=kibo",
            b"name=kiaaaaaaaaaaaaaaaaaaaaaaa",
            b"name=kiaaaaaaaaaaaaaaaaaaaaaa",
            b"name=kito a",
            b"name=kito",
        ],
        b"\neast=5\nnorth=5\nscore=100\nname=kito\neast=9\nnorth=9\nscore=400\ntext=ki\neast=5\nnorth=5\nweight=8\nk=2\n",
    )
}

fn print_columns(rt: &impl Print) -> io::Result<()> {
    print_stands(rt, &[b"stands=0", b"stands=2", b"stands=1"])?;
    print_east(rt, &[b"east=80", b"east=-1", b"east=79"])?;
    print_score(rt, &[b"score=1001", b"score=1000"])
}

// A question on a stand. A typed text may have capitals, and a name may not.
fn print_texts(rt: &impl Print) -> io::Result<()> {
    print_lines(
        rt,
        b"west=0\nsouth=0\ncell=10\nstands=1\nname=kibo\neast=5\nnorth=5\nscore=100\n",
        &[
            b"text=Ki",
            b"text=k@",
            b"text=k[",
            b"text=k!",
            b"text=aaaaaaaaaaaaaaaaaaaaaaaa!",
            b"text=aaaaaaaaaaaaaaaaaaaaaaaa",
            b"text=",
        ],
        b"\neast=5\nnorth=5\nweight=8\nk=2\n",
    )
}

// The question's last lines.
fn print_questions(rt: &impl Print) -> io::Result<()> {
    print_lines(
        rt,
        b"west=0\nsouth=0\ncell=10\nstands=1\nname=kibo\neast=5\nnorth=5\nscore=100\ntext=ki\n",
        &[
            b"east=80\nnorth=79\nweight=8\nk=2",
            b"east=79\nnorth=79\nweight=0\nk=16",
            b"east=5\nnorth=5\nweight=17\nk=2",
            b"east=5\nnorth=5\nweight=8\nk=0",
            b"east=5\nnorth=5\nweight=8\nk=17",
            b"east=5\nnorth=5\nweight=8\nk=02",
            b"east=5\nnorth=5\nweight=8\nk=2\nk=2",
            b"north=5\neast=5\nweight=8\nk=2",
        ],
        b"\n",
    )
}

// Inputs that two refusals fit.
fn print_firsts(rt: &impl Print) -> io::Result<()> {
    print_case(
        rt,
        b"2 before 9",
        b"west=0\nsouth=0\ncell=0\nstands=0\ntext=",
        b"a",
        25,
        b"\neast=5\nnorth=5\nweight=8\nk=2\n",
    )?;
    print_case(
        rt,
        b"9 before 8",
        b"west=0\nsouth=0\ncell=10\nstands=0\ntext=",
        b"!",
        25,
        b"\neast=5\nnorth=5\nweight=8\nk=2\n",
    )?;
    print_case(
        rt,
        b"8 before 12",
        b"west=0\nsouth=0\ncell=10\nstands=0\ntext=",
        b"!",
        1,
        b"\neast=5\nnorth=5\nweight=8\nk=0\n",
    )?;
    print_case(
        rt,
        b"14, for want of the last line feed, before 2",
        b"west=0\nsouth=0\ncell=0\nstands=0\ntext=",
        b"a",
        1,
        b"\neast=5\nnorth=5\nweight=8\nk=2",
    )
}

// How many bytes there may be: of 16,384 all but 65 are the text's.
fn print_bytes(rt: &impl Print) -> io::Result<()> {
    print_case(rt, b"no byte", b"", b"", 0, b"")?;
    print_case(rt, b"bytes that are no line", b"\x00\xff", b"\x80", 3, b"")?;
    print_case(
        rt,
        b"16384 bytes",
        b"west=0\nsouth=0\ncell=1\nstands=0\ntext=",
        b"a",
        16_319,
        b"\neast=0\nnorth=0\nweight=0\nk=1\n",
    )?;
    print_case(
        rt,
        b"16385 bytes",
        b"west=0\nsouth=0\ncell=1\nstands=0\ntext=",
        b"a",
        16_320,
        b"\neast=0\nnorth=0\nweight=0\nk=1\n",
    )
}

// And how many stands.
fn print_tables(rt: &impl Print) -> io::Result<()> {
    print_case(
        rt,
        b"64 stands",
        b"west=0\nsouth=0\ncell=1\nstands=64\n",
        b"name=a\neast=7\nnorth=7\nscore=1000\n",
        64,
        b"text=a\neast=0\nnorth=0\nweight=1\nk=16\n",
    )?;
    print_case(
        rt,
        b"65 stands",
        b"west=0\nsouth=0\ncell=1\nstands=65\n",
        b"name=a\neast=7\nnorth=7\nscore=1000\n",
        65,
        b"text=a\neast=0\nnorth=0\nweight=1\nk=16\n",
    )
}

fn main(rt: HostRuntime) -> io::Result<()> {
    print_numbers(&rt)?;
    print_grids(&rt)?;
    print_names(&rt)?;
    print_columns(&rt)?;
    print_texts(&rt)?;
    print_questions(&rt)?;
    print_firsts(&rt)?;
    print_bytes(&rt)?;
    print_tables(&rt)
}
