// Each refusal of the log's calls, met just past its boundary, and the case on the right side of it. A line gives the case, then
// the refusal's number and place, or `taken` and the number of requests or bytes. Cases stand in tables, one loop over each.
#![tactic(auto)]

use base::Refusal;
use prices::built_in;
use request_log::Header;
use std::io::Print;
use std::{fmt, io};
use streams::Answer;

// The end of a line: a number of requests or bytes, or the refusal.
fn print_answer(rt: &impl Print, outcome: Result<u64, Refusal>) -> io::Result<()> {
    let answer = Answer {
        word: "taken",
        outcome,
    };
    println!(rt; " {answer}")
}

fn read_case(
    rt: &impl Print,
    name: &str,
    log: &[u8],
    seconds: &mut [u32],
    servers: &mut [u16],
) -> io::Result<()> {
    rt.print(name)?;
    let outcome = request_log::read(log, seconds, servers).outcome;
    print_answer(rt, outcome.map(u64::from))
}

// A log read into lists that are long enough.
fn show(rt: &impl Print, name: &str, log: &[u8]) -> io::Result<()> {
    let mut seconds = [7u32; 2048];
    let mut servers = [7u16; 2048];
    read_case(rt, name, log, &mut seconds, &mut servers)
}

// The first n bytes of a log.
fn show_part(rt: &impl Print, name: &str, log: &[u8], n: usize) -> io::Result<()> {
    match log.get(..n) {
        Some(part) => show(rt, name, part),
        None => Ok(()),
    }
}

fn header(class: u8, server_count: u8, home: u8) -> Header {
    Header {
        class,
        server_count,
        home,
        id: *b"0123456789abcdef",
    }
}

// A log of two requests: 5 at 1, `second` at 0; 2 servers, home 0, class 0.
fn sample(second: u32) -> [u8; 52] {
    let mut log = [0u8; 52];
    let _ = writer::write(header(0, 2, 0), &[5u32, second], &[1u16, 0], &mut log);
    log
}

// The same log with one byte changed.
fn altered(log: [u8; 52], at: usize, b: u8) -> [u8; 52] {
    let mut next = log;
    if at < next.len() {
        next[at] = b;
    }
    next
}

// The same log with one byte changed, and its sum made to fit.
fn changed(log: [u8; 52], at: usize, b: u8) -> [u8; 52] {
    let mut next = altered(log, at, b);
    let sum = checksum::sum(&next);
    base::bytes::copy(&mut next, 20, &base::bytes::le_bytes32(sum));
    next
}

// Bytes of the sample, and the value that each is set to: version, class, server count, home, byte 5, offsets and total, then the
// server and second of both requests.
const BYTES: [(usize, u8); 21] = [
    (0, 2),
    (1, 1),
    (2, 7),
    (2, 8),
    (3, 0),
    (3, 64),
    (3, 65),
    (4, 1),
    (4, 2),
    (5, 1),
    (8, 41),
    (12, 25),
    (16, 53),
    (50, 1),
    (50, 2),
    (45, 1),
    (40, 0),
    (46, 5),
    (46, 6),
    (46, 4),
    (46, 8),
];

fn byte_cases(rt: &impl Print) -> io::Result<()> {
    let log = sample(8);
    for (at, b) in BYTES {
        print!(rt; "byte {at} set to {b}")?;
        show(rt, ":", &changed(log, at, b))?;
    }
    Ok(())
}

// 7, 9, 10, and 12 at its upper end; 11 before 12, and request 1 before request 2.
fn other_cases(rt: &impl Print) -> io::Result<()> {
    let log = sample(8);
    show(
        rt,
        "2,049 requests announced:",
        &changed(changed(log, 6, 1), 7, 8),
    )?;
    show(rt, "a byte of the id changed:", &altered(log, 30, 1))?;
    show(rt, "a byte of the sum changed:", &altered(log, 20, 1))?;
    show(rt, "second 4,000,000:", &sample(4000000))?;
    show(rt, "second 4,000,001:", &changed(sample(4000000), 46, 1))?;
    show(
        rt,
        "server and second of request 1:",
        &changed(changed(log, 44, 2), 40, 0),
    )?;
    show(
        rt,
        "server of request 2, second of request 1:",
        &changed(changed(log, 50, 2), 40, 0),
    )
}

// The first 39, 51 and 52 bytes of a log of 52, and of one byte more.
fn length_cases(rt: &impl Print, log: [u8; 52]) -> io::Result<()> {
    let mut next = [0u8; 53];
    base::bytes::copy(&mut next, 0, &log);
    show_part(rt, "39 bytes:", &next, 39)?;
    show_part(rt, "one byte less:", &next, 51)?;
    show_part(rt, "as many bytes:", &next, 52)?;
    show_part(rt, "one byte more:", &next, 53)
}

// Room for i seconds and j servers.
fn room_case(rt: &impl Print, log: [u8; 52], i: usize, j: usize) -> io::Result<()> {
    let mut seconds = [7u32; 2];
    let mut servers = [7u16; 2];
    print!(rt; "room for {i} {j}")?;
    if 2 < i || 2 < j {
        return Ok(());
    }
    read_case(rt, ":", &log, &mut seconds[..i], &mut servers[..j])
}

fn room_cases(rt: &impl Print) -> io::Result<()> {
    let log = sample(8);
    room_case(rt, log, 1, 2)?;
    room_case(rt, log, 2, 1)?;
    room_case(rt, log, 2, 2)?;
    room_case(rt, changed(log, 2, 8), 1, 1)
}

// What the writer is handed; so many of both servers are given, and so many bytes of room.
#[derive(Clone, Copy)]
struct Write {
    class: u8,
    server_count: u8,
    home: u8,
    seconds: [u32; 2],
    servers: [u16; 2],
    given: usize,
    room: usize,
}

impl fmt::Display for Write {
    fn fmt<W: fmt::Write>(&self, f: &mut fmt::Formatter<W>) -> fmt::Result {
        write!(
            f,
            "write {} {} {}",
            self.class, self.server_count, self.home
        )?;
        write!(f, " {} {}", self.seconds[0], self.seconds[1])?;
        write!(f, " {} {}", self.servers[0], self.servers[1])?;
        write!(f, " {} {}", self.given, self.room)
    }
}

// One that is taken, of class 0.
const TAKEN: Write = Write {
    class: 0,
    server_count: 2,
    home: 0,
    seconds: [5, 8],
    servers: [1, 0],
    given: 2,
    room: 60,
};

const WRITES: [Write; 24] = [
    Write { class: 6, ..TAKEN },
    Write { class: 7, ..TAKEN },
    Write { class: 8, ..TAKEN },
    Write {
        class: 7,
        server_count: 0,
        ..TAKEN
    },
    Write {
        class: 7,
        server_count: 65,
        ..TAKEN
    },
    Write {
        class: 7,
        home: 2,
        ..TAKEN
    },
    Write {
        class: 7,
        given: 1,
        ..TAKEN
    },
    Write {
        class: 7,
        seconds: [0, 8],
        ..TAKEN
    },
    Write {
        class: 7,
        room: 51,
        ..TAKEN
    },
    Write {
        server_count: 0,
        ..TAKEN
    },
    Write {
        server_count: 64,
        servers: [1, 63],
        ..TAKEN
    },
    Write {
        server_count: 65,
        ..TAKEN
    },
    Write { home: 1, ..TAKEN },
    Write { home: 2, ..TAKEN },
    Write {
        seconds: [0, 8],
        given: 1,
        ..TAKEN
    },
    Write {
        servers: [1, 2],
        ..TAKEN
    },
    Write {
        server_count: 64,
        servers: [1, 65535],
        ..TAKEN
    },
    Write {
        seconds: [0, 8],
        ..TAKEN
    },
    Write {
        seconds: [5, 4000000],
        ..TAKEN
    },
    Write {
        seconds: [5, 4000001],
        ..TAKEN
    },
    Write {
        seconds: [8, 8],
        ..TAKEN
    },
    Write {
        seconds: [8, 7],
        ..TAKEN
    },
    Write { room: 51, ..TAKEN },
    Write { room: 52, ..TAKEN },
];

fn write_case(rt: &impl Print, case: Write) -> io::Result<()> {
    let mut log = [9u8; 60];
    if 2 < case.given || 60 < case.room {
        return Ok(());
    }
    print!(rt; "{case}:")?;
    let outcome = writer::write(
        header(case.class, case.server_count, case.home),
        &case.seconds,
        &case.servers[..case.given],
        &mut log[..case.room],
    );
    print_answer(rt, outcome)
}

// Class 7 of a price file that says the built-in table; and the log, which is then one of class 7 of the built-in table.
fn loaded_case(rt: &impl Print) -> io::Result<()> {
    let mut log = [9u8; 52];
    let prices = built_in();
    let outcome = writer::write_with(&prices, header(7, 2, 0), &[5u32, 8], &[1u16, 0], &mut log);
    print!(rt; "class 7 by a price file:")?;
    print_answer(rt, outcome)?;
    show(rt, "its log without the file:", &log)
}

// 1, 2, .., one each second.
fn count_up() -> [u32; 2049] {
    let mut seconds = [0u32; 2049];
    for t in 0..2049u32 {
        seconds[t as usize] = t + 1;
    }
    seconds
}

// A log of n requests, each at server 0.
fn long_case(rt: &impl Print, n: usize) -> io::Result<()> {
    let seconds = count_up();
    let servers = [0u16; 2049];
    let mut log = [9u8; 12334];
    if 2049 < n {
        return Ok(());
    }
    print!(rt; "a log of one server:")?;
    let outcome = writer::write(header(0, 1, 0), &seconds[..n], &servers[..n], &mut log);
    print_answer(rt, outcome)?;
    show_part(rt, "its first 12,328 bytes:", &log, 12328)?;
    show_part(rt, "its first 40 bytes:", &log, 40)
}

fn main(rt: HostRuntime) -> io::Result<()> {
    byte_cases(&rt)?;
    other_cases(&rt)?;
    length_cases(&rt, sample(8))?;
    room_cases(&rt)?;
    for case in WRITES {
        write_case(&rt, case)?;
    }
    loaded_case(&rt)?;
    long_case(&rt, 0)?;
    long_case(&rt, 2048)?;
    long_case(&rt, 2049)
}
