// Each refusal of the checker, met just past its boundary, and the case on the right side of it. Cases stand in tables, one loop over
// all. A line gives the log, the rows' numbers, then the refusal's number and place, or `cost` and the cost.
#![tactic(auto)]

use request_log::Header;
use std::io;
use std::io::Print;
use streams::Answer;

const HEADER: Header = Header {
    class: 0,
    server_count: 2,
    home: 0,
    id: *b"0123456789abcdef",
};

// The seconds and servers of a log's requests. All of 2 servers, home 0, class 0.
const LOGS: [(&[u32], &[u16]); 4] = [(&[2, 5], &[1, 0]), (&[3], &[0]), (&[5], &[1]), (&[], &[])];

// The log, and the rows' numbers.
const CASES: [(usize, &[u32]); 31] = [
    (0, &[0, 0, 0, 5, 1, 0, 1, 2]),
    (0, &[]),
    (0, &[0, 0, 0, 5, 1, 0, 1]),
    (0, &[0, 0, 0, 5, 1, 0, 1, 2, 9]),
    (0, &[0, 0, 0, 5, 2, 0, 1, 2]),
    (0, &[0, 2, 0, 5, 1, 0, 1, 2]),
    (0, &[0, 0, 5, 5, 1, 0, 1, 2]),
    (0, &[0, 0, 0, 6, 1, 0, 1, 2]),
    (0, &[0, 0, 0, 5, 1, 2, 1, 2]),
    (0, &[0, 0, 0, 5, 1, 0, 2, 2]),
    (0, &[0, 0, 0, 5, 1, 0, 0, 2]),
    (0, &[0, 0, 0, 5, 1, 0, 1, 2, 1, 0, 1, 5]),
    (0, &[0, 0, 0, 5, 1, 0, 1, 2, 1, 0, 1, 6]),
    (0, &[0, 0, 0, 2, 0, 0, 2, 5, 1, 0, 1, 2]),
    (0, &[0, 0, 0, 2, 0, 0, 3, 5, 1, 0, 1, 2]),
    (0, &[0, 0, 0, 5, 0, 0, 0, 5, 1, 0, 1, 2]),
    (0, &[0, 1, 2, 4, 0, 0, 0, 5, 1, 0, 1, 2]),
    (0, &[0, 0, 0, 5, 0, 1, 2, 4, 1, 0, 1, 2]),
    (0, &[0, 0, 0, 5, 1, 0, 1, 2, 1, 0, 1, 2]),
    (0, &[0, 0, 0, 5, 1, 0, 1, 2, 0, 1, 2, 4]),
    (0, &[0, 0, 0, 5, 1, 0, 1, 2, 1, 1, 0, 2]),
    (0, &[0, 0, 0, 5, 1, 1, 0, 2, 1, 0, 1, 2]),
    (0, &[0, 1, 1, 4, 1, 0, 1, 2]),
    (0, &[0, 0, 0, 5, 1, 1, 0, 2]),
    (0, &[0, 0, 0, 5, 1, 0, 1, 1]),
    (0, &[0, 0, 0, 4, 1, 0, 1, 2]),
    (1, &[0, 0, 2, 3, 0, 1, 1, 2, 1, 1, 0, 2]),
    (2, &[0, 1, 0, 5, 1, 0, 1, 0]),
    (3, &[]),
    (3, &[1, 0, 1, 0]),
    (3, &[1, 0, 1]),
];

// Log i: its bytes, and how many.
fn written(i: usize) -> ([u8; 52], usize) {
    let mut log = [0u8; 52];
    let Some((seconds, servers)) = LOGS.get(i) else {
        return (log, 0);
    };
    let length = writer::write(HEADER, seconds, servers, &mut log).unwrap_or(0);
    (log, length as usize)
}

fn show(rt: &impl Print, i: usize, rows: &[u32]) -> io::Result<()> {
    print!(rt; "log {i} rows")?;
    for x in rows {
        print!(rt; " {x}")?;
    }
    let (log, length) = written(i);
    let Some(bytes) = log.get(..length) else {
        return Ok(());
    };
    let answer = Answer {
        word: "cost",
        outcome: checker::check(bytes, rows),
    };
    println!(rt; ": {answer}")
}

fn main(rt: HostRuntime) -> io::Result<()> {
    for (i, rows) in CASES {
        show(&rt, i, rows)?;
    }
    Ok(())
}
