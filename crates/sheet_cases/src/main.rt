// `refusal_line`, `sheet` and a season's `summary` into a text one byte too short, just long enough and three bytes longer. The text is the front of 128 bytes
// full of noise. A line gives the case and the text's length; then the answer, the place up to which there are zeros after it, and the
// place up to which there is noise after these; then what was printed, a sheet or a report on lines of its own. Last a piece of no bytes for a season
// that is said to hold so many bytes in a room of so many: how many it holds then, or the refusal.
#![tactic(auto)]

use base::{Reason, Refusal};
use request_log::{Header, LOG_LIMIT};
use season::Season;
use std::io;
use std::io::Print;
use streams::Answer;

// Never zero nor ASCII, and another at each place.
fn noisy() -> [u8; 128] {
    let mut text = [0u8; 128];
    for b in 0..128u8 {
        text[usize::from(b)] = 128 + b;
    }
    text
}

// The place up to which a text is as another from here on.
fn same_up_to(text: &[u8; 128], other: &[u8; 128], from: usize) -> usize {
    for i in from..128 {
        if text[i] != other[i] {
            return i;
        }
    }
    from.max(128)
}

// What follows the first n bytes.
fn show_rest(rt: &impl Print, text: &[u8; 128], n: usize) -> io::Result<()> {
    let end = same_up_to(text, &[0; 128], n);
    let noise_end = same_up_to(text, &noisy(), end);
    print!(rt; ", zeros to {end}, noise to {noise_end}")
}

// What was printed, or the refusal, and what follows it.
fn show(
    rt: &impl Print,
    outcome: Result<u64, Refusal>,
    text: &[u8; 128],
    between: &str,
) -> io::Result<()> {
    let answer = Answer {
        word: "length",
        outcome,
    };
    print!(rt; ": {answer}")?;
    let n = outcome.unwrap_or(0) as usize;
    show_rest(rt, text, n)?;
    if outcome.is_err() {
        return println!(rt;);
    }
    rt.print(between)?;
    match text.get(..n) {
        Some(printed) => rt.write_all(printed),
        None => Ok(()),
    }
}

fn line_case(rt: &impl Print, refusal: Refusal, room: usize) -> io::Result<()> {
    let mut text = noisy();
    if 128 < room {
        return Ok(());
    }
    print!(rt;
        "refusal {} {} in {room}",
        refusal.reason.number(),
        refusal.place
    )?;
    let printed = text::refusal_line(refusal, &mut text[..room]);
    show(rt, printed, &text, ": ")
}

// A refusal's number and place, and one byte less than its line has.
const LINES: [(u8, u64, usize); 16] = [
    (0, 0, 23),
    (1, 0, 23),
    (1, u64::MAX, 42),
    (18, 0, 24),
    (18, 1, 24),
    (19, 1, 24),
    (19, u64::MAX, 43),
    (30, 0, 24),
    (30, 1, 24),
    (31, 0, 24),
    (31, u64::MAX, 43),
    (35, 1, 24),
    (35, u64::MAX, 43),
    (36, 0, 24),
    (36, 1, 24),
    (255, u64::MAX, 44),
];

fn line_cases(rt: &impl Print) -> io::Result<()> {
    for (number, place, short) in LINES {
        let refusal = Refusal {
            reason: Reason::from(number),
            place,
        };
        for more in [0, 1, 4] {
            line_case(rt, refusal, short.wrapping_add(more))?;
        }
    }
    Ok(())
}

fn sheet_case(rt: &impl Print, name: &str, log: &[u8], room: usize) -> io::Result<()> {
    let mut text = noisy();
    if 128 < room {
        return Ok(());
    }
    print!(rt; "{name} in {room}")?;
    let printed = report::sheet(log, &mut text[..room]);
    show(rt, printed, &text, "\n")
}

const HEADER: Header = Header {
    class: 0,
    server_count: 3,
    home: 0,
    id: *b"0123456789abcdef",
};

// The log of document 01's case C.
fn case_c() -> [u8; 64] {
    let mut log = [0u8; 64];
    let _ = writer::write(HEADER, &[1u32, 2, 11, 12], &[1u16, 2, 1, 0], &mut log);
    log
}

fn no_request() -> [u8; 40] {
    let mut log = [0u8; 40];
    let _ = writer::write(HEADER, &[], &[], &mut log);
    log
}

// The same log with the first request's second changed.
fn damaged(log: [u8; 64]) -> [u8; 64] {
    let mut next = log;
    next[40] = 9;
    next
}

fn sheet_cases(rt: &impl Print) -> io::Result<()> {
    let log = case_c();
    for room in [122, 123, 126] {
        sheet_case(rt, "case C", &log, room)?;
    }
    let other = damaged(log);
    for room in [122, 126] {
        sheet_case(rt, "case C damaged", &other, room)?;
    }
    let empty = no_request();
    for room in [56, 57, 60] {
        sheet_case(rt, "no request", &empty, room)?;
    }
    Ok(())
}

fn report_case(rt: &impl Print, room: usize) -> io::Result<()> {
    let mut text = noisy();
    if 128 < room {
        return Ok(());
    }
    print!(rt; "no logs in {room}")?;
    let printed = season::summary(season::begin(), &mut text[..room]);
    show(rt, printed, &text, "\n")
}

fn feed_case(rt: &impl Print, held: u64, length: usize) -> io::Result<()> {
    let mut room = [0u8; LOG_LIMIT];
    if LOG_LIMIT < length {
        return Ok(());
    }
    print!(rt; "held {held} in {length}")?;
    let season = Season {
        tally: season::begin(),
        held,
    };
    let fed = season::feed(season, &mut room[..length], &[]);
    let answer = Answer {
        word: "holds",
        outcome: fed.verdict.map(|_| fed.season.held),
    };
    println!(rt; ": {answer}")
}

// Bytes that are said to be held, and a room's length.
const PIECES: [(u64, usize); 6] = [
    (12327, 12328),
    (12328, 12328),
    (12328, 12327),
    (0, 12327),
    (0, 12328),
    (0, 12329),
];

fn main(rt: HostRuntime) -> io::Result<()> {
    line_cases(&rt)?;
    sheet_cases(&rt)?;
    for room in [28, 29, 32] {
        report_case(&rt, room)?;
    }
    for (held, length) in PIECES {
        feed_case(&rt, held, length)?;
    }
    Ok(())
}
