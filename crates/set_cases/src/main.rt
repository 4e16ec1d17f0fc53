// The member of a set nearest to a number, beside a search through all 64 servers: some sets, every set of servers 0 to 7, and drawn words.
// A line of a set gives its word, the number and the member; the other lines count how many were asked for and how many agree.
#![tactic(auto)]

use base::sets::{has, nearest};
use std::io::Print;
use std::{fmt, io};

// The nearest member, the first of two, by a look at each server; 0 of an empty set.
fn searched(w: u64, t: u16) -> u16 {
    (0..64u16)
        .filter(|y| has(w, *y))
        .min_by_key(|y| y.abs_diff(t))
        .unwrap_or(0)
}

// How many members were asked for, and how many of both searches agree.
#[derive(Clone, Copy)]
struct Tally {
    asked: u64,
    agree: u64,
}

impl Tally {
    const NONE: Tally = Tally { asked: 0, agree: 0 };

    // One more, of a word and a number.
    fn ask(self, w: u64, t: u16) -> Tally {
        let agrees = nearest(w, t) == u32::from(searched(w, t));
        Tally {
            asked: self.asked.wrapping_add(1),
            agree: self.agree.wrapping_add(u64::from(agrees)),
        }
    }

    // A word, with every number up to 65, and with the largest.
    fn ask_all(self, w: u64) -> Tally {
        let mut tally = self;
        for t in 0..66u16 {
            tally = tally.ask(w, t);
        }
        tally.ask(w, u16::MAX)
    }
}

impl fmt::Display for Tally {
    fn fmt<W: fmt::Write>(&self, f: &mut fmt::Formatter<W>) -> fmt::Result {
        write!(f, "{} agree {}", self.asked, self.agree)
    }
}

fn every_small(rt: &impl Print) -> io::Result<()> {
    let mut tally = Tally::NONE;
    for w in 0..256u64 {
        tally = tally.ask_all(w);
    }
    println!(rt; "sets of servers 0 to 7: {tally}")
}

// The next word of a fixed sequence.
fn drawn(x: u64) -> u64 {
    let y = x ^ x << 13;
    let z = y ^ y >> 7;
    z ^ z << 17
}

// Members that are also in the next n words of the sequence: the larger n, the fewer.
fn thinned(x: u64, n: u32) -> u64 {
    let mut w = x;
    let mut y = x;
    for _ in 0..n {
        y = drawn(y);
        w &= y;
    }
    w
}

fn every_drawn(rt: &impl Print) -> io::Result<()> {
    let mut tally = Tally::NONE;
    let mut x: u64 = 88172645463325252;
    for i in 0..600u32 {
        x = drawn(x);
        tally = tally.ask_all(thinned(x, i % 6));
    }
    println!(rt; "drawn sets of 64 servers: {tally}")
}

// A word and a number: none; the number itself; both sides, equally far and not; one side alone; the ends of a word; numbers past it.
const CASES: [(u64, u16); 12] = [
    (0, 3),
    (4, 2),
    (20, 3),
    (18, 2),
    (36, 4),
    (3, 5),
    (48, 1),
    (9223372036854775809, 31),
    (9223372036854775809, 32),
    (9223372036854775809, 63),
    (9223372036854775808, 64),
    (5, 65535),
];

fn main(rt: HostRuntime) -> io::Result<()> {
    for (w, t) in CASES {
        println!(rt; "nearest {w} {t}: {}", nearest(w, t))?;
    }
    every_small(&rt)?;
    every_drawn(&rt)
}
