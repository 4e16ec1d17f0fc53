// The season: a tally of logs that come end to end in pieces of any size, and its report (02's Req 12).
#![tactic(auto)]

mod bills;
mod feeding;
mod lines;
mod steps;

use base::Verdict;
pub use feeding::{feed, finish};
pub use lines::summary;
use request_log::LOG_ROOM;
pub use steps::{begin, step};

// The log with the largest ratio of running to least cost: its place in the input from 1, and both costs; the place is 0 where there is none.
#[derive(Clone, Copy, Debug, PartialEq, Eq)]
pub struct Worst {
    pub place: u64,
    pub running: u32,
    pub least: u32,
}

// How many logs were met, accepted, and refused by each number; the totals of least and running cost over the accepted ones; the worst of
// them; and whether the report has ended.
#[derive(Clone, Copy, Debug, PartialEq, Eq)]
pub struct Tally {
    pub logs: u64,
    pub accepted: u64,
    pub refused: [u64; NUMBERS],
    pub least: u64,
    pub running: u64,
    pub worst: Worst,
    pub over: bool,
}

// The tally of the logs so far, and how many bytes of the next log are held in the room that is lent with it.
#[derive(Clone, Copy, Debug, PartialEq, Eq)]
pub struct Season {
    pub tally: Tally,
    pub held: u64,
}

// The season after a piece, or as it was where the piece was refused.
#[derive(Clone, Copy, Debug, PartialEq, Eq)]
pub struct Fed {
    pub season: Season,
    pub verdict: Verdict,
}

// So many logs are looked at.
pub const MOST_LOGS: u64 = 4096;

// No report goes on after so many bytes: the logs that are looked at, and one byte more.
pub const MOST_BYTES: u64 = MOST_LOGS * LOG_ROOM as u64 + 1;

// Refusals are counted by their numbers, all below this.
pub const NUMBERS: usize = 46;

// Room for any report: a line for each number, and four others.
pub const REPORT_ROOM: usize = 30 + 32 * NUMBERS + 27 + 29 + 49;
