// The sheet of 01's 'The sheet', as bytes in a text that is lent.
#![tactic(auto)]

mod columns;
mod lines;
mod sheets;

use prices::PRICE_ROOM;
use request_log::MOST_REQUESTS;
pub use sheets::{sheet, sheet_with};

// What a request's line says: its number from 1, second, server, the letters of the plan's and of the online cache's mark, and the least
// and the running cost of the requests so far.
#[derive(Clone, Copy, Debug, PartialEq, Eq)]
pub struct Entry {
    pub number: u64,
    pub second: u64,
    pub server: u64,
    pub plan: u8,
    pub live: u8,
    pub least: u64,
    pub cost: u64,
}

// How many bytes of a price file are read at most: one more than the longest has.
pub const PRICE_LIMIT: usize = PRICE_ROOM + 1;

// Room for any sheet: its first line, one of at most 109 bytes for each request, and its last two lines.
pub const SHEET_ROOM: usize = 41 + 109 * MOST_REQUESTS + 26 + 27;
