// The week page of 02's Req 01, as bytes in a text that is lent.
#![tactic(auto)]

mod days;
mod lines;
mod pages;

pub use pages::page;

// The seconds of a day, and of a week.
const DAY: u32 = 86400;

const WEEK: u32 = 604800;

// The days of a week, and the most servers.
const DAYS: usize = 7;

const SERVERS: usize = 64;

// Room for any page: a line of 68 bytes for each server, and one for the sums.
pub const PAGE_ROOM: usize = 68 * (SERVERS + 1);

// Up to so many requests a plan is made in short lists.
const FEW: usize = 64;
