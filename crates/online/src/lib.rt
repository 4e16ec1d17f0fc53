// The online cache (01: the live keeper): its state and its answers. The calls are in start, scan, running and close.
#![tactic(auto)]

mod close;
mod conditions;
mod running;
mod scan;
mod start;
mod state;

use base::{Refusal, Verdict};
use prices::Prices;

// The state (01's 'The live keeper'). Every field is public, so that a caller can hand in any state; its layout is C's.
#[repr(C)]
#[derive(Clone, Copy, Debug, PartialEq, Eq)]
pub struct Cache {
    // the hold and the transfer price (01: keep and send)
    pub prices: Prices,
    // the id of the file that it serves (01: pass id)
    pub id: [u8; 16],
    // the number of servers (01: stations)
    pub server_count: u8,
    // the server of the last request (01: scan), home before any
    pub last: u16,
    // the second of the last request, 0 before any
    pub second: u32,
    // the last use of each server's copy (01: use second)
    pub last_use: [u32; 64],
    // the servers where a copy stands, as a set in a word
    pub holders: u64,
    // the requests taken, and the transfers (01: sends) among them
    pub requests: u32,
    pub transfers: u32,
    // the seconds held by all copies up to the last request
    pub held: u32,
    // a close ends scanning
    pub closed: bool,
}

// A start's answer and its state, zeros where it is refused.
#[derive(Clone, Copy, Debug, PartialEq, Eq)]
pub struct Started {
    pub cache: Cache,
    pub outcome: Verdict,
}

// How a request was served: its copy was kept (K), or it was sent from a server (S), each with the running cost after it.
#[derive(Clone, Copy, Debug, PartialEq, Eq)]
pub enum Service {
    Kept { cost: u64 },
    Sent { source: u16, cost: u64 },
}

// A scan's answer and the next state, the same where it is refused.
#[derive(Clone, Copy, Debug, PartialEq, Eq)]
pub struct Scanned {
    pub cache: Cache,
    pub outcome: Result<Service, Refusal>,
}

// A close's answer and the closed state, the same where it is refused.
#[derive(Clone, Copy, Debug, PartialEq, Eq)]
pub struct Closed {
    pub cache: Cache,
    pub outcome: Result<u64, Refusal>,
}
