// The log format of 01's 'The log', and its reader.
#![tactic(auto)]

ghost use Rattle.std.specs.Prelude.{◌≡◌};
ghost use Rattle.request_log.specs.Contents.{setup_in};

mod conditions;
mod reader;
mod requests;

use base::Refusal;
pub use conditions::{head_fault, offered_fault, place, request_fault, setup_fault, verdict};
pub use reader::{header_in, read, read_by, read_with};
pub use requests::{last_second, request_in, request_place};

// What a file is served under: price class, number of servers (01: stations), home server.
#[derive(Clone, Copy, Debug, PartialEq, Eq)]
pub struct Setup {
    pub class: u8,
    pub server_count: u8,
    pub home: u8,
}

// What a log says of its file, and a start is given: price class, number of servers (01: stations), home server, file id (01: pass id). Its layout is C's.
#[repr(C)]
#[derive(Clone, Copy, Debug, PartialEq, Eq)]
pub struct Header {
    pub class: u8,
    pub server_count: u8,
    pub home: u8,
    pub id: [u8; 16],
}

// All but the id.
impl From<Header> for Setup {
    ghost from_gives = { λ header setup. setup ≡ setup_in header };

    fn from(header: Header) -> Setup {
        Setup {
            class: header.class,
            server_count: header.server_count,
            home: header.home,
        }
    }
}

// A request of a log (01: scan).
#[derive(Clone, Copy, Debug, PartialEq, Eq)]
pub struct Request {
    pub second: u32,
    pub server: u16,
}

// The reader's answer: the number of requests, or why the log is refused. A refused log has a header of zeros.
#[derive(Clone, Copy, Debug, PartialEq, Eq)]
pub struct Decoded {
    pub header: Header,
    pub outcome: Result<u16, Refusal>,
}

// The most requests of a log.
pub const MOST_REQUESTS: usize = 2048;

// Room for any log.
pub const LOG_ROOM: usize = 40 + 6 * MOST_REQUESTS;

// How many bytes of an input are read at most: one more than the longest log has.
pub const LOG_LIMIT: usize = LOG_ROOM + 1;
