// The online cache: a state goes in and comes back by value.
ghost use Rattle.std.specs.Prelude.{◌≡◌};
ghost use Rattle.prices.specs.Offer.{built_in_offer, file_offer};
ghost use Rattle.online.specs.Answers.{started, scanned, running_answer, closed_answer};
ghost use Rattle.exports.specs.Answers.{running_of, of_number, start_answer, scan_answer, close_answer};

use crate::Answer;
use base::Refusal;
use online::{Cache, Closed, Scanned, Service, Started};
use request_log::Header;

// A file's id, as a scan brings it.
#[repr(C)]
#[derive(Clone, Copy)]
pub struct Id {
    pub bytes: [u8; 16],
}

#[repr(C)]
#[derive(Clone, Copy)]
pub struct CacheAnswer {
    pub cache: Cache,
    pub answer: Answer,
}

// A scan's answer has the running cost after it too, 0 where it is refused.
#[repr(C)]
#[derive(Clone, Copy)]
pub struct ScanAnswer {
    pub cache: Cache,
    pub answer: Answer,
    pub running: u64,
}

impl From<Started> for CacheAnswer {
    ghost from_gives = { λ started answer. answer ≡ start_answer started };

    fn from(started: Started) -> CacheAnswer {
        CacheAnswer {
            cache: started.cache,
            answer: Answer::from(started.outcome),
        }
    }
}

impl From<Closed> for CacheAnswer {
    ghost from_gives = { λ closed answer. answer ≡ close_answer closed };

    fn from(closed: Closed) -> CacheAnswer {
        CacheAnswer {
            cache: closed.cache,
            answer: Answer::from(closed.outcome),
        }
    }
}

// The running cost after a scan.
fn running_of(outcome: Result<Service, Refusal>) -> u64
    ensures { result ≡ running_of outcome }
{
    match outcome {
        Ok(Service::Kept { cost }) => cost,
        Ok(Service::Sent { cost, .. }) => cost,
        Err(_) => 0,
    }
}

impl From<Scanned> for ScanAnswer {
    ghost from_gives = { λ scanned answer. answer ≡ scan_answer scanned };

    fn from(scanned: Scanned) -> ScanAnswer {
        let outcome = scanned.outcome;
        ScanAnswer {
            cache: scanned.cache,
            answer: Answer::from(outcome),
            running: running_of(outcome),
        }
    }
}

#[unsafe(no_mangle)]
pub extern "C" fn caching_start(header: Header) -> CacheAnswer
    ensures { result ≡ start_answer (started built_in_offer header) }
{
    CacheAnswer::from(Cache::start(header))
}

#[unsafe(no_mangle)]
pub extern "C" fn caching_start_with(prices: &[u8], header: Header) -> CacheAnswer
    ensures { result ≡ start_answer (started (file_offer prices.now) header) }
{
    CacheAnswer::from(Cache::start_with(prices, header))
}

// The answer's value is 0 for kept; 1 for sent, and the source.
#[unsafe(no_mangle)]
pub extern "C" fn caching_scan(cache: Cache, id: Id, second: u32, server: u16) -> ScanAnswer
    ensures { result ≡ scan_answer (scanned cache id.bytes second server) }
{
    ScanAnswer::from(cache.scan(id.bytes, second, server))
}

// The answer's value is the running cost.
#[unsafe(no_mangle)]
pub extern "C" fn caching_running(cache: Cache) -> Answer
    ensures { result ≡ of_number (running_answer cache) }
{
    Answer::from(cache.running())
}

// The answer's value is the closing cost.
#[unsafe(no_mangle)]
pub extern "C" fn caching_close(cache: Cache) -> CacheAnswer
    ensures { result ≡ close_answer (closed_answer cache) }
{
    CacheAnswer::from(cache.close())
}
