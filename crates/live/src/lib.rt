// The online cache over the requests of a log.
#![tactic(auto, unfolding(crate::specs::Replies::outcome_letter, crate::specs::Replies::outcome_cost, crate::specs::Replies::turn, crate::specs::Replies::close_cost))]

ghost use Rattle.std.specs.Prelude.{◌≡◌};
ghost use Rattle.prices.specs.Tariff.{price_file};
ghost use Rattle.online.specs.Answers.{started_for_log, closed_answer, running_answer};
ghost use Rattle.live.specs.Live.{state_of};
ghost use Rattle.live.specs.Replies.{outcome_letter, outcome_cost, turn, close_cost};

use base::Refusal;
use base::bytes::{at16, at32};
use online::{Cache, Service};
use prices::Tariff;
use request_log::{Header, header_in, request_place};

// One request: the next state, the letter of the mark, and the running cost.
#[derive(Clone, Copy, Debug, PartialEq, Eq)]
pub struct Turn {
    pub cache: Cache,
    pub mark: u8,
    pub cost: u64,
}

// A mark as one ASCII letter.
fn letter(outcome: Result<Service, Refusal>) -> u8
    ensures { result ≡ outcome_letter outcome }
{
    match outcome {
        Ok(Service::Kept { .. }) => b'K',
        Ok(Service::Sent { .. }) => b'S',
        Err(_) => 0,
    }
}

// The running cost after a request.
fn amount(outcome: Result<Service, Refusal>) -> u64
    ensures { result ≡ outcome_cost outcome }
{
    match outcome {
        Ok(Service::Kept { cost } | Service::Sent { cost, .. }) => cost,
        Err(_) => 0,
    }
}

// One request scanned.
pub fn step(cache: Cache, id: [u8; 16], second: u32, server: u16) -> Turn
    ensures { result ≡ turn cache id second server }
{
    let scanned = cache.scan(id, second, server);
    Turn {
        cache: scanned.cache,
        mark: letter(scanned.outcome),
        cost: amount(scanned.outcome),
    }
}

// The state of a log's start by a price file.
pub fn open(prices: &[u8], header: Header) -> Cache
    ensures { result ≡ (started_for_log (price_file prices.now) header).cache }
{
    Cache::start_for_log(Tariff::of_file(prices), header).cache
}

// The closing cost of a state that can be closed.
pub fn closing(cache: Cache) -> u64
    ensures { result ≡ close_cost (closed_answer cache).outcome }
{
    cache.close().outcome.unwrap_or(0)
}

// The running cost of the requests that stand in some bytes, scanned one by one after a log's start by a price file; or 32.
pub fn running_of(prices: &[u8], log: &[u8]) -> Result<u64, Refusal>
    ensures { result ≡ running_answer (state_of (price_file prices.now) log.now) }
{
    let header = header_in(log);
    let mut state = open(prices, header);
    for k in 0..at16(log, 6) {
        let i = request_place(k);
        let second = at32(log, i);
        let server = at16(log, i + 4);
        state = state.scan(header.id, second, server).cache;
    }
    state.running()
}
