// One log looked at: why it is refused, or the costs of an accepted one.
ghost use Rattle.std.specs.Prelude.{◌≡◌, ◌^◌, ◌<◌, get_or, length, Ok};
ghost use Rattle.prices.specs.Tariff.{built_in};
ghost use Rattle.request_log.specs.Fields.{request_count};
ghost use Rattle.request_log.specs.Conditions.{Accepted};
ghost use Rattle.season.specs.Tallies.{met_of};
ghost use Rattle.season.specs.Met.{least_bill, met_as, looked_at};

use base::Refusal;
use base::bytes::at16;
use live::running_of;
use planner::{PLACES, least};
use prices::built_in;

// An accepted log: how many requests it has, its least and its running cost.
#[derive(Clone, Copy, Debug, PartialEq, Eq)]
pub(crate) struct Bill {
    pub requests: u16,
    pub least: u32,
    pub running: u32,
}

// A cost of an accepted log fits 32 bits.
fn narrow(cost: u64) -> u32
    requires { cost < 2 ^ 32 }
    ensures { result ≡ cost }
{
    cost as u32
}

// An accepted log, whose least costs were found; its running cost is by the online cache's own calls.
fn accept(log: &[u8], costs: &[u64]) -> Bill
    requires { Accepted built_in log.now × (request_count log.now < length costs.now) × (get_or costs.now (request_count log.now) 0 ≡ least_bill built_in log.now) }
    ensures { met_of (Ok result) ≡ met_as (Ok tt) built_in log.now }
{
    let requests = at16(log, 6);
    let least = narrow(costs[usize::from(requests)]);
    let running = narrow(running_of(&built_in(), log).unwrap_or(0));
    Bill {
        requests,
        least,
        running,
    }
}

// A log: its least cost by the planner.
pub(crate) fn look(log: &[u8]) -> Result<Bill, Refusal>
    ensures { met_of result ≡ looked_at built_in log.now }
{
    let mut costs = [0u64; PLACES];
    least(log, &mut costs)?;
    Ok(accept(log, &costs))
}
