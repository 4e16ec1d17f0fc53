// The conditions on what is to be written, in the order of 01 and 02. They come after what the price file was answered.
ghost use Rattle.std.specs.Prelude.{◌≡◌, not, ◌≤◌, ltb, eqb, length};
ghost use Rattle.base.specs.Choice.{either};
ghost use Rattle.base.specs.Refusals.{first, otherwise, each};
ghost use Rattle.prices.specs.Tariff.{tariff_of};
ghost use Rattle.prices.specs.Offer.{offer};
ghost use Rattle.request_log.specs.Sizes.{most_requests};
ghost use Rattle.request_log.specs.Conditions.{request_conditions};
ghost use Rattle.request_log.specs.Contents.{contents, contents_conditions};

use base::refusals::refuse_if;
use base::{Reason, Verdict};
use prices::Tariff;
use request_log::{Header, MOST_REQUESTS, Setup, offered_fault, place, request_fault};

// More than 2,048 requests, or lists of unequal length.
fn lengths_outside(seconds: usize, servers: usize) -> bool
    ensures { result ≡ either (ltb most_requests seconds) (not (eqb seconds servers)) }
{
    MOST_REQUESTS < seconds || seconds != servers
}

// 11 to 13 for each request of two lists of one length.
fn lists_fault(count: u8, seconds: &[u32], servers: &[u16]) -> Verdict
    requires { (length seconds.now ≡ length servers.now) × (length seconds.now ≤ most_requests) }
    ensures { result ≡ first (each (request_conditions count seconds.now servers.now) (length seconds.now)) }
{
    let mut earlier = 0;
    for i in 0..seconds.len() {
        request_fault(count, servers[i], seconds[i], earlier, place(i as u16))?;
        earlier = seconds[i];
    }
    Ok(())
}

// What the writer answers to a header and two lists.
#[tactic(auto, using(base::specs::RefusalLaws::chain), unfolding(request_log::specs::Contents::contents_conditions))]
pub(crate) fn contents_fault(
    tariff: Tariff,
    ended: bool,
    header: Header,
    seconds: &[u32],
    servers: &[u16],
) -> Verdict
    ensures { result ≡ otherwise tariff.entry.judged (first (contents_conditions (offer (tariff_of tariff.entry) (λ class. ended)) (contents header seconds.now servers.now))) }
{
    offered_fault(tariff, ended, Setup::from(header))?;
    refuse_if(
        lengths_outside(seconds.len(), servers.len()),
        Reason::RequestCount,
        0,
    )?;
    lists_fault(header.server_count, seconds, servers)
}
