// A log's requests, in the lists that the table is made from: index 0 is the copy at home at second 0.
ghost use Rattle.std.specs.Prelude.{◌++◌, ◌≡◌, ℕ, ◌≤◌, ◌<◌, length, take, drop, set};
ghost use Rattle.base.specs.Lent.{lent};
ghost use Rattle.prices.specs.Tariff.{tariff_of};
ghost use Rattle.prices.specs.Uploads.{if_given};
ghost use Rattle.request_log.specs.Fields.{request_count, seconds_of, servers_of};
ghost use Rattle.request_log.specs.Conditions.{verdict_of};
ghost use Rattle.request_log.specs.Answers.{decoded};
ghost use Rattle.model.proofs.TableLists.{at};
ghost use Rattle.request_log.specs.Sizes.{most_requests};
ghost use Rattle.planner.specs.Sizes.{places};
ghost use Rattle.planner.specs.Fees.{fees_of};
ghost use Rattle.planner.specs.Loading.{seconds_with_home, servers_with_home, links, offer_verdict, summary_of, loaded};

use crate::{NONE, PLACES};
use base::Refusal;
use base::bytes::clear;
use prices::{Prices, Tariff, upload_fault};
use request_log::{Decoded, read_by};

// What a plan is billed by: the upload price where one is given.
#[derive(Clone, Copy)]
pub struct Fees {
    pub hold: u32,
    pub transfer: u32,
    pub upload: Option<u32>,
}

// What an accepted log says beside its requests: how many they are, how many servers there are, and what its plan is billed by.
#[derive(Clone, Copy)]
pub struct Summary {
    pub requests: u16,
    pub server_count: u8,
    pub fees: Fees,
}

// The previous request of request i, and i as the most recent at its server.
fn link_one(servers: &[u16; PLACES], i: u16, recent: &mut [u16; 64], previous: &mut [u16])
    requires { (i ≤ most_requests) × (at servers.now i < 64) × (length previous.old ≡ places) }
    ensures recent_after { recent.new ≡ set recent.old (at servers.now i) i }
    ensures previous_after { previous.new ≡ set previous.old i (at recent.old (at servers.now i)) }
{
    let k = usize::from(i);
    let y = usize::from(servers[k]);
    previous[k] = recent[y];
    recent[y] = i;
}

// The previous request of each of requests 0 to n, and zeros beyond.
fn link(servers: &[u16; PLACES], n: u16, previous: &mut [u16])
    requires { (n ≤ most_requests) × ((k : ℕ) → at servers.now k < 64) × (length previous.old ≡ places) }
    ensures { previous.new ≡ lent (Ok tt) (links servers.now n) previous.old }
{
    let mut recent = [NONE; 64];
    for i in 0..n + 1 {
        link_one(servers, i, &mut recent, previous);
    }
    clear(previous, usize::from(n) + 1);
}

// Read a log by a price file and what that was answered, its requests from index 1 on.
fn read_requests(tariff: Tariff, log: &[u8], seconds: &mut [u32], servers: &mut [u16]) -> Decoded
    requires { (length seconds.old ≡ places) × (length servers.old ≡ places) }
    ensures value { result ≡ decoded (verdict_of (tariff_of tariff.entry) log.now) log.now }
    ensures seconds_after { seconds.new ≡ take 1 seconds.old ++ lent (verdict_of (tariff_of tariff.entry) log.now) (seconds_of log.now) (drop 1 seconds.old) }
    ensures servers_after { servers.new ≡ take 1 servers.old ++ lent (verdict_of (tariff_of tariff.entry) log.now) (servers_of log.now) (drop 1 servers.old) }
{
    read_by(tariff, log, &mut seconds[1..], &mut servers[1..])
}

// What a plan is billed by, from a class's prices and an upload price, if one is given.
#[tactic(auto, unfolding(crate::specs::Fees::fees_of), using(crate::specs::FeeLaws::offered_given))]
fn billed(prices: Prices, upload: Option<u32>) -> Fees
    ensures { result ≡ fees_of prices (if_given upload) }
{
    Fees {
        hold: prices.hold,
        transfer: prices.transfer,
        upload,
    }
}

// The same: the seconds and servers of its requests, the previous request of each, and what else it says; 44 comes right after its conditions.
pub fn load(
    tariff: Tariff,
    upload: Option<u32>,
    log: &[u8],
    seconds: &mut [u32; PLACES],
    servers: &mut [u16; PLACES],
    previous: &mut [u16; PLACES],
) -> Result<Summary, Refusal>
    ensures value { result ≡ loaded (offer_verdict (tariff_of tariff.entry) (if_given upload) log.now) (summary_of (tariff_of tariff.entry) (if_given upload) log.now) }
    ensures seconds_after { seconds.new ≡ lent (verdict_of (tariff_of tariff.entry) log.now) (seconds_with_home log.now) seconds.old }
    ensures servers_after { servers.new ≡ lent (verdict_of (tariff_of tariff.entry) log.now) (servers_with_home log.now) servers.old }
    ensures previous_after { previous.new ≡ lent (verdict_of (tariff_of tariff.entry) log.now) (links (servers_with_home log.now) (request_count log.now)) previous.old }
{
    let decoded = read_requests(tariff, log, seconds, servers);
    let header = decoded.header;
    let n = decoded.outcome?;
    seconds[0] = 0;
    servers[0] = u16::from(header.home);
    link(servers, n, previous);
    upload_fault(upload)?;
    Ok(Summary {
        requests: n,
        server_count: header.server_count,
        fees: billed(tariff.of_class(header.class), upload),
    })
}
