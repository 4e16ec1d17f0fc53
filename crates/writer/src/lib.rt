// The writer of logs.
#![tactic(auto)]

mod conditions;

ghost use Rattle.std.specs.Prelude.{◌≡◌, ◌++◌, ◌+◌, ◌*◌, ◌≤◌, ◌<◌, length, take, drop};
ghost use Rattle.base.specs.Bytes.{bytes};
ghost use Rattle.base.specs.Lists.{splice};
ghost use Rattle.prices.specs.Tariff.{tariff_of};
ghost use Rattle.prices.specs.Offer.{offer, built_in_offer, file_offer};
ghost use Rattle.checksum.specs.Sum.{sum_of};
ghost use Rattle.request_log.specs.Sizes.{most_requests};
ghost use Rattle.request_log.specs.Contents.{contents, head, request_bytes, requests_bytes};
ghost use Rattle.request_log.specs.Answers.{write_verdict, written, log_left};

use base::bytes::{clear, copy, le_bytes16, le_bytes32};
use base::refusals::refuse_if;
use base::{Reason, Refusal, Verdict};
use checksum::sum;
use conditions::contents_fault;
use prices::{Tariff, ended};
use request_log::Header;

// Bytes 0 to 19 of a log of n requests.
#[tactic(auto, unfolding(request_log::specs::Contents::head, request_log::specs::Fields::length_for))]
fn front(header: Header, n: usize) -> [u8; 20]
    requires { n ≤ most_requests }
    ensures { result ≡ head header n }
{
    let c = le_bytes16(n as u16);
    let t = le_bytes32(40 + 6 * n as u32);
    [
        1,
        0,
        header.class,
        header.server_count,
        header.home,
        0,
        c[0],
        c[1],
        40,
        0,
        0,
        0,
        24,
        0,
        0,
        0,
        t[0],
        t[1],
        t[2],
        t[3],
    ]
}

// The six bytes of a request.
fn request(second: u32, server: u16) -> [u8; 6]
    ensures { result ≡ bytes 4 second ++ bytes 2 server }
{
    let a = le_bytes32(second);
    let b = le_bytes16(server);
    [a[0], a[1], a[2], a[3], b[0], b[1]]
}

// Bytes 0 to 19 and the id, into a log that is long enough.
fn put_head(header: Header, n: usize, log: &mut [u8])
    requires { (n ≤ most_requests) × (40 ≤ length log.old) }
    ensures { log.new ≡ splice 24 header.id (splice 0 (head header n) log.old) }
{
    let id = header.id;
    copy(log, 0, &front(header, n));
    copy(log, 24, &id);
}

// Request k, into its place.
#[tactic(auto, unfolding(request_log::specs::Contents::request_bytes))]
fn put_request(seconds: &[u32], servers: &[u16], k: usize, log: &mut [u8])
    requires { (k < length seconds.now) × (k < length servers.now) × (k < most_requests) }
    ensures { log.new ≡ splice (40 + 6 * k) (request_bytes seconds.now servers.now k) log.old }
{
    copy(log, 40 + 6 * k, &request(seconds[k], servers[k]));
}

// All requests, from 40 on.
fn put_requests(seconds: &[u32], servers: &[u16], log: &mut [u8])
    requires { (length seconds.now ≡ length servers.now) × (length seconds.now ≤ most_requests) × (40 + 6 * length seconds.now ≤ length log.old) }
    ensures { log.new ≡ take 40 log.old ++ (requests_bytes seconds.now servers.now (length seconds.now) ++ drop (40 + 6 * length seconds.now) log.old) }
{
    for k in 0..seconds.len() {
        put_request(seconds, servers, k, log);
    }
}

// The sum of the first `total` bytes, into its place.
fn put_sum(total: usize, log: &mut [u8])
    requires { total ≤ length log.old }
    ensures { log.new ≡ splice 20 (bytes 4 (sum_of (take total log.old))) log.old }
{
    let s = sum(&log[..total]);
    copy(log, 20, &le_bytes32(s));
}

// What the price file was answered, the conditions on what is to be written, then 31 for the log.
#[tactic(auto, using(request_log::specs::AnswerLaws::write_parts, base::specs::RefusalLaws::chain), unfolding(request_log::specs::Fields::length_for))]
fn write_fault(
    tariff: Tariff,
    ended: bool,
    header: Header,
    seconds: &[u32],
    servers: &[u16],
    log: usize,
) -> Verdict
    ensures { result ≡ write_verdict (offer (tariff_of tariff.entry) (λ class. ended)) (contents header seconds.now servers.now) log }
{
    contents_fault(tariff, ended, header, seconds, servers)?;
    let total = 40 + 6 * seconds.len();
    refuse_if(log < total, Reason::ShortOutput, total as u64)
}

// Write a log by a price file and what that was answered: its bytes into what is lent, and zeros after them.
pub fn write_by(
    tariff: Tariff,
    ended: bool,
    header: Header,
    seconds: &[u32],
    servers: &[u16],
    log: &mut [u8],
) -> Result<u64, Refusal>
    ensures value { result ≡ written (write_verdict (offer (tariff_of tariff.entry) (λ class. ended)) (contents header seconds.now servers.now) (length log.old)) (contents header seconds.now servers.now) }
    ensures log_after { log.new ≡ log_left (offer (tariff_of tariff.entry) (λ class. ended)) (contents header seconds.now servers.now) log.old }
{
    write_fault(tariff, ended, header, seconds, servers, log.len())?;
    let n = seconds.len();
    let total = 40 + 6 * n;
    put_head(header, n, log);
    put_requests(seconds, servers, log);
    clear(log, total);
    put_sum(total, log);
    Ok(total as u64)
}

// Write a log by the built-in table.
pub fn write(
    header: Header,
    seconds: &[u32],
    servers: &[u16],
    log: &mut [u8],
) -> Result<u64, Refusal>
    ensures value { result ≡ written (write_verdict built_in_offer (contents header seconds.now servers.now) (length log.old)) (contents header seconds.now servers.now) }
    ensures log_after { log.new ≡ log_left built_in_offer (contents header seconds.now servers.now) log.old }
{
    write_by(
        Tariff::built_in(),
        ended(header.class),
        header,
        seconds,
        servers,
        log,
    )
}

// Write a log by a price file.
pub fn write_with(
    prices: &[u8],
    header: Header,
    seconds: &[u32],
    servers: &[u16],
    log: &mut [u8],
) -> Result<u64, Refusal>
    ensures value { result ≡ written (write_verdict (file_offer prices.now) (contents header seconds.now servers.now) (length log.old)) (contents header seconds.now servers.now) }
    ensures log_after { log.new ≡ log_left (file_offer prices.now) (contents header seconds.now servers.now) log.old }
{
    write_by(
        Tariff::of_file(prices),
        false,
        header,
        seconds,
        servers,
        log,
    )
}
