// The reader.
ghost use Rattle.std.specs.Prelude.{◌≡◌, ◌++◌, ◌+◌, ◌*◌, ◌≤◌, length, drop};
ghost use Rattle.base.specs.Bytes.{le16, le32};
ghost use Rattle.base.specs.Lent.{lent};
ghost use Rattle.base.specs.Lists.{build};
ghost use Rattle.prices.specs.Tariff.{tariff_of, built_in, price_file};
ghost use Rattle.request_log.specs.Fields.{id_of, header_of};
ghost use Rattle.request_log.specs.Answers.{no_header, header_in, read_verdict, decoded, seconds_left, servers_left};

use crate::conditions::verdict;
use crate::requests::request_at;
use crate::{Decoded, Header};
use base::bytes::{at16, clear};
use base::refusals::refuse_if;
use base::{Reason, Verdict};
use prices::Tariff;

// What a log says of its file.
#[tactic(auto, using(crate::specs::AcceptedLaws::id_taken), unfolding(crate::specs::Fields::header_of, crate::specs::Fields::class_of, crate::specs::Fields::server_count_of, crate::specs::Fields::home_of))]
fn header(log: &[u8]) -> Header
    requires { 40 ≤ length log.now }
    ensures { result ≡ header_of log.now }
{
    let mut id = [0u8; 16];
    id.copy_from_slice(&log[24..40]);
    Header {
        class: log[2],
        server_count: log[3],
        home: log[4],
        id,
    }
}

// The header of a refused log.
#[tactic(auto, unfolding(crate::specs::Answers::no_header))]
fn blank() -> Header
    ensures { result ≡ no_header }
{
    Header {
        class: 0,
        server_count: 0,
        home: 0,
        id: [0u8; 16],
    }
}

// What any bytes say of their file: zeros where they are fewer than 40.
#[tactic(auto, unfolding(crate::specs::Answers::header_in))]
pub fn header_in(log: &[u8]) -> Header
    ensures { result ≡ header_in log.now }
{
    if log.len() < 40 {
        return blank();
    }
    header(log)
}

// The seconds and servers of n requests, into the fronts of two lists.
fn put_requests(log: &[u8], n: u16, seconds: &mut [u32], servers: &mut [u16])
    requires { (40 + 6 * n ≤ length log.now) × (n ≤ length seconds.old) × (n ≤ length servers.old) }
    ensures seconds_after { seconds.new ≡ build n (λ i. le32 log.now (40 + 6 * i)) ++ drop n seconds.old }
    ensures servers_after { servers.new ≡ build n (λ i. le16 log.now (44 + 6 * i)) ++ drop n servers.old }
{
    for i in 0..n {
        let k = usize::from(i);
        let request = request_at(log, i);
        seconds[k] = request.second;
        servers[k] = request.server;
    }
}

// All n requests, and zeros after them.
fn give_requests(log: &[u8], n: u16, seconds: &mut [u32], servers: &mut [u16])
    requires { (40 + 6 * n ≤ length log.now) × (n ≤ length seconds.old) × (n ≤ length servers.old) }
    ensures seconds_after { seconds.new ≡ lent (Ok tt) (build n (λ i. le32 log.now (40 + 6 * i))) seconds.old }
    ensures servers_after { servers.new ≡ lent (Ok tt) (build n (λ i. le16 log.now (44 + 6 * i))) servers.old }
{
    let end = usize::from(n);
    put_requests(log, n, seconds, servers);
    clear(seconds, end);
    clear(servers, end);
}

// What the price file was answered, the log's conditions, then 31 for seconds and for servers.
#[tactic(auto, using(crate::specs::AnswerLaws::read_parts, base::specs::RefusalLaws::chain), unfolding(crate::specs::Fields::request_count))]
fn read_fault(tariff: Tariff, log: &[u8], seconds: usize, servers: usize) -> Verdict
    ensures { result ≡ read_verdict (tariff_of tariff.entry) log.now seconds servers }
{
    let n = at16(log, 6);
    verdict(tariff, log)?;
    refuse_if(seconds < usize::from(n), Reason::ShortOutput, u64::from(n))?;
    refuse_if(servers < usize::from(n), Reason::ShortOutput, u64::from(n))
}

// Read a log by a price file and what that was answered: its header and number of requests, their seconds and servers into what is lent.
pub fn read_by(tariff: Tariff, log: &[u8], seconds: &mut [u32], servers: &mut [u16]) -> Decoded
    ensures value { result ≡ decoded (read_verdict (tariff_of tariff.entry) log.now (length seconds.old) (length servers.old)) log.now }
    ensures seconds_after { seconds.new ≡ seconds_left (tariff_of tariff.entry) log.now seconds.old servers.old }
    ensures servers_after { servers.new ≡ servers_left (tariff_of tariff.entry) log.now seconds.old servers.old }
{
    if let Err(refusal) = read_fault(tariff, log, seconds.len(), servers.len()) {
        return Decoded {
            header: blank(),
            outcome: Err(refusal),
        };
    }
    let n = at16(log, 6);
    give_requests(log, n, seconds, servers);
    Decoded {
        header: header(log),
        outcome: Ok(n),
    }
}

// Read a log by the built-in table.
pub fn read(log: &[u8], seconds: &mut [u32], servers: &mut [u16]) -> Decoded
    ensures value { result ≡ decoded (read_verdict built_in log.now (length seconds.old) (length servers.old)) log.now }
    ensures seconds_after { seconds.new ≡ seconds_left built_in log.now seconds.old servers.old }
    ensures servers_after { servers.new ≡ servers_left built_in log.now seconds.old servers.old }
{
    read_by(Tariff::built_in(), log, seconds, servers)
}

// Read a log by a price file.
pub fn read_with(prices: &[u8], log: &[u8], seconds: &mut [u32], servers: &mut [u16]) -> Decoded
    ensures value { result ≡ decoded (read_verdict (price_file prices.now) log.now (length seconds.old) (length servers.old)) log.now }
    ensures seconds_after { seconds.new ≡ seconds_left (price_file prices.now) log.now seconds.old servers.old }
    ensures servers_after { servers.new ≡ servers_left (price_file prices.now) log.now seconds.old servers.old }
{
    read_by(Tariff::of_file(prices), log, seconds, servers)
}
