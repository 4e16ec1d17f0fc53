// The conditions on a log, in the order of 01 and 02. Each comes after what the price file was answered.
#![tactic(auto, using(base::specs::RefusalLaws::chain), unfolding(crate::specs::Conditions::offered_conditions, crate::specs::Conditions::head_verdict, crate::specs::Fields::version, crate::specs::Fields::class_of, crate::specs::Fields::server_count_of, crate::specs::Fields::home_of, crate::specs::Fields::request_count, crate::specs::Fields::requests_offset, crate::specs::Fields::id_offset, crate::specs::Fields::total_length, crate::specs::Fields::written_sum, crate::specs::Fields::length_for))]

ghost use Rattle.std.specs.Prelude.{◌≡◌, not, suc, ltb, eqb, length};
ghost use Rattle.base.specs.Choice.{either};
ghost use Rattle.base.specs.Refusals.{first, each, from};
ghost use Rattle.prices.specs.Tariff.{tariff_of};
ghost use Rattle.prices.specs.Offer.{offer};
ghost use Rattle.checksum.specs.Sum.{sum_of};
ghost use Rattle.request_log.specs.Fields.{server_count_of, request_count, requests_offset, id_offset, total_length, written_sum, length_for, seconds_of, servers_of};
ghost use Rattle.request_log.specs.Conditions.{setup_conditions, offered_conditions, form_conditions, request_check, request_conditions, head_verdict, verdict_of};

use crate::requests::request_at;
use crate::{MOST_REQUESTS, Setup};
use base::bytes::{at, at16, at32};
use base::refusals::refuse_if;
use base::{Reason, Verdict};
use checksum::sum;
use prices::Tariff;

// The most requests, as the header has them.
const MOST: u16 = MOST_REQUESTS as u16;

// 1 to 64 servers are allowed.
fn count_outside(count: u8) -> bool
    ensures { result ≡ either (eqb count 0) (ltb 64 count) }
{
    !(1..=64).contains(&count)
}

// 3, 43 where the class has ended, 4, 5.
pub fn offered_fault(tariff: Tariff, ended: bool, setup: Setup) -> Verdict
    ensures { result ≡ from tariff.entry.judged (offered_conditions (offer (tariff_of tariff.entry) (λ class. ended)) setup) }
{
    tariff.judged?;
    refuse_if(
        tariff.class_count() <= u16::from(setup.class),
        Reason::UnknownClass,
        0,
    )?;
    refuse_if(ended, Reason::EndedClass, 0)?;
    refuse_if(count_outside(setup.server_count), Reason::ServerCount, 0)?;
    refuse_if(setup.server_count <= setup.home, Reason::Home, 0)
}

// 3 to 5: of a log that there is every class stands.
#[tactic(auto, using(crate::specs::ConditionLaws::offered_setup))]
pub fn setup_fault(tariff: Tariff, setup: Setup) -> Verdict
    ensures { result ≡ from tariff.entry.judged (setup_conditions (tariff_of tariff.entry).table setup) }
{
    offered_fault(tariff, false, setup)
}

// An offset or the total is not as the format says, for a log of n requests.
fn misplaced(log: &[u8], n: u16) -> bool
    ensures { result ≡ either (not (eqb (requests_offset log.now) 40)) (either (not (eqb (id_offset log.now) 24)) (not (eqb (total_length log.now) (length_for n)))) }
{
    at32(log, 8) != 40 || at32(log, 12) != 24 || at32(log, 16) != 40 + 6 * u32::from(n)
}

// The file's length is not the total that the log gives.
fn total_differs(log: &[u8]) -> bool
    ensures { result ≡ not (eqb (length log.now) (total_length log.now)) }
{
    log.len() != at32(log, 16) as usize
}

// 1 to 8, which the header alone decides.
pub fn head_fault(tariff: Tariff, log: &[u8]) -> Verdict
    ensures { result ≡ head_verdict (tariff_of tariff.entry) log.now }
{
    let n = at16(log, 6);
    let setup = Setup {
        class: at(log, 2),
        server_count: at(log, 3),
        home: at(log, 4),
    };
    tariff.judged?;
    refuse_if(log.len() < 40, Reason::ShortLog, 0)?;
    refuse_if(at16(log, 0) != 1, Reason::Version, 0)?;
    setup_fault(tariff, setup)?;
    refuse_if(at(log, 5) != 0, Reason::SpareByte, 0)?;
    refuse_if(MOST < n, Reason::RequestCount, 0)?;
    refuse_if(misplaced(log, n), Reason::Layout, 0)
}

// 1 to 9.
fn form_fault(tariff: Tariff, log: &[u8]) -> Verdict
    ensures { result ≡ from tariff.entry.judged (form_conditions (tariff_of tariff.entry).table log.now) }
{
    head_fault(tariff, log)?;
    refuse_if(total_differs(log), Reason::Length, 0)
}

// The sum is not the one that the log gives.
fn sum_differs(log: &[u8]) -> bool
    ensures { result ≡ not (eqb (written_sum log.now) (sum_of log.now)) }
{
    at32(log, 20) != sum(log)
}

// A request is at a second from 1 to 4,000,000.
fn second_outside(second: u32) -> bool
    ensures { result ≡ either (eqb second 0) (ltb 4000000 second) }
{
    !(1..=4000000).contains(&second)
}

// 11 to 13 for one request.
pub fn request_fault(count: u8, server: u16, second: u32, earlier: u32, place: u64) -> Verdict
    ensures { result ≡ first (request_check count server second earlier place) }
{
    refuse_if(u16::from(count) <= server, Reason::UnknownServer, place)?;
    refuse_if(second_outside(second), Reason::SecondRange, place)?;
    refuse_if(second <= earlier, Reason::NotLater, place)
}

// Requests are counted from 1.
pub fn place(i: u16) -> u64
    ensures { result ≡ suc i }
{
    u64::from(i) + 1
}

// 11 to 13 for each request of a log.
fn requests_fault(log: &[u8]) -> Verdict
    requires { length log.now ≡ length_for (request_count log.now) }
    ensures { result ≡ first (each (request_conditions (server_count_of log.now) (seconds_of log.now) (servers_of log.now)) (request_count log.now)) }
{
    let count = at(log, 3);
    let mut earlier = 0;
    for i in 0..at16(log, 6) {
        let request = request_at(log, i);
        request_fault(count, request.server, request.second, earlier, place(i))?;
        earlier = request.second;
    }
    Ok(())
}

// What the bytes of a log are answered.
#[tactic(auto, using(crate::specs::AcceptedLaws::form_length, base::specs::RefusalLaws::chain), unfolding(crate::specs::Conditions::verdict_of, crate::specs::Conditions::log_conditions, crate::specs::Conditions::header_conditions))]
pub fn verdict(tariff: Tariff, log: &[u8]) -> Verdict
    ensures { result ≡ verdict_of (tariff_of tariff.entry) log.now }
{
    form_fault(tariff, log)?;
    refuse_if(sum_differs(log), Reason::Sum, 0)?;
    requests_fault(log)
}
