// The conditions 14 to 18 on the numbers of a schedule, in 01's order.
ghost use Rattle.std.specs.Prelude.{◌≡◌, ◌+◌, ◌*◌, ◌≤◌, length};
ghost use Rattle.base.specs.Refusals.{first, each};
ghost use Rattle.request_log.specs.Ranges.{Sound};
ghost use Rattle.request_log.specs.Fields.{server_count_of, home_of, request_count, length_for};
ghost use Rattle.checker.specs.Quick.{stands_at, served, serve_test, schedule_tests};

use crate::copies::copies_fault;
use crate::hints::{Hints, first_upload, no_hints};
use crate::search::Rows;
use crate::standing::{Schedule, reaches, standing};
use base::bytes::{at, at16};
use base::refusals::refuse_if;
use base::{Reason, Verdict};
use request_log::{last_second, request_in, request_place};
use rows::{member, rows_fault};

// Does a copy stand at server x at second t?
#[tactic(auto, unfolding(crate::specs::Quick::stands_at))]
fn stands(s: &Schedule, hints: &mut Hints, t: u32, x: u32) -> bool
    ensures { result ≡ stands_at s.now.count s.now.home s.now.rows.ns.now t x }
{
    reaches(s.rows, hints, t, x) || member(standing(s, hints, t), x)
}

// Does one stand at request i + 1?
fn served(log: &[u8], s: &Schedule, hints: &mut Hints, i: u16) -> bool
    requires { (s.now.count ≡ server_count_of log.now) × (s.now.home ≡ home_of log.now) × (46 + 6 * i ≤ length log.now) }
    ensures { result ≡ served log.now s.now.rows.ns.now i }
{
    let k = request_place(i);
    let request = request_in(&log[k..k + 6]);
    stands(s, hints, request.second, u32::from(request.server))
}

// 18 for each request.
fn requests_fault(log: &[u8], s: &Schedule) -> Verdict
    requires { (s.now.count ≡ server_count_of log.now) × (s.now.home ≡ home_of log.now) × (length log.now ≡ length_for (request_count log.now)) }
    ensures { result ≡ first (each (serve_test log.now s.now.rows.ns.now) (request_count log.now)) }
{
    let mut hints = no_hints();
    for i in 0..at16(log, 6) {
        let served = served(log, s, &mut hints, i);
        refuse_if(!served, Reason::Unserved, u64::from(i) + 1)?;
    }
    Ok(())
}

// What the numbers of a schedule are answered, for a log, with an upload price given or not.
pub(crate) fn schedule_fault(given: bool, log: &[u8], ns: &[u32]) -> Verdict
    requires { Sound log.now }
    ensures { result ≡ first (schedule_tests given log.now ns.now) }
{
    refuse_if(ns.len() % 4 != 0, Reason::PartialRow, 0)?;
    let count = u32::from(at(log, 3));
    rows_fault(ns, given, count, at16(log, 6), last_second(log))?;
    let rows = Rows { ns };
    let s = Schedule {
        rows,
        uploads: first_upload(rows),
        count,
        home: u32::from(at(log, 4)),
    };
    copies_fault(&s)?;
    requests_fault(log, &s)
}
