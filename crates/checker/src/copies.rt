// 17: rows with no copy where they begin or leave.
ghost use Rattle.std.specs.Prelude.{◌≡◌, not, suc, ◌-◌, ◌<◌, ◌≤◌, eqb};
ghost use Rattle.base.specs.Choice.{pick, either, both};
ghost use Rattle.base.specs.Sets.{has};
ghost use Rattle.base.specs.Refusals.{first, each};
ghost use Rattle.model.specs.RowForm.{row_at};
ghost use Rattle.model.specs.Checking.{row_count};
ghost use Rattle.rows.specs.Reading.{server_of, second_of};
ghost use Rattle.rows.specs.Passes.{puts, starts};
ghost use Rattle.checker.specs.Quick.{standing_at, loaded, fed, unfed, starved, unbacked, hold_test, transfer_test, copy_tests};

use crate::hints::{Hints, after_holds, after_second, from_second, from_upload, no_hints};
use crate::search::Rows;
use crate::standing::{Schedule, standing};
use base::refusals::refuse_if;
use base::{Reason, Verdict};
use rows::{aimed, member, puts, row, second, starts};

// The set at a second.
#[derive(Clone, Copy)]
struct Seen {
    second: u32,
    word: u64,
}

// The first hold and the first transfer with no copy; past the last row where there is none.
#[derive(Clone, Copy)]
struct Faults {
    hold: usize,
    transfer: usize,
}

// Rows are counted from 1.
fn place(i: usize) -> u64
    requires { i < 18446744073709551615 }
    ensures { result ≡ suc i }
{
    (i as u64) + 1
}

// The set at second t, where it may be known.
fn seen_at(s: &Schedule, hints: &mut Hints, seen: Seen, t: u32) -> Seen
    requires { seen.word ≡ standing_at s.now.count s.now.home s.now.rows.ns.now seen.second }
    ensures { (result.second ≡ t) × (result.word ≡ standing_at s.now.count s.now.home s.now.rows.ns.now t) }
{
    if seen.second == t {
        return seen;
    }
    Seen {
        second: t,
        word: standing(s, hints, t),
    }
}

// Is this home at second 0?
fn begins(home: u32, t: u32, x: u32) -> bool
    ensures { result ≡ both (eqb t 0) (eqb x home) }
{
    t == 0 && x == home
}

// Is there one?
fn loaded(rows: Rows, hints: &mut Hints, t: u32, x: u32) -> bool
    ensures { result ≡ loaded rows.entry.ns.now t x }
{
    let p = from_upload(rows, hints, t, x);
    p < rows.ns.len() / 4 && puts(t, x, row(rows.ns, p))
}

// May a copy come to server x at second t?
fn fed(s: &Schedule, hints: &mut Hints, t: u32, x: u32) -> bool
    ensures { result ≡ fed s.now.home s.now.rows.ns.now t x }
{
    let rows = s.rows;
    begins(s.home, t, x)
        || aimed(
            rows.ns,
            from_second(rows, hints, t),
            after_second(rows, hints, t),
            x,
        )
        || loaded(rows, hints, t, x)
}

// The hold at server x from second t on, if the set at t has not x; past the last row where there is none.
fn unfed(rows: Rows, hints: &mut Hints, w: u64, t: u32, x: u32) -> usize
    ensures { result ≡ unfed rows.entry.ns.now w t x }
{
    if member(w, x) {
        return rows.ns.len() / 4;
    }
    let p = after_holds(rows, hints, x, t);
    if starts(t, x, row(rows.ns, p)) {
        return p;
    }
    rows.ns.len() / 4
}

// Row i, if the set has not its source y; past the last row otherwise.
fn unbacked(ns: &[u32], w: u64, y: u32, i: usize) -> usize
    ensures { result ≡ pick (has w y) (row_count ns.now) i }
{
    if member(w, y) {
        return ns.len() / 4;
    }
    i
}

// One pass over the transfers from one on up to the uploads: the first hold to which they bring no copy, and the first of them with no copy at its source.
fn scan(s: &Schedule, hints: &mut Hints, from: usize) -> Faults
    ensures { (result.hold ≡ starved s.now.count s.now.home s.now.rows.ns.now from (s.now.uploads - from))
        × (result.transfer ≡ unbacked s.now.count s.now.home s.now.rows.ns.now from (s.now.uploads - from)) }
{
    let ns = s.rows.ns;
    let end = ns.len() / 4;
    let mut seen = Seen {
        second: 0,
        word: standing(s, hints, 0),
    };
    let mut low = end;
    let mut late = end;
    for i in from..s.uploads {
        let r = row(ns, i);
        seen = seen_at(s, hints, seen, second(r));
        let hold = unfed(s.rows, hints, seen.word, seen.second, r.b);
        low = hold.min(low);
        late = unbacked(ns, seen.word, r.a, i).min(late);
    }
    Faults {
        hold: low,
        transfer: late,
    }
}

// Hold i is the first such one, or no copy may come to its start.
fn fails(s: &Schedule, hints: &mut Hints, low: usize, i: usize) -> bool
    ensures { result ≡ either (eqb i low) (not (fed s.now.home s.now.rows.ns.now (second_of (row_at s.now.rows.ns.now i)) (server_of (row_at s.now.rows.ns.now i)))) }
{
    let r = row(s.rows.ns, i);
    i == low || !fed(s, hints, second(r), r.a)
}

// Each of the first rows: holds.
fn holds_fault(s: &Schedule, hints: &mut Hints, low: usize, holds: usize) -> Verdict
    requires { holds ≤ row_count s.now.rows.ns.now }
    ensures { result ≡ first (each (hold_test s.now.home s.now.rows.ns.now low) holds) }
{
    for i in 0..holds {
        refuse_if(fails(s, hints, low, i), Reason::NoCopy, place(i))?;
    }
    Ok(())
}

// The first transfer with no copy, if there is one.
fn transfer_fault(ns: &[u32], late: usize) -> Verdict
    requires { late ≤ row_count ns.now }
    ensures { result ≡ first (transfer_test ns.now late) }
{
    refuse_if(late < ns.len() / 4, Reason::NoCopy, place(late))
}

// 17 for each row.
pub(crate) fn copies_fault(s: &Schedule) -> Verdict
    ensures { result ≡ first (copy_tests s.now.count s.now.home s.now.rows.ns.now) }
{
    let mut hints = no_hints();
    let holds = from_second(s.rows, &mut hints, 0);
    let faults = scan(s, &mut hints, holds);
    holds_fault(s, &mut hints, faults.hold, holds)?;
    transfer_fault(s.rows.ns, faults.transfer)
}
