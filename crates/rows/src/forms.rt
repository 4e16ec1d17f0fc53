// The conditions 15 and 16 on the rows of a list: each is well formed, and may follow the one before it.
ghost use Rattle.std.specs.Prelude.{◌≡◌, not, ◌<◌, eqb};
ghost use Rattle.base.specs.Choice.{either};
ghost use Rattle.base.specs.Refusals.{first, each};
ghost use Rattle.model.specs.RowForm.{fits, follows};
ghost use Rattle.model.specs.Checking.{row_count, kind_fits, misplaced};
ghost use Rattle.rows.specs.Reading.{as_row, meant};
ghost use Rattle.rows.specs.Passes.{offering, row_tests};

use crate::Quad;
use crate::kinds::Row;
use crate::reading::row;
use base::refusals::refuse_if;
use base::{Reason, Verdict};

// A row that fits: its servers below the count, a hold's end after its start, a transfer's target another than its source, and none past the last second.
#[tactic(auto, using(std::proofs::lemmas::Bool::Decides::nat_tests), unfolding(model::specs::RowForm::fits))]
fn fits(count: u32, last: u32, r: Row) -> bool
    ensures { result ≡ fits count last (meant r) }
{
    match r {
        Row::Hold(server, from, to) => server < count && from < to && to <= last,
        Row::Transfer(source, target, second) => {
            source != target && source < count && target < count && second <= last
        }
        Row::Upload(target, second) => target < count && second <= last,
    }
}

// A row may follow another: holds by server, then each from later than the former's end; then transfers by second, source and target; then uploads by
// second and target. Each row is matched where its numbers become one: a pair of rows made first would be tested again.
#[tactic(auto, using(std::proofs::lemmas::Bool::Decides::nat_tests), unfolding(model::specs::RowForm::follows, model::specs::RowForm::earlier))]
fn follows(r: Quad, s: Quad) -> bool
    ensures { result ≡ follows (as_row r) (as_row s) }
{
    match Row::of(s) {
        Row::Hold(y, from, _) => match Row::of(r) {
            Row::Hold(x, _, to) => x < y || x == y && to < from,
            _ => false,
        },
        Row::Transfer(v, u, s) => match Row::of(r) {
            Row::Hold(..) => true,
            Row::Transfer(y, x, t) => (t, y, x) < (s, v, u),
            Row::Upload(..) => false,
        },
        Row::Upload(u, s) => match Row::of(r) {
            Row::Upload(x, t) => t < s || t == s && x < u,
            _ => true,
        },
    }
}

// The kind of a row and its last number: 0 or 1 with any, or 2 with 0 where an upload price is given.
#[tactic(auto, using(std::proofs::lemmas::Bool::Decides::nat_tests, crate::specs::GivenLaws::given_some), unfolding(model::specs::Checking::kind_fits, crate::specs::Passes::offering))]
fn kind_fits(given: bool, r: Quad) -> bool
    ensures { result ≡ kind_fits (offering given) r.kind r.c }
{
    match r.kind {
        0 | 1 => true,
        2 => r.c == 0 && given,
        _ => false,
    }
}

// 15: a kind that does not fit, no request, or a row that does not fit.
fn misfits(given: bool, count: u32, n: u16, last: u32, r: Quad) -> bool
    ensures { result ≡ either (not (kind_fits (offering given) r.kind r.c)) (either (eqb n 0) (not (fits count last (as_row r)))) }
{
    !kind_fits(given, r) || n == 0 || !fits(count, last, Row::of(r))
}

// 16: row i may not follow the row before it.
#[tactic(auto, using(crate::specs::PassSteps::misplaced_first, crate::specs::PassSteps::misplaced_read, std::proofs::lemmas::Bool::Decides::nat_tests))]
fn misplaced(ns: &[u32], i: usize) -> bool
    ensures { result ≡ misplaced ns.now i }
{
    0 < i && !follows(row(ns, i - 1), row(ns, i))
}

// 15 and 16 for row i.
#[tactic(auto, using(crate::specs::PassSteps::row_found, base::specs::RefusalLaws::first_after_ok, base::specs::RefusalLaws::first_after_err), unfolding(model::specs::Checking::row_count))]
fn row_fault(ns: &[u32], given: bool, count: u32, n: u16, last: u32, i: usize) -> Verdict
    requires { i < row_count ns.now }
    ensures { result ≡ first (row_tests given count n last ns.now i) }
{
    let p = (i as u64) + 1;
    let bad = misfits(given, count, n, last, row(ns, i));
    refuse_if(bad, Reason::RowForm, p)?;
    refuse_if(misplaced(ns, i), Reason::RowOrder, p)
}

// 15 and 16 for each row.
#[tactic(auto, using(base::specs::RefusalLaws::each_refused, request_log::specs::ConditionLaws::each_more), unfolding(base::specs::Refusals::first, base::specs::Refusals::each, model::specs::Checking::row_count))]
pub fn rows_fault(ns: &[u32], given: bool, count: u32, n: u16, last: u32) -> Verdict
    ensures { result ≡ first (each (row_tests given count n last ns.now) (row_count ns.now)) }
{
    for i in 0..ns.len() / 4 {
        row_fault(ns, given, count, n, last, i)?;
    }
    Ok(())
}
