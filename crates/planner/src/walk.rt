// The plan's marks, by a walk back through the table (model's Walk): K wherever K attains the least cost, else S wherever S does.
ghost use Rattle.std.specs.Prelude.{◌++◌, ◌≡◌, suc, ◌^◌, ◌≤◌, ◌<◌, length, drop};
ghost use Rattle.base.specs.Lists.{build};
ghost use Rattle.model.specs.Plan.{plan};
ghost use Rattle.model.specs.Table.{best};
ghost use Rattle.model.proofs.TableLists.{at};
ghost use Rattle.model.proofs.TableRows.{Tabled};
ghost use Rattle.planner.specs.Answers.{letter};
ghost use Rattle.planner.specs.Asked.{asks};
ghost use Rattle.planner.specs.Fees.{rated};
ghost use Rattle.planner.specs.Terms.{kept_by, sent_by};
ghost use Rattle.planner.specs.Fits.{Ready};
ghost use Rattle.planner.specs.Walked.{turned, Keeps};

use crate::requests::Fees;
use crate::table::{Terms, shut, terms_at, unkept};
use crate::{NONE, PLACES};

// One step back: the letter of a request, and c and v for the requests before it.
#[derive(Clone, Copy)]
struct Turn {
    letter: u8,
    c: u16,
    v: u64,
}

// A request is K, where the gaps above c are covered: d is its D, v the cost of the requests up to it.
#[tactic(auto, unfolding(crate::specs::Terms::kept_by))]
fn kept(fees: Fees, a: Terms, c: u16, d: u64, v: u64) -> bool
    ensures { result ≡ kept_by (rated fees) a c d v }
{
    if a.from < c {
        return d == v;
    }
    a.from != NONE && (!a.free || a.span <= shut(fees, a))
}

// What S adds at request i + 1, where the gaps above c are covered.
#[tactic(auto, unfolding(crate::specs::Terms::sent_by))]
fn sent(fees: Fees, a: Terms, i: u16, c: u16) -> u64
    requires { a.gap < 2 ^ 60 }
    ensures { result ≡ sent_by (rated fees) a i c }
{
    let transfer = u64::from(fees.transfer);
    if i < c { transfer + a.gap } else { transfer }
}

// The step back from request i + 1: d is its D, v the cost of the requests up to it where the gaps above c are covered.
#[tactic(auto, using(crate::specs::TurnLaws::turned_kept, crate::specs::TurnLaws::span_most, crate::specs::TermLaws::terms_small))]
fn step_back(
    fees: Fees,
    seconds: &[u32; PLACES],
    servers: &[u16; PLACES],
    previous: &[u16; PLACES],
    i: u16,
    c: u16,
    d: u64,
    v: u64,
) -> Turn
    requires ready { Ready (rated fees) seconds.now servers.now previous.now (suc i) }
    requires v_value { (v ≡ best (rated fees) (asks seconds.now servers.now) (suc i) c) × Keeps (rated fees) (asks seconds.now servers.now) i d }
    ensures { result ≡ turned (rated fees) (asks seconds.now servers.now) i c d v }
{
    let a = terms_at(fees, seconds, servers, previous, i);
    if kept(fees, a, c, d, v) {
        return Turn {
            letter: b'K',
            c: c.min(a.from),
            v: v - a.span,
        };
    }
    let left = unkept(fees.upload, a.sendable, sent(fees, a, i, c));
    Turn {
        letter: left.letter,
        c: c.min(i),
        v: v - left.price,
    }
}

// The letters of the plan's marks for n requests, from the last to the first, over the front of a list.
pub(crate) fn write_marks(
    fees: Fees,
    seconds: &[u32; PLACES],
    servers: &[u16; PLACES],
    previous: &[u16; PLACES],
    costs: &[u64],
    keeps: &[u64],
    n: u16,
    letters: &mut [u8],
)
    requires ready { Ready (rated fees) seconds.now servers.now previous.now n }
    requires tabled { Tabled (rated fees) (asks seconds.now servers.now) n (at costs.now) (at keeps.now) }
    requires n_in_bounds { (n < length costs.now) × (n < length keeps.now) × (n ≤ length letters.old) }
    ensures { letters.new ≡ build n (λ i. letter (plan (rated fees) (asks seconds.now servers.now) n (suc i))) ++ drop n letters.old }
{
    let mut c = n;
    let mut v = costs[usize::from(n)];
    for i in (0..n).rev() {
        let k = usize::from(i);
        let t = step_back(fees, seconds, servers, previous, i, c, keeps[k + 1], v);
        letters[k] = t.letter;
        c = t.c;
        v = t.v;
    }
}
