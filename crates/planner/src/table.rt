// The table of least costs, forward (model's TableRows): C(i) is the least cost of the first i requests, D(i) that with request i kept.
ghost use Rattle.std.specs.Prelude.{◌≡◌, ◌++◌, suc, ◌+◌, ◌*◌, ◌-◌, ◌^◌, ◌≤◌, ◌<◌, length, drop, set};
ghost use Rattle.base.specs.Choice.{either};
ghost use Rattle.prices.specs.Uploads.{if_given};
ghost use Rattle.model.specs.Rates.{some?, upload_fee};
ghost use Rattle.model.proofs.TableLists.{at, lists};
ghost use Rattle.model.proofs.TableRows.{row, next_D, next_C, Tabled};
ghost use Rattle.planner.specs.Asked.{asks};
ghost use Rattle.planner.specs.Fees.{rated};
ghost use Rattle.planner.specs.Terms.{away_of, terms_of, shut_by, bare_by, first_price, lesser, own_cost, next_cost};
ghost use Rattle.planner.specs.Fits.{Ready, Owned};
ghost use Rattle.planner.specs.Prepared.{rates_of, asks_of, Prepared};

use crate::requests::Fees;
use crate::{NONE, PLACES};
use prices::times;

// What a request adds to the cost if it is not kept, and the letter of its mark.
#[derive(Clone, Copy)]
pub(crate) struct Away {
    pub(crate) price: u64,
    pub(crate) letter: u8,
}

// What a request may be, and what that adds to the cost: the request that it can be kept from (NONE where there is none),
// whether a transfer may serve it, whether it may be other than K, and what it costs to hold over its span and over the gap before it.
#[derive(Clone, Copy)]
pub(crate) struct Terms {
    pub(crate) from: u16,
    pub(crate) sendable: bool,
    pub(crate) free: bool,
    pub(crate) span: u64,
    pub(crate) gap: u64,
}

// The requests that the table is made from, as they are read from a log, and what they are billed by.
#[derive(Clone, Copy)]
struct Asked<'a> {
    fees: Fees,
    seconds: &'a [u32; PLACES],
    servers: &'a [u16; PLACES],
    previous: &'a [u16; PLACES],
}

// What it costs to hold from one second to another.
fn held(hold: u32, from: u32, to: u32) -> u64
    requires { from ≤ to }
    ensures { result ≡ hold * (to - from) }
{
    times(hold, to - from)
}

// What a request adds if it is not kept, by the upload price, by whether a transfer may serve it and by what S adds: S where it is no dearer than U.
pub(crate) fn unkept(upload: Option<u32>, sendable: bool, sent: u64) -> Away
    ensures { result ≡ away_of (if_given upload) sendable sent }
{
    if let Some(price) = upload {
        let load = u64::from(price);
        if !sendable || load < sent {
            return Away {
                price: load,
                letter: b'U',
            };
        }
    }
    Away {
        price: sent,
        letter: b'S',
    }
}

// A request may be other than K: a transfer may serve it, or an upload price is given.
#[tactic(auto, using(crate::specs::FeeLaws::is_offered))]
fn may_leave(upload: Option<u32>, sendable: bool) -> bool
    ensures { result ≡ either sendable (some? (if_given upload)) }
{
    sendable || upload.is_some()
}

// What a request adds if it is not kept and the gap before it is covered.
#[tactic(auto, unfolding(crate::specs::Terms::away_of, crate::specs::Terms::shut_by))]
pub(crate) fn shut(fees: Fees, a: Terms) -> u64
    ensures { result ≡ shut_by (rated fees) a }
{
    unkept(fees.upload, a.sendable, u64::from(fees.transfer)).price
}

// The same where the gap is not covered.
fn bare(fees: Fees, a: Terms) -> u64
    requires { (a.gap < 2 ^ 60) × (upload_fee (rated fees) < 2 ^ 60) }
    ensures { (result ≡ bare_by (rated fees) a) × (result < 2 ^ 61) }
{
    let transfer = u64::from(fees.transfer);
    let sent = transfer + a.gap;
    unkept(fees.upload, a.sendable, sent).price
}

// What a server's first request adds where the gap before it is covered: it is at another server than the request before it.
#[tactic(auto, unfolding(crate::specs::Terms::away_of, crate::specs::Terms::first_price), using(model::proofs::Leaving::cheaper_most))]
fn first(fees: Fees) -> u64
    ensures { (result ≡ first_price (rated fees)) × (result < 2 ^ 32) }
{
    unkept(fees.upload, true, u64::from(fees.transfer)).price
}

// The lesser of what not keeping and keeping cost, over what is legal.
#[tactic(auto, unfolding(crate::specs::Terms::lesser))]
fn lesser(a: Terms, gone: u64, kept: u64) -> u64
    ensures { result ≡ lesser a gone kept }
{
    if a.from == NONE {
        return gone;
    }
    if a.free {
        return gone.min(kept);
    }
    kept
}

// The cost with one more request, after v for those before it: a server's first is not kept; any other costs what it costs by itself, and no more than d, its D.
#[tactic(auto, unfolding(crate::specs::Terms::next_cost))]
fn next_cost(fees: Fees, from: u16, own: u64, d: u64, v: u64) -> u64
    requires { (own < 2 ^ 60) × (v < 2 ^ 60) }
    ensures { result ≡ next_cost (rated fees) from own d v }
{
    if from == NONE {
        return first(fees) + v;
    }
    (own + v).min(d)
}

// C(i + 1), by the terms of that request, d, its D, and v, which is C(i).
fn next_least(fees: Fees, a: Terms, d: u64, v: u64) -> u64
    requires { (a.gap < 2 ^ 60) × (upload_fee (rated fees) < 2 ^ 60) × (v < 2 ^ 60) }
    ensures { result ≡ lesser a (bare_by (rated fees) a + v) d }
{
    lesser(a, bare(fees, a) + v, d)
}

impl<'a> Asked<'a> {
    // The terms of request i + 1.
    fn terms(self, i: u16) -> Terms
        requires { Prepared self (suc i) }
        ensures { result ≡ terms_of (rates_of self.entry) (asks_of self.entry) i }
    {
        let k = usize::from(i);
        let from = self.previous[k + 1];
        let second = self.seconds[k + 1];
        let sendable = self.servers[k + 1] != self.servers[k];
        let gap = held(self.fees.hold, self.seconds[k], second);
        let free = may_leave(self.fees.upload, sendable);
        let span = if from == NONE {
            0
        } else {
            held(self.fees.hold, self.seconds[usize::from(from)], second)
        };
        Terms {
            from,
            sendable,
            free,
            span,
            gap,
        }
    }

    // The least that request i + 1 costs by itself.
    #[tactic(auto, unfolding(crate::specs::Terms::own_cost))]
    fn own_cost(self, i: u16) -> u64
        requires { Prepared self (suc i) }
        ensures { result ≡ own_cost (rates_of self.entry) (terms_of (rates_of self.entry) (asks_of self.entry) i) }
    {
        let a = self.terms(i);
        lesser(a, shut(self.fees, a), a.span)
    }

    // That of each of n requests, from place 1 of a list on.
    fn own_costs(self, n: u16, owns: &mut [u64])
        requires ready { Prepared self n }
        requires n_in_bounds { n < length owns.old }
        ensures { Owned (rates_of self.entry) (asks_of self.entry) n owns.new }
    {
        for i in 0..n {
            owns[usize::from(i) + 1] = self.own_cost(i);
        }
    }

    // The least cost of i requests where the gaps above c are covered.
    fn row(self, owns: &[u64; PLACES], costs: &[u64], keeps: &[u64], c: u16, i: u16) -> u64
        requires ready { Prepared self i }
        requires owned { Owned (rates_of self) (asks_of self) i owns.now }
        requires tabled { Tabled (rates_of self) (asks_of self) i (at costs.now) (at keeps.now) }
        requires c_le_i { (c ≤ i) × (i < length costs.now) × (i < length keeps.now) }
        ensures { result ≡ row (rates_of self.entry) (asks_of self.entry) (at costs.now) (at keeps.now) c i }
    {
        let start = usize::from(c);
        let mut v = costs[start];
        for k in start..usize::from(i) {
            v = next_cost(
                self.fees,
                self.previous[k + 1],
                owns[k + 1],
                keeps[k + 1],
                v,
            );
        }
        v
    }

    // D(i + 1), by the terms of that request; 0 where it cannot be kept.
    fn next_keep(self, owns: &[u64; PLACES], costs: &[u64], keeps: &[u64], a: Terms, i: u16) -> u64
        requires ready { Prepared self (suc i) }
        requires owned { Owned (rates_of self) (asks_of self) i owns.now }
        requires tabled { Tabled (rates_of self) (asks_of self) i (at costs.now) (at keeps.now) }
        requires a_value { (a ≡ terms_of (rates_of self) (asks_of self) i) × (i < length costs.now) × (i < length keeps.now) }
        ensures { result ≡ next_D (rates_of self.entry) (asks_of self.entry) (at costs.now) (at keeps.now) i }
    {
        if a.from == NONE {
            return 0;
        }
        a.span + self.row(owns, costs, keeps, a.from, i)
    }

    // C(i + 1) and D(i + 1), after those up to i.
    fn extend(self, owns: &[u64; PLACES], i: u16, costs: &mut [u64], keeps: &mut [u64])
        requires ready { Prepared self (suc i) }
        requires owned { Owned (rates_of self) (asks_of self) i owns.now }
        requires tabled { Tabled (rates_of self) (asks_of self) i (at costs.old) (at keeps.old) }
        requires i_in_bounds { (suc i < length costs.old) × (suc i < length keeps.old) }
        ensures costs_after { costs.new ≡ set costs.old (suc i) (next_C (rates_of self.entry) (asks_of self.entry) i (next_D (rates_of self.entry) (asks_of self.entry) (at costs.old) (at keeps.old) i) (at costs.old i)) }
        ensures keeps_after { keeps.new ≡ set keeps.old (suc i) (next_D (rates_of self.entry) (asks_of self.entry) (at costs.old) (at keeps.old) i) }
    {
        let k = usize::from(i);
        let a = self.terms(i);
        let d = self.next_keep(owns, costs, keeps, a, i);
        costs[k + 1] = next_least(self.fees, a, d, costs[k]);
        keeps[k + 1] = d;
    }
}

// The terms of request i + 1.
pub(crate) fn terms_at(
    fees: Fees,
    seconds: &[u32; PLACES],
    servers: &[u16; PLACES],
    previous: &[u16; PLACES],
    i: u16,
) -> Terms
    requires { Ready (rated fees) seconds.now servers.now previous.now (suc i) }
    ensures { result ≡ terms_of (rated fees) (asks seconds.now servers.now) i }
{
    let asked = Asked {
        fees,
        seconds,
        servers,
        previous,
    };
    asked.terms(i)
}

// C(0) to C(n) and D(0) to D(n), at the front of two lists.
pub(crate) fn fill(
    fees: Fees,
    seconds: &[u32; PLACES],
    servers: &[u16; PLACES],
    previous: &[u16; PLACES],
    n: u16,
    costs: &mut [u64],
    keeps: &mut [u64],
)
    requires ready { Ready (rated fees) seconds.now servers.now previous.now n }
    requires n_in_bounds { (n < length costs.old) × (n < length keeps.old) }
    ensures costs_after { costs.new ≡ (lists (rated fees) (asks seconds.now servers.now) n).costs ++ drop (suc n) costs.old }
    ensures keeps_after { keeps.new ≡ (lists (rated fees) (asks seconds.now servers.now) n).keeps ++ drop (suc n) keeps.old }
{
    costs[0] = 0;
    keeps[0] = 0;
    if n == 0 {
        return;
    }
    let asked = Asked {
        fees,
        seconds,
        servers,
        previous,
    };
    let mut owns = [0u64; PLACES];
    asked.own_costs(n, &mut owns);
    for i in 0..n {
        asked.extend(&owns, i, costs, keeps);
    }
}
