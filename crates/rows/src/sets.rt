// Sets of servers in a word, by passes over some rows of a list.
ghost use Rattle.std.specs.Prelude.{◌≡◌, ◌-◌, ◌≤◌};
ghost use Rattle.base.specs.Sets.{has};
ghost use Rattle.model.specs.Checking.{row_count};
ghost use Rattle.rows.specs.Reading.{as_row};
ghost use Rattle.rows.specs.Passes.{join, servers, arrival, along, settle, upto};

use crate::Quad;
use crate::kinds::Row;
use crate::reading::whole;

// Is server x in the set?
pub fn member(w: u64, x: u32) -> bool
    ensures { result ≡ has w x }
{
    x < 64 && base::sets::has(w, x as u16)
}

// The set with server x, for which a word has room below 64.
#[tactic(auto, using(std::proofs::lemmas::Bool::Decides::nat_tests), unfolding(crate::specs::Passes::join))]
pub fn join(w: u64, x: u32) -> u64
    ensures { result ≡ join w x }
{
    if 64 <= x {
        return w;
    }
    base::sets::put(w, x as u16)
}

// The set with the servers where holds begin, transfers leave and uploads arrive, of the rows from one on up to another.
#[tactic(auto, using(crate::specs::PassSteps::server_more), unfolding(crate::specs::Passes::servers))]
fn servers(ns: &[u32], from: usize, to: usize, start: u64) -> u64
    requires { to ≤ row_count ns.now }
    ensures { result ≡ servers ns.now from start (to - from) }
{
    let mut w = start;
    for i in from..to {
        w = join(w, whole(ns, i).a);
    }
    w
}

// The set with the row's target, where the row is a transfer of second t whose source is in the set.
#[tactic(auto, using(std::proofs::lemmas::Bool::Decides::nat_tests), unfolding(crate::specs::Passes::arrival))]
fn arrival(t: u32, w: u64, r: Quad) -> u64
    ensures { result ≡ arrival t w (as_row r) }
{
    match Row::of(r) {
        Row::Transfer(source, target, second) if second == t && member(w, source) => {
            join(w, target)
        }
        _ => w,
    }
}

// The rows from one on up to another, once.
#[tactic(auto, using(crate::specs::PassSteps::along_more), unfolding(crate::specs::Passes::along))]
fn along(ns: &[u32], t: u32, from: usize, to: usize, start: u64) -> u64
    requires { to ≤ row_count ns.now }
    ensures { result ≡ along ns.now t from start (to - from) }
{
    let mut w = start;
    for i in from..to {
        w = arrival(t, w, whole(ns, i));
    }
    w
}

// The rows from one on up to another, until they add nothing, but at most `count` times.
#[tactic(auto, using(crate::specs::PassSteps::settle_stop, crate::specs::PassSteps::settle_on), unfolding(crate::specs::Passes::settle))]
fn settle(ns: &[u32], t: u32, from: usize, to: usize, count: u32, start: u64) -> u64
    requires { to ≤ row_count ns.now }
    ensures { result ≡ settle count (λ w. along ns.now t from w (to - from)) start }
{
    let mut w = start;
    for _ in 0..count {
        let v = along(ns, t, from, to, w);
        if v == w {
            return w;
        }
        w = v;
    }
    w
}

// Where some rows end, if not past the last whole one.
#[tactic(auto, using(std::proofs::lemmas::Bool::Decides::nat_tests), unfolding(model::specs::Checking::row_count, crate::specs::Passes::upto))]
fn upto(ns: &[u32], to: usize) -> usize
    ensures { (result ≡ upto ns.now to) × (result ≤ row_count ns.now) }
{
    to.min(ns.len() / 4)
}

// The servers of the whole rows from one on up to another, as above.
pub fn servers_of(ns: &[u32], from: usize, to: usize, start: u64) -> u64
    ensures { result ≡ servers ns.now from start (upto ns.now to - from) }
{
    servers(ns, from, upto(ns, to), start)
}

// The whole rows from one on up to another until they add nothing, as above.
pub fn settled(ns: &[u32], t: u32, from: usize, to: usize, count: u32, start: u64) -> u64
    ensures { result ≡ settle count (λ w. along ns.now t from w (upto ns.now to - from)) start }
{
    settle(ns, t, from, upto(ns, to), count, start)
}
