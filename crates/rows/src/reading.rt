// Rows by their four numbers: 0 server from to, 1 source target second, or 2 target second 0.
ghost use Rattle.std.specs.Prelude.{◌≡◌, ◌<◌, get_or};
ghost use Rattle.model.specs.Checking.{row_count};
ghost use Rattle.rows.specs.Reading.{quad_at, as_row, second_of};

use crate::Quad;
use crate::kinds::Row;

// The number at i, or 0 past the end.
fn number(ns: &[u32], i: usize) -> u32
    ensures { result ≡ get_or ns.now i 0 }
{
    ns.get(i).copied().unwrap_or(0)
}

// Row i after the whole ones: the numbers that are left, and zeros.
#[tactic(auto, using(crate::specs::ReadingLaws::quad_past), unfolding(crate::specs::Reading::quad_at))]
fn rest(ns: &[u32], i: usize) -> Quad
    ensures { result ≡ quad_at ns.now i }
{
    if ns.len() / 4 < i {
        return Quad {
            kind: 0,
            a: 0,
            b: 0,
            c: 0,
        };
    }
    let k = 4 * i;
    Quad {
        kind: number(ns, k),
        a: number(ns, k + 1),
        b: number(ns, k + 2),
        c: number(ns, k + 3),
    }
}

// Row i, from 0, one of the whole ones.
#[tactic(auto, unfolding(model::specs::Checking::row_count, crate::specs::Reading::quad_at))]
pub(crate) fn whole(ns: &[u32], i: usize) -> Quad
    requires { i < row_count ns.now }
    ensures { result ≡ quad_at ns.now i }
{
    let k = 4 * i;
    Quad {
        kind: ns[k],
        a: ns[k + 1],
        b: ns[k + 2],
        c: ns[k + 3],
    }
}

// Row i, from 0; zeros past the end.
#[tactic(auto, unfolding(model::specs::Checking::row_count))]
pub fn row(ns: &[u32], i: usize) -> Quad
    ensures { result ≡ quad_at ns.now i }
{
    if i < ns.len() / 4 {
        return whole(ns, i);
    }
    rest(ns, i)
}

// The second where a hold begins, a transfer leaves or an upload arrives.
#[tactic(auto, unfolding(crate::specs::Reading::second_of))]
pub fn second(r: Quad) -> u32
    ensures { result ≡ second_of (as_row r) }
{
    match Row::of(r) {
        Row::Hold(_, from, _) => from,
        Row::Transfer(_, _, second) => second,
        Row::Upload(_, second) => second,
    }
}
