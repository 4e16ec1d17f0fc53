// The first row from a place on, in rows in order: from a hint on by doubling steps, then by halving.
ghost use Rattle.std.specs.Prelude.{◌≡◌, ◌-◌, ◌<◌, ◌≤◌, ltb, eqb};
ghost use Rattle.base.specs.Choice.{pick};
ghost use Rattle.rows.specs.Reading.{as_row};
ghost use Rattle.checker.specs.Search.{key, position, InOrder, in_order-prop};

use rows::{Quad, row, second};

// Rows in order.
#[derive(Clone, Copy)]
pub(crate) struct Rows<'a> {
    pub(crate) ns: &'a [u32],
    ghost in_order: { InOrder ns.now } by { in_order-prop ns.now },
}

// Where the places of a move's kind begin.
fn base(kind: u32) -> u64
    ensures { (result ≡ pick (eqb kind 1) 268435456 34359738368) × (result ≤ 34359738368) }
{
    if kind == 1 { 268435456 } else { 34359738368 }
}

// The place of a row in the order. Transfers and uploads differ by two choices, which need no branch.
fn key(r: Quad) -> u64
    ensures { result ≡ key (as_row r) }
{
    if r.kind == 0 {
        return 4194304 * u64::from(r.a) + u64::from(r.b);
    }
    base(r.kind) + 4096 * u64::from(second(r)) + 64 * u64::from(r.a) + u64::from(r.b)
}

// Is row i before the first one at place k or later?
fn precedes(rows: Rows, k: u64, i: usize) -> bool
    ensures { result ≡ ltb i (position rows.entry.ns.now k) }
{
    i < rows.ns.len() / 4 && key(row(rows.ns, i)) < k
}

// The first row at place k or later, where it is one of some rows, from lo on up to hi: by halving.
fn within(rows: Rows, k: u64, mut lo: usize, mut hi: usize) -> usize
    requires { (lo ≤ position rows.ns.now k) × (position rows.ns.now k ≤ hi) }
    ensures { result ≡ position rows.entry.ns.now k }
{
    while lo < hi {
        let m = lo + (hi - lo) / 2;
        if precedes(rows, k, m) {
            lo = m + 1;
        } else {
            hi = m;
        }
    }
    lo
}

// The first row at place k or later, where it is not before a row: by steps that double.
fn forward(rows: Rows, k: u64, from: usize) -> usize
    requires { from ≤ position rows.ns.now k }
    ensures { result ≡ position rows.entry.ns.now k }
{
    let mut lo = from;
    let mut m = from;
    while precedes(rows, k, m) {
        lo = m + 1;
        m = lo + (m - from);
    }
    within(rows, k, lo, m)
}

// The first row at place k or later; the nearer it is after the hint, the sooner.
pub(crate) fn position(rows: Rows, k: u64, hint: usize) -> usize
    ensures { result ≡ position rows.entry.ns.now k }
{
    if hint == 0 {
        return forward(rows, k, 0);
    }
    if precedes(rows, k, hint - 1) {
        return forward(rows, k, hint);
    }
    within(rows, k, 0, hint - 1)
}
