// The servers where a copy stands at a second, as a set in a word.
ghost use Rattle.std.specs.Prelude.{◌≡◌, ◌≤◌};
ghost use Rattle.rows.specs.Passes.{join, covers};
ghost use Rattle.checker.specs.Quick.{reaches, with_hold, gather, begun, first_upload, uploaded_to, standing_at};
ghost use Rattle.checker.specs.Skips.{Skips};

use crate::hints::{Hints, after_holds, after_second, from_second, from_upload};
use crate::search::Rows;
use rows::{covers, join, member, row, servers_of, settled};

// A schedule's rows and its first upload, and the number of servers and home, as its log says them.
#[derive(Clone, Copy)]
pub(crate) struct Schedule<'a> {
    pub(crate) rows: Rows<'a>,
    pub(crate) uploads: usize,
    pub(crate) count: u32,
    pub(crate) home: u32,
    ghost first: { uploads ≡ first_upload rows.ns.now 0 },
}

// Does the last hold of server x that began before second t reach it?
pub(crate) fn reaches(rows: Rows, hints: &mut Hints, t: u32, x: u32) -> bool
    ensures { result ≡ reaches rows.entry.ns.now t x }
{
    let p = after_holds(rows, hints, x, t);
    p != 0 && covers(t, x, row(rows.ns, p - 1))
}

// The set with server x of some, where a hold keeps the copy there up to second t.
#[tactic(auto, unfolding(crate::specs::Quick::with_hold))]
fn with_hold(rows: Rows, hints: &mut Hints, t: u32, some: u64, w: u64, x: u32) -> u64
    ensures { result ≡ with_hold rows.entry.ns.now t some w x }
{
    if member(some, x) && reaches(rows, hints, t, x) {
        join(w, x)
    } else {
        w
    }
}

// The next server of a set from x on, below the count; the count where there is none.
fn next(some: u64, x: u32, count: u32) -> u32
    requires { x ≤ count }
    ensures { (x ≤ result) × (result ≤ count) × Skips some x result }
{
    if 64 <= x {
        return count;
    }
    count.min(x + base::sets::lowest(some >> x))
}

// With all of them below the count.
fn gather(rows: Rows, hints: &mut Hints, t: u32, some: u64, start: u64, count: u32) -> u64
    ensures { result ≡ gather rows.entry.ns.now t some start count }
{
    let mut w = start;
    let mut x = next(some, 0, count);
    while x < count {
        w = with_hold(rows, hints, t, some, w, x);
        x = next(some, x + 1, count);
    }
    w
}

// At second 0 the copy is at home.
#[tactic(auto, unfolding(crate::specs::Quick::begun))]
fn start(home: u32, t: u32) -> u64
    ensures { result ≡ begun home t }
{
    if t == 0 { join(0, home) } else { 0 }
}

// At second t home, if t is 0, and the targets of its uploads. The first upload of all is known, so that without any none is looked for.
fn uploaded(s: &Schedule, hints: &mut Hints, t: u32) -> u64
    ensures { result ≡ uploaded_to s.now.home s.now.rows.ns.now t }
{
    let w = start(s.home, t);
    if s.rows.ns.len() / 4 <= s.uploads {
        return w;
    }
    let from = from_upload(s.rows, hints, t, 0);
    let to = from_upload(s.rows, hints, t, 64);
    servers_of(s.rows.ns, from, to, w)
}

// Where a copy stands at second t, of the sources of its transfers and of the servers that no hold keeps up to t.
pub(crate) fn standing(s: &Schedule, hints: &mut Hints, t: u32) -> u64
    ensures { result ≡ standing_at s.now.count s.now.home s.now.rows.ns.now t }
{
    let rows = s.rows;
    let from = from_second(rows, hints, t);
    let to = after_second(rows, hints, t);
    let some = servers_of(rows.ns, from, to, 0);
    let w = uploaded(s, hints, t);
    let w = gather(rows, hints, t, some, w, s.count);
    settled(rows.ns, t, from, to, s.count, w)
}
