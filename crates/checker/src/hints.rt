// Rows by server and second, each looked for from where the last one was found.
ghost use Rattle.std.specs.Prelude.{◌≡◌, suc};
ghost use Rattle.checker.specs.Search.{hold_key, second_key, upload_key, position};
ghost use Rattle.checker.specs.Quick.{first_upload};

use crate::search::{Rows, position};

// Where the last holds of each server were found, the last transfers and the last uploads; any numbers will do.
#[derive(Drop)]
pub(crate) struct Hints {
    holds: [usize; 64],
    transfers: usize,
    uploads: usize,
}

// At first all are looked for from the first row on.
pub(crate) fn no_hints() -> Hints {
    Hints {
        holds: [0; 64],
        transfers: 0,
        uploads: 0,
    }
}

// The first row at place k or later, which is then the hint.
fn found(rows: Rows, hint: &mut usize, k: u64) -> usize
    ensures { result ≡ position rows.entry.ns.now k }
{
    *hint = position(rows, k, *hint);
    *hint
}

// The first row after the holds of server x that begin before second t.
#[tactic(auto, unfolding(crate::specs::Search::hold_key))]
pub(crate) fn after_holds(rows: Rows, hints: &mut Hints, x: u32, t: u32) -> usize
    ensures { result ≡ position rows.entry.ns.now (hold_key x t) }
{
    let hint = &mut hints.holds[x.min(63) as usize];
    found(rows, hint, 4194304 * u64::from(x) + u64::from(t))
}

// The first transfer of second t or later.
#[tactic(auto, unfolding(crate::specs::Search::second_key))]
pub(crate) fn from_second(rows: Rows, hints: &mut Hints, t: u32) -> usize
    ensures { result ≡ position rows.entry.ns.now (second_key t) }
{
    found(rows, &mut hints.transfers, 268435456 + 4096 * u64::from(t))
}

// The first transfer after second t.
#[tactic(auto, unfolding(crate::specs::Search::second_key))]
pub(crate) fn after_second(rows: Rows, hints: &mut Hints, t: u32) -> usize
    ensures { result ≡ position rows.entry.ns.now (second_key (suc t)) }
{
    found(
        rows,
        &mut hints.transfers,
        268435456 + 4096 * (u64::from(t) + 1),
    )
}

// The first upload of second t to server x or a later one.
#[tactic(auto, unfolding(crate::specs::Search::upload_key))]
pub(crate) fn from_upload(rows: Rows, hints: &mut Hints, t: u32, x: u32) -> usize
    ensures { result ≡ position rows.entry.ns.now (upload_key t x) }
{
    found(
        rows,
        &mut hints.uploads,
        34359738368 + 4097 * u64::from(t) + 64 * u64::from(x),
    )
}

// The first upload of all.
#[tactic(auto, unfolding(crate::specs::Search::upload_key, crate::specs::Quick::first_upload))]
pub(crate) fn first_upload(rows: Rows) -> usize
    ensures { result ≡ first_upload rows.entry.ns.now 0 }
{
    found(rows, &mut 0, 34359738368)
}
