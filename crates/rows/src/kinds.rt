// What a row is, by its kind: a hold over a second or from it on, a move to a server, and what it adds to the sums.
ghost use Rattle.std.specs.Prelude.{◌≡◌, ◌+◌, ◌-◌};
ghost use Rattle.model.specs.Schedule.{length_of, is_transfer, is_upload};
ghost use Rattle.model.specs.RowForm.{row_at};
ghost use Rattle.rows.specs.Reading.{as_row, meant};
ghost use Rattle.rows.specs.Passes.{covers, any_below, aims, puts, starts};

use crate::Quad;
use crate::reading::row;

// A row by its kind: server, from and to; source, target and second; or target and second. A kind above 1 is read as an upload, and 15 refuses it unless
// it is one.
#[derive(Clone, Copy, Debug, PartialEq, Eq)]
pub(crate) enum Row {
    Hold(u32, u32, u32),
    Transfer(u32, u32, u32),
    Upload(u32, u32),
}

impl Row {
    // The row that four numbers are.
    #[tactic(auto, using(std::proofs::lemmas::Bool::Decides::nat_tests), unfolding(model::specs::RowForm::row_of))]
    pub(crate) fn of(r: Quad) -> Row
        ensures { meant result ≡ as_row r }
    {
        match r.kind {
            0 => Row::Hold(r.a, r.b, r.c),
            1 => Row::Transfer(r.a, r.b, r.c),
            _ => Row::Upload(r.a, r.b),
        }
    }
}

// Is the row a hold of server x that began before second t and reaches it?
#[tactic(auto, using(std::proofs::lemmas::Bool::Decides::nat_tests), unfolding(crate::specs::Passes::covers))]
pub fn covers(t: u32, x: u32, r: Quad) -> bool
    ensures { result ≡ covers t x (as_row r) }
{
    match Row::of(r) {
        Row::Hold(server, from, to) => server == x && from < t && t <= to,
        _ => false,
    }
}

// Is the row a transfer to server x?
#[tactic(auto, unfolding(crate::specs::Passes::aims))]
fn aims(x: u32, r: Quad) -> bool
    ensures { result ≡ aims x (as_row r) }
{
    match Row::of(r) {
        Row::Transfer(_, target, _) => target == x,
        _ => false,
    }
}

// Is one of the rows from one on up to another a transfer to server x?
pub fn aimed(ns: &[u32], from: usize, to: usize, x: u32) -> bool
    ensures { result ≡ any_below (to - from) (λ j. aims x (row_at ns.now (from + j))) }
{
    (from..to).any(|i| aims(x, row(ns, i)))
}

// Is the row an upload of second t to server x?
#[tactic(auto, using(std::proofs::lemmas::Bool::Decides::nat_tests), unfolding(crate::specs::Passes::puts))]
pub fn puts(t: u32, x: u32, r: Quad) -> bool
    ensures { result ≡ puts t x (as_row r) }
{
    match Row::of(r) {
        Row::Upload(target, second) => target == x && second == t,
        _ => false,
    }
}

// Is the row a hold of server x that begins at second t?
#[tactic(auto, using(std::proofs::lemmas::Bool::Decides::nat_tests), unfolding(crate::specs::Passes::starts))]
pub fn starts(t: u32, x: u32, r: Quad) -> bool
    ensures { result ≡ starts t x (as_row r) }
{
    match Row::of(r) {
        Row::Hold(server, from, _) => server == x && from == t,
        _ => false,
    }
}

// The seconds that a row holds.
#[tactic(auto, unfolding(model::specs::Schedule::length_of))]
pub fn seconds(r: Quad) -> u64
    ensures { result ≡ length_of (as_row r) }
{
    match Row::of(r) {
        Row::Hold(_, from, to) => u64::from(to.saturating_sub(from)),
        _ => 0,
    }
}

// 1 for a transfer.
#[tactic(auto, unfolding(model::specs::Schedule::is_transfer))]
pub fn transfers(r: Quad) -> u64
    ensures { result ≡ is_transfer (as_row r) }
{
    match Row::of(r) {
        Row::Transfer(..) => 1,
        _ => 0,
    }
}

// 1 for an upload.
#[tactic(auto, unfolding(model::specs::Schedule::is_upload))]
pub fn uploads(r: Quad) -> u64
    ensures { result ≡ is_upload (as_row r) }
{
    match Row::of(r) {
        Row::Upload(..) => 1,
        _ => 0,
    }
}
