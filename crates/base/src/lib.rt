// What every crate above needs: why a call is refused, sets of servers in a word, total reads of bytes.
#![tactic(auto)]

pub mod bytes;
mod reasons;
pub mod refusals;
pub mod sets;

pub use reasons::Reason;

// A refusal: its reason and its place, which is 0 unless 01 or 02 names one.
#[derive(Clone, Copy, Debug, PartialEq, Eq)]
pub struct Refusal {
    pub reason: Reason,
    pub place: u64,
}

// What a list of conditions gives: nothing, or the refusal by the first that holds.
pub type Verdict = Result<(), Refusal>;
