// The rows of a schedule where they stand in its numbers: each one alone, and passes over some of them.
#![tactic(auto)]

mod forms;
mod kinds;
mod reading;
mod sets;

pub use forms::rows_fault;
pub use kinds::{aimed, covers, puts, seconds, starts, transfers, uploads};
pub use reading::{row, second};
pub use sets::{join, member, servers_of, settled};

// A row's four numbers: its kind and three more.
#[derive(Clone, Copy, Debug, PartialEq, Eq)]
pub struct Quad {
    pub kind: u32,
    pub a: u32,
    pub b: u32,
    pub c: u32,
}
