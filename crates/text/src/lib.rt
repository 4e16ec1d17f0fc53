// Printed lines as bytes in a text that is lent: what every page is made of, and the line of a refusal.
#![tactic(auto)]

pub mod give;
pub mod put;
mod refusal;

pub use refusal::{put_refusal, refusal_line};

// Room for the line of any refusal.
pub const REFUSAL_ROOM: usize = 64;
