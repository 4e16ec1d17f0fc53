// The quote of 02's Req 07: a figure within twice the least cost, after the log is judged in one pass over its requests.
#![tactic(auto)]

mod quoting;
mod requests;

pub use quoting::{quote, quote_with};
