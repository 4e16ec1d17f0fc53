// The schedule checker.
#![tactic(auto)]

mod checking;
mod conditions;
mod copies;
mod hints;
mod search;
mod standing;

pub use checking::{check, check_uploads, check_uploads_with, check_with};
