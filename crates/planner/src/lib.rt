// The planner: the cheapest schedule that there could have been, and the least cost of every prefix.
#![tactic(auto)]

mod costs;
mod holders;
mod planning;
mod reads;
mod requests;
mod rows;
mod table;
mod walk;

pub use costs::{least, least_uploads, least_uploads_with, least_with};
pub use planning::{plan, plan_uploads, plan_uploads_with, plan_with};
use request_log::MOST_REQUESTS;

// A plan: its cost and the number of its rows.
#[derive(Clone, Copy, Debug, PartialEq, Eq)]
pub struct Planned {
    pub cost: u64,
    pub rows: u32,
}

// What stands for the previous request of a request that has none.
const NONE: u16 = 65535;

// Home and the requests, or the costs of the first 0, 1, 2, .. requests.
pub const PLACES: usize = 1 + MOST_REQUESTS;

// Room for the numbers of any plan's rows: two rows for each request, four numbers for each row.
pub const ROWS_ROOM: usize = 4 * (2 * MOST_REQUESTS);
