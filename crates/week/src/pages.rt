// The week page of a log.
ghost use Rattle.std.proofs.Math.Option.{none};
ghost use Rattle.std.specs.Prelude.{◌≡◌, ◌*◌, ◌≤◌, length, take};
ghost use Rattle.prices.specs.Tariff.{built_in};
ghost use Rattle.request_log.specs.Conditions.{Accepted};
ghost use Rattle.model.specs.RowForm.{rows_upto};
ghost use Rattle.planner.specs.Answers.{planned_rows};
ghost use Rattle.planner.specs.RoomLaws.{Roomy};
ghost use Rattle.text.specs.Answers.{printed};
ghost use Rattle.week.specs.Days.{week_seconds};
ghost use Rattle.week.specs.PageLength.{page_room};
ghost use Rattle.week.specs.Pages.{page_of, last_second, page_verdict, page_left};

use crate::days::figures;
use crate::lines::put_page;
use crate::{FEW, PAGE_ROOM, WEEK};
use base::bytes::at;
use base::refusals::refuse_if;
use base::{Reason, Refusal};
use planner::{ROWS_ROOM, plan};
use request_log::{MOST_REQUESTS, last_second};
use text::give::give;

// The page of an accepted log by the rows of its plan, all in the week, at the front of a text that has room for any.
#[tactic(auto, using(crate::specs::PageLaws::few_servers, crate::specs::PageLaws::table_daily), unfolding(request_log::specs::Fields::server_count_of))]
fn put_plan(text: &mut [u8], log: &[u8], rows: &[u32], n: usize) -> usize
    requires accepted { Accepted built_in log.now × (last_second log.now ≤ week_seconds) × (page_room ≤ length text.old) }
    requires n_in_bounds { (4 * n ≤ length rows.now) × (rows_upto rows.now n ≡ planned_rows built_in none log.now) }
    ensures { (result ≤ length text.new) × (take result text.new ≡ page_of built_in log.now) }
{
    let count = usize::from(at(log, 3));
    put_page(text, figures(rows, n), count)
}

// The week page of a log, its plan in lists that have room for it; refused with 1 to 13, 36 or 31, the text as it was.
#[tactic(auto, using(crate::specs::PageLaws::roomy_answered, crate::specs::PageLaws::roomy_refused, crate::specs::PageLaws::page_parts, crate::specs::PageLaws::timely, base::specs::RefusalLaws::chain), unfolding(crate::specs::Pages::after_week, text::specs::Answers::room_verdict, text::specs::Answers::printed, base::specs::Lent::lent))]
fn page_in(log: &[u8], marks: &mut [u8], rows: &mut [u32], text: &mut [u8]) -> Result<u64, Refusal>
    requires { Roomy built_in log.now (length marks.old) (length rows.old) }
    ensures value { result ≡ printed (page_verdict built_in log.now (length text.old)) (page_of built_in log.now) }
    ensures text_after { text.new ≡ page_left built_in log.now text.old }
{
    let plan = plan(log, marks, rows)?;
    refuse_if(WEEK < last_second(log), Reason::AfterWeek, 0)?;
    let mut page = [0u8; PAGE_ROOM];
    let end = put_plan(&mut page, log, rows, plan.rows as usize);
    give(&page[..end], text)
}

// The week page of a log by the built-in table, and zeros after it; refused with 1 to 13, 36 or 31, the text as it was. For a log of few
// requests there is less to clear.
#[tactic(auto, using(planner::specs::RoomLaws::most_roomy))]
pub fn page(log: &[u8], text: &mut [u8]) -> Result<u64, Refusal>
    ensures value { result ≡ printed (page_verdict built_in log.now (length text.old)) (page_of built_in log.now) }
    ensures text_after { text.new ≡ page_left built_in log.now text.old }
{
    if log.len() <= 40 + 6 * FEW {
        let mut marks = [0u8; FEW];
        let mut rows = [0u32; 8 * FEW];
        return page_in(log, &mut marks, &mut rows, text);
    }
    let mut marks = [0u8; MOST_REQUESTS];
    let mut rows = [0u32; ROWS_ROOM];
    page_in(log, &mut marks, &mut rows, text)
}
