// The sheet of a log.
ghost use Rattle.std.proofs.Math.Option.{none};
ghost use Rattle.std.specs.Prelude.{◌≡◌, ◌≤◌, length, take};
ghost use Rattle.base.specs.Lent.{lent};
ghost use Rattle.prices.specs.Tariff.{built_in, price_file};
ghost use Rattle.request_log.specs.Sizes.{most_requests};
ghost use Rattle.request_log.specs.Fields.{header_of, request_count, seconds_of, servers_of};
ghost use Rattle.request_log.specs.Conditions.{Accepted, verdict_of};
ghost use Rattle.request_log.specs.Answers.{decoded};
ghost use Rattle.planner.specs.Sizes.{places};
ghost use Rattle.planner.specs.Answers.{marks_of, planned_rows, least_costs};
ghost use Rattle.text.specs.Answers.{printed};
ghost use Rattle.report.specs.Sizes.{sheet_room};
ghost use Rattle.report.specs.Sheet.{sheet_of, sheet_verdict, text_left};
ghost use Rattle.report.specs.Replies.{rows_planned};
ghost use Rattle.report.specs.Alike.{Alike};

use crate::SHEET_ROOM;
use crate::columns::give_live;
use crate::lines::{Columns, put_lines};
use base::Refusal;
use live::{closing, open};
use planner::{PLACES, Planned, ROWS_ROOM, least_with, plan_with};
use prices::built_in;
use request_log::{Decoded, Header, MOST_REQUESTS, read_with};
use text::give::give;

// Room for any sheet.
fn room() -> [u8; SHEET_ROOM]
    ensures { sheet_room ≡ length result }
{
    [0u8; SHEET_ROOM]
}

// The number of a plan's rows.
#[tactic(auto, unfolding(crate::specs::Replies::rows_planned))]
fn row_count(planned: Result<Planned, Refusal>) -> u64
    ensures { result ≡ rows_planned planned }
{
    match planned {
        Ok(plan) => u64::from(plan.rows),
        Err(_) => 0,
    }
}

// Read a log, into lists that have room for any.
#[tactic(auto, using(request_log::specs::AnswerLaws::read_long))]
fn read_requests(prices: &[u8], log: &[u8], seconds: &mut [u32], servers: &mut [u16]) -> Decoded
    requires { (length seconds.old ≡ most_requests) × (length servers.old ≡ most_requests) }
    ensures value { result ≡ decoded (verdict_of (price_file prices.now) log.now) log.now }
    ensures seconds_after { seconds.new ≡ lent (verdict_of (price_file prices.now) log.now) (seconds_of log.now) seconds.old }
    ensures servers_after { servers.new ≡ lent (verdict_of (price_file prices.now) log.now) (servers_of log.now) servers.old }
{
    read_with(prices, log, seconds, servers)
}

// The marks of an accepted log's plan, and the number of the plan's rows.
fn plan_marks(prices: &[u8], log: &[u8], marks: &mut [u8]) -> u64
    requires { Accepted (price_file prices.now) log.now × (length marks.old ≡ most_requests) }
    ensures value { result ≡ length (planned_rows (price_file prices.now) none log.now) }
    ensures marks_after { marks.new ≡ lent (Ok tt) (marks_of (price_file prices.now) none log.now) marks.old }
{
    let mut rows = [0u32; ROWS_ROOM];
    row_count(plan_with(prices, log, marks, &mut rows))
}

// The least costs of its first requests.
fn find_least(prices: &[u8], log: &[u8], costs: &mut [u64])
    requires { Accepted (price_file prices.now) log.now × (length costs.old ≡ places) }
    ensures { costs.new ≡ lent (Ok tt) (least_costs (price_file prices.now) none log.now) costs.old }
{
    let _ = least_with(prices, log, costs);
}

// The sheet of an accepted log, of what was read of it, at the front of a text that has room for any.
fn put_sheet(
    prices: &[u8],
    log: &[u8],
    header: Header,
    n: usize,
    seconds: &[u32],
    servers: &[u16],
    text: &mut [u8],
) -> usize
    requires accepted { Accepted (price_file prices.now) log.now × (header ≡ header_of log.now) × (n ≡ request_count log.now) }
    requires alike { Alike seconds.now (seconds_of log.now) × Alike servers.now (servers_of log.now) }
    requires seconds_len { (length seconds.now ≡ most_requests) × (length servers.now ≡ most_requests) × (sheet_room ≤ length text.old) }
    ensures { (result ≤ length text.new) × (take result text.new ≡ sheet_of (price_file prices.now) log.now) }
{
    let mut marks = [0u8; MOST_REQUESTS];
    let mut costs = [0u64; PLACES];
    let mut live_marks = [0u8; MOST_REQUESTS];
    let mut live_costs = [0u64; MOST_REQUESTS];
    let rows = plan_marks(prices, log, &mut marks);
    find_least(prices, log, &mut costs);
    let cache = open(prices, header);
    let end = give_live(
        cache,
        header.id,
        seconds,
        servers,
        n,
        &mut live_marks,
        &mut live_costs,
    );
    let close = closing(end);
    let columns = Columns {
        seconds,
        servers,
        plan: &marks,
        live: &live_marks,
        least: &costs,
        costs: &live_costs,
    };
    put_lines(text, columns, n, rows, close)
}

// The sheet of a log by a price file, and zeros after it; refused with 37, 38, 1 to 13 or 31, the text as it was.
pub fn sheet_with(prices: &[u8], log: &[u8], text: &mut [u8]) -> Result<u64, Refusal>
    ensures value { result ≡ printed (sheet_verdict (price_file prices.now) log.now (length text.old)) (sheet_of (price_file prices.now) log.now) }
    ensures text_after { text.new ≡ text_left (price_file prices.now) log.now text.old }
{
    let mut seconds = [0u32; MOST_REQUESTS];
    let mut servers = [0u16; MOST_REQUESTS];
    let decoded = read_requests(prices, log, &mut seconds, &mut servers);
    let header = decoded.header;
    let n = decoded.outcome?;
    let mut page = room();
    let end = put_sheet(
        prices,
        log,
        header,
        usize::from(n),
        &seconds,
        &servers,
        &mut page,
    );
    give(&page[..end], text)
}

// The same by the built-in table: refused with 1 to 13 or 31.
#[tactic(auto, using(prices::specs::FileLaws::built_in_file))]
pub fn sheet(log: &[u8], text: &mut [u8]) -> Result<u64, Refusal>
    ensures value { result ≡ printed (sheet_verdict built_in log.now (length text.old)) (sheet_of built_in log.now) }
    ensures text_after { text.new ≡ text_left built_in log.now text.old }
{
    sheet_with(&built_in(), log, text)
}
