// The plan of a log: its cost, its marks and its rows.
ghost use Rattle.std.proofs.Math.Option.{none, some};
ghost use Rattle.std.specs.Prelude.{◌≡◌, ◌<◌, ◌≤◌, length, take};
ghost use Rattle.prices.specs.PriceLaws.{Priced};
ghost use Rattle.prices.specs.Tariff.{tariff_of, built_in, price_file};
ghost use Rattle.prices.specs.Uploads.{if_given};
ghost use Rattle.model.specs.Requests.{Within};
ghost use Rattle.planner.specs.Answers.{plan_verdict, planned, marks_left, rows_left};
ghost use Rattle.planner.specs.Asked.{asks};
ghost use Rattle.planner.specs.Fees.{rated};
ghost use Rattle.planner.specs.Fits.{Ready};
ghost use Rattle.planner.specs.PlanAnswer.{Marked, Answered, PlanAnswered, marked_rows};

use crate::holders::{holders, row_count};
use crate::requests::{Summary, load};
use crate::rows::Basis;
use crate::table::fill;
use crate::walk::write_marks;
use crate::{PLACES, Planned};
use base::bytes::clear;
use base::refusals::refuse_if;
use base::{Reason, Refusal};
use prices::Tariff;
use request_log::MOST_REQUESTS;

// The answer, from the marks of n requests and their cost.
fn answer(
    n: u16,
    count: u8,
    cost: u64,
    seconds: &[u32],
    servers: &[u16],
    letters: &[u8],
    marks: &mut [u8],
    rows: &mut [u32],
) -> Result<Planned, Refusal>
    requires { Marked n count seconds.now servers.now letters.now }
    ensures { Answered (marked_rows n count seconds.now servers.now letters.now) n cost (take n letters.now) marks.old rows.old result marks.new rows.new }
{
    let words = holders(servers, letters, n);
    let found = row_count(&words, letters, n);
    let end = usize::from(n);
    let needed = 4 * (found as usize);
    refuse_if(marks.len() < end, Reason::ShortOutput, end as u64)?;
    refuse_if(rows.len() < needed, Reason::ShortOutput, needed as u64)?;
    marks[..end].copy_from_slice(&letters[..end]);
    clear(marks, end);
    let basis = Basis {
        times: seconds,
        servers,
        words: &words,
        letters,
        n,
    };
    basis.put_all(count, found, rows);
    clear(rows, needed);
    Ok(Planned { cost, rows: found })
}

// The plan of the requests that were read.
fn plan_of(
    summary: Summary,
    seconds: &[u32; PLACES],
    servers: &[u16; PLACES],
    previous: &[u16; PLACES],
    marks: &mut [u8],
    rows: &mut [u32],
) -> Result<Planned, Refusal>
    requires ready { Ready (rated summary.fees) seconds.now servers.now previous.now summary.requests }
    requires server_count_bound { (summary.server_count ≤ 64) × Within summary.server_count (asks seconds.now servers.now) summary.requests }
    ensures { PlanAnswered (rated summary.fees) (asks seconds.now servers.now) summary.requests summary.server_count marks.old rows.old result marks.new rows.new }
{
    let mut costs = [0u64; PLACES];
    let mut keeps = [0u64; PLACES];
    let mut letters = [0u8; MOST_REQUESTS];
    let n = summary.requests;
    fill(
        summary.fees,
        seconds,
        servers,
        previous,
        n,
        &mut costs,
        &mut keeps,
    );
    write_marks(
        summary.fees,
        seconds,
        servers,
        previous,
        &costs,
        &keeps,
        n,
        &mut letters,
    );
    answer(
        n,
        summary.server_count,
        costs[usize::from(n)],
        seconds,
        servers,
        &letters,
        marks,
        rows,
    )
}

// The cheapest schedule that there could have been for a log (01's 'The plan'), by a price file and what that was answered, and by an upload price if one is
// given (02's Req 11): its cost, its marks as letters and its rows.
fn plan_by(
    tariff: Tariff,
    upload: Option<u32>,
    log: &[u8],
    marks: &mut [u8],
    rows: &mut [u32],
) -> Result<Planned, Refusal>
    requires { Priced (tariff_of tariff) }
    ensures value { result ≡ planned (plan_verdict (tariff_of tariff.entry) (if_given upload) log.now (length marks.old) (length rows.old)) (tariff_of tariff.entry) (if_given upload) log.now }
    ensures marks_after { marks.new ≡ marks_left (tariff_of tariff.entry) (if_given upload) log.now marks.old rows.old }
    ensures rows_after { rows.new ≡ rows_left (tariff_of tariff.entry) (if_given upload) log.now marks.old rows.old }
{
    let mut seconds = [0u32; PLACES];
    let mut servers = [0u16; PLACES];
    let mut previous = [0u16; PLACES];
    let summary = load(
        tariff,
        upload,
        log,
        &mut seconds,
        &mut servers,
        &mut previous,
    )?;
    plan_of(summary, &seconds, &servers, &previous, marks, rows)
}

// The same by the built-in table, with no upload price.
pub fn plan(log: &[u8], marks: &mut [u8], rows: &mut [u32]) -> Result<Planned, Refusal>
    ensures value { result ≡ planned (plan_verdict built_in none log.now (length marks.old) (length rows.old)) built_in none log.now }
    ensures marks_after { marks.new ≡ marks_left built_in none log.now marks.old rows.old }
    ensures rows_after { rows.new ≡ rows_left built_in none log.now marks.old rows.old }
{
    plan_by(Tariff::built_in(), None, log, marks, rows)
}

// The same by a price file.
#[tactic(auto, using(prices::specs::PriceLaws::file_priced), unfolding(prices::specs::Uploads::if_given))]
pub fn plan_with(
    prices: &[u8],
    log: &[u8],
    marks: &mut [u8],
    rows: &mut [u32],
) -> Result<Planned, Refusal>
    ensures value { result ≡ planned (plan_verdict (price_file prices.now) none log.now (length marks.old) (length rows.old)) (price_file prices.now) none log.now }
    ensures marks_after { marks.new ≡ marks_left (price_file prices.now) none log.now marks.old rows.old }
    ensures rows_after { rows.new ≡ rows_left (price_file prices.now) none log.now marks.old rows.old }
{
    plan_by(Tariff::of_file(prices), None, log, marks, rows)
}

// The same by the built-in table, with an upload price.
pub fn plan_uploads(
    upload: u32,
    log: &[u8],
    marks: &mut [u8],
    rows: &mut [u32],
) -> Result<Planned, Refusal>
    ensures value { result ≡ planned (plan_verdict built_in (some upload) log.now (length marks.old) (length rows.old)) built_in (some upload) log.now }
    ensures marks_after { marks.new ≡ marks_left built_in (some upload) log.now marks.old rows.old }
    ensures rows_after { rows.new ≡ rows_left built_in (some upload) log.now marks.old rows.old }
{
    plan_by(Tariff::built_in(), Some(upload), log, marks, rows)
}

// The same by a price file.
#[tactic(auto, using(prices::specs::PriceLaws::file_priced), unfolding(prices::specs::Uploads::if_given))]
pub fn plan_uploads_with(
    prices: &[u8],
    upload: u32,
    log: &[u8],
    marks: &mut [u8],
    rows: &mut [u32],
) -> Result<Planned, Refusal>
    ensures value { result ≡ planned (plan_verdict (price_file prices.now) (some upload) log.now (length marks.old) (length rows.old)) (price_file prices.now) (some upload) log.now }
    ensures marks_after { marks.new ≡ marks_left (price_file prices.now) (some upload) log.now marks.old rows.old }
    ensures rows_after { rows.new ≡ rows_left (price_file prices.now) (some upload) log.now marks.old rows.old }
{
    plan_by(Tariff::of_file(prices), Some(upload), log, marks, rows)
}
