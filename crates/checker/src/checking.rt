// The cost of a schedule, and the checker's answer.
ghost use Rattle.std.proofs.Math.Option.{none, some};
ghost use Rattle.std.specs.Prelude.{◌≡◌, ◌+◌, ◌*◌, ◌^◌, ◌<◌, ◌≤◌};
ghost use Rattle.prices.specs.PriceLaws.{Priced};
ghost use Rattle.prices.specs.Tariff.{tariff_of, built_in, price_file};
ghost use Rattle.prices.specs.Uploads.{if_given};
ghost use Rattle.model.specs.Rates.{rates, or_zero};
ghost use Rattle.model.specs.Sums.{total};
ghost use Rattle.model.specs.Schedule.{length_of, is_transfer, is_upload};
ghost use Rattle.model.specs.RowForm.{rows_of};
ghost use Rattle.model.specs.Checking.{check_cost};
ghost use Rattle.rows.specs.Reading.{as_row};
ghost use Rattle.checker.specs.CostLaws.{SumsFit};
ghost use Rattle.checker.specs.Answers.{check_answer};

use crate::conditions::schedule_fault;
use base::Refusal;
use base::bytes::at;
use prices::{Prices, Tariff, upload_fault};
use request_log::verdict;
use rows::{Quad, row, seconds, transfers, uploads};

// The seconds held, and the numbers of transfers and uploads.
#[derive(Clone, Copy)]
struct Tally {
    seconds: u64,
    transfers: u64,
    uploads: u64,
}

// The sums with one more row.
fn with_row(s: Tally, r: Quad) -> Tally
    requires { (s.seconds + length_of (as_row r) < 2 ^ 40) × (s.transfers + is_transfer (as_row r) < 2 ^ 40) × (s.uploads + is_upload (as_row r) < 2 ^ 40) }
    ensures { (result.seconds ≡ s.seconds + length_of (as_row r)) × (result.transfers ≡ s.transfers + is_transfer (as_row r))
        × (result.uploads ≡ s.uploads + is_upload (as_row r)) }
{
    Tally {
        seconds: s.seconds + seconds(r),
        transfers: s.transfers + transfers(r),
        uploads: s.uploads + uploads(r),
    }
}

// The sums of all rows.
fn counted(ns: &[u32]) -> Tally
    requires { SumsFit ns.now }
    ensures { (result.seconds ≡ total length_of (rows_of ns.now)) × (result.transfers ≡ total is_transfer (rows_of ns.now))
        × (result.uploads ≡ total is_upload (rows_of ns.now)) }
{
    let mut s = Tally {
        seconds: 0,
        transfers: 0,
        uploads: 0,
    };
    for i in 0..ns.len() / 4 {
        s = with_row(s, row(ns, i));
    }
    s
}

// The cost of all rows; an upload is 0 where no price is given.
fn cost(p: Prices, upload: Option<u32>, ns: &[u32]) -> u64
    requires { (p.hold ≤ 1000000) × (p.transfer ≤ 1000000) × (or_zero (if_given upload) ≤ 1000000)
        × SumsFit ns.now }
    ensures { result ≡ check_cost (rates p (if_given upload)) ns.now }
{
    let s = counted(ns);
    let uploads = u64::from(upload.unwrap_or(0)) * s.uploads;
    u64::from(p.hold) * s.seconds + u64::from(p.transfer) * s.transfers + uploads
}

// The cost of a schedule for a log by a price file, what that was answered, and an upload price where one is given;
// or the first condition that refuses file, log, upload price or schedule.
fn check_by(tariff: Tariff, upload: Option<u32>, log: &[u8], rows: &[u32]) -> Result<u64, Refusal>
    requires { Priced (tariff_of tariff) }
    ensures { result ≡ check_answer (tariff_of tariff.entry) (if_given upload) log.now rows.now }
{
    verdict(tariff, log)?;
    upload_fault(upload)?;
    schedule_fault(upload.is_some(), log, rows)?;
    Ok(cost(tariff.of_class(at(log, 2)), upload, rows))
}

// The same by the built-in table, with no upload price.
pub fn check(log: &[u8], rows: &[u32]) -> Result<u64, Refusal>
    ensures { result ≡ check_answer built_in none log.now rows.now }
{
    check_by(Tariff::built_in(), None, log, rows)
}

// The same by a price file.
#[tactic(auto, using(prices::specs::PriceLaws::file_priced), unfolding(prices::specs::Uploads::if_given))]
pub fn check_with(prices: &[u8], log: &[u8], rows: &[u32]) -> Result<u64, Refusal>
    ensures { result ≡ check_answer (price_file prices.now) none log.now rows.now }
{
    check_by(Tariff::of_file(prices), None, log, rows)
}

// The same by the built-in table, with an upload price.
pub fn check_uploads(upload: u32, log: &[u8], rows: &[u32]) -> Result<u64, Refusal>
    ensures { result ≡ check_answer built_in (some upload) log.now rows.now }
{
    check_by(Tariff::built_in(), Some(upload), log, rows)
}

// The same by a price file.
#[tactic(auto, using(prices::specs::PriceLaws::file_priced), unfolding(prices::specs::Uploads::if_given))]
pub fn check_uploads_with(
    prices: &[u8],
    upload: u32,
    log: &[u8],
    rows: &[u32],
) -> Result<u64, Refusal>
    ensures { result ≡ check_answer (price_file prices.now) (some upload) log.now rows.now }
{
    check_by(Tariff::of_file(prices), Some(upload), log, rows)
}
