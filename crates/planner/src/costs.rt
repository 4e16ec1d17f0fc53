// The least cost of every prefix of a log.
ghost use Rattle.std.specs.Prelude.{◌≡◌, [], ◌∷◌, suc, length};
ghost use Rattle.std.proofs.Math.Option.{none, some};
ghost use Rattle.base.specs.Lent.{lent};
ghost use Rattle.base.specs.Refusals.{first, short};
ghost use Rattle.prices.specs.PriceLaws.{Priced};
ghost use Rattle.prices.specs.Tariff.{tariff_of, built_in, price_file};
ghost use Rattle.prices.specs.Uploads.{if_given};
ghost use Rattle.model.proofs.TableLists.{lists};
ghost use Rattle.planner.specs.Answers.{least_verdict, least_answer, costs_left};
ghost use Rattle.planner.specs.Asked.{asks};
ghost use Rattle.planner.specs.Fees.{rated};
ghost use Rattle.planner.specs.Fits.{Ready};
ghost use Rattle.planner.specs.LeastAnswer.{costs_answer};

use crate::PLACES;
use crate::requests::{Summary, load};
use crate::table::fill;
use base::bytes::clear;
use base::refusals::refuse_if;
use base::{Reason, Refusal};
use prices::Tariff;

// How many costs n requests have.
fn prefixes(n: u16) -> u32
    ensures { result ≡ suc n }
{
    u32::from(n) + 1
}

// The least costs of the requests that were read.
fn costs_of(
    summary: Summary,
    seconds: &[u32; PLACES],
    servers: &[u16; PLACES],
    previous: &[u16; PLACES],
    costs: &mut [u64],
) -> Result<u32, Refusal>
    requires { Ready (rated summary.fees) seconds.now servers.now previous.now summary.requests }
    ensures value { result ≡ costs_answer (first (short (suc summary.requests) (length costs.old) ∷ [])) summary.requests }
    ensures costs_after { costs.new ≡ lent (first (short (suc summary.requests) (length costs.old) ∷ [])) (lists (rated summary.fees) (asks seconds.now servers.now) summary.requests).costs costs.old }
{
    let needed = usize::from(summary.requests) + 1;
    refuse_if(costs.len() < needed, Reason::ShortOutput, needed as u64)?;
    let mut keeps = [0u64; PLACES];
    fill(
        summary.fees,
        seconds,
        servers,
        previous,
        summary.requests,
        costs,
        &mut keeps,
    );
    clear(costs, needed);
    Ok(prefixes(summary.requests))
}

// The least cost of each number of a log's first requests, from none to all (01's 'The plan'), by a price file and what that was answered, and by an upload
// price if one is given.
fn least_by(
    tariff: Tariff,
    upload: Option<u32>,
    log: &[u8],
    costs: &mut [u64],
) -> Result<u32, Refusal>
    requires { Priced (tariff_of tariff) }
    ensures value { result ≡ least_answer (least_verdict (tariff_of tariff.entry) (if_given upload) log.now (length costs.old)) log.now }
    ensures costs_after { costs.new ≡ costs_left (tariff_of tariff.entry) (if_given upload) log.now costs.old }
{
    let mut seconds = [0u32; PLACES];
    let mut servers = [0u16; PLACES];
    let mut previous = [0u16; PLACES];
    let summary = load(
        tariff,
        upload,
        log,
        &mut seconds,
        &mut servers,
        &mut previous,
    )?;
    costs_of(summary, &seconds, &servers, &previous, costs)
}

// The same by the built-in table, with no upload price.
pub fn least(log: &[u8], costs: &mut [u64]) -> Result<u32, Refusal>
    ensures value { result ≡ least_answer (least_verdict built_in none log.now (length costs.old)) log.now }
    ensures costs_after { costs.new ≡ costs_left built_in none log.now costs.old }
{
    least_by(Tariff::built_in(), None, log, costs)
}

// The same by a price file.
pub fn least_with(prices: &[u8], log: &[u8], costs: &mut [u64]) -> Result<u32, Refusal>
    ensures value { result ≡ least_answer (least_verdict (price_file prices.now) none log.now (length costs.old)) log.now }
    ensures costs_after { costs.new ≡ costs_left (price_file prices.now) none log.now costs.old }
{
    least_by(Tariff::of_file(prices), None, log, costs)
}

// The same by the built-in table, with an upload price.
pub fn least_uploads(upload: u32, log: &[u8], costs: &mut [u64]) -> Result<u32, Refusal>
    ensures value { result ≡ least_answer (least_verdict built_in (some upload) log.now (length costs.old)) log.now }
    ensures costs_after { costs.new ≡ costs_left built_in (some upload) log.now costs.old }
{
    least_by(Tariff::built_in(), Some(upload), log, costs)
}

// The same by a price file.
pub fn least_uploads_with(
    prices: &[u8],
    upload: u32,
    log: &[u8],
    costs: &mut [u64],
) -> Result<u32, Refusal>
    ensures value { result ≡ least_answer (least_verdict (price_file prices.now) (some upload) log.now (length costs.old)) log.now }
    ensures costs_after { costs.new ≡ costs_left (price_file prices.now) (some upload) log.now costs.old }
{
    least_by(Tariff::of_file(prices), Some(upload), log, costs)
}
