// The quote of a log.
ghost use Rattle.std.specs.Prelude.{◌≡◌};
ghost use Rattle.prices.specs.PriceLaws.{Priced};
ghost use Rattle.prices.specs.Prices.{InRange};
ghost use Rattle.prices.specs.Tariff.{tariff_of, built_in, price_file};
ghost use Rattle.request_log.specs.Fields.{request_count};
ghost use Rattle.request_log.specs.Ranges.{Sound};
ghost use Rattle.model.specs.LogRequests.{requests_in};
ghost use Rattle.model.specs.Quote.{quote_of};
ghost use Rattle.quote.specs.Answers.{quote_answer};

use crate::requests::sum_part;
use base::Refusal;
use base::bytes::at;
use prices::{Prices, Tariff, times};
use request_log::{last_second, verdict};

// Both parts of the quote together.
#[tactic(auto, using(model::proofs::LogRequestLaws::last_is, crate::specs::Most::sum_most, crate::specs::Most::hold_most), unfolding(model::specs::Quote::quote_of))]
fn cost(p: Prices, log: &[u8]) -> u64
    requires { InRange p × Sound log.now }
    ensures { result ≡ quote_of p (requests_in log.now) (request_count log.now) }
{
    let requests = sum_part(p, log);
    let holding = times(p.hold, last_second(log));
    requests + holding
}

// The quote of a log by a price file and what that was answered, or the first condition that refuses file or log.
#[tactic(auto, unfolding(crate::specs::Answers::quoted, crate::specs::Answers::quote_answer, model::specs::LogRequests::prices_in, request_log::specs::Fields::class_of))]
fn quote_by(tariff: Tariff, log: &[u8]) -> Result<u64, Refusal>
    requires { Priced (tariff_of tariff) }
    ensures { result ≡ quote_answer (tariff_of tariff.entry) log.now }
{
    verdict(tariff, log)?;
    Ok(cost(tariff.of_class(at(log, 2)), log))
}

// The same by the built-in table.
#[tactic(auto, using(prices::specs::PriceLaws::classes_ranged))]
pub fn quote(log: &[u8]) -> Result<u64, Refusal>
    ensures { result ≡ quote_answer built_in log.now }
{
    quote_by(Tariff::built_in(), log)
}

// The same by a price file.
#[tactic(auto, using(prices::specs::PriceLaws::file_priced))]
pub fn quote_with(prices: &[u8], log: &[u8]) -> Result<u64, Refusal>
    ensures { result ≡ quote_answer (price_file prices.now) log.now }
{
    quote_by(Tariff::of_file(prices), log)
}
