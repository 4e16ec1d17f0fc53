// One log after the other into a tally.
ghost use Rattle.std.specs.Prelude.{◌≡◌, ltb, eqb, get_or, Ok, Err};
ghost use Rattle.base.specs.Choice.{either};
ghost use Rattle.base.specs.Lists.{build};
ghost use Rattle.prices.specs.Tariff.{built_in};
ghost use Rattle.season.specs.Tallies.{numbers, one_if, refuses, larger, worse, met_of};
ghost use Rattle.season.specs.Counting.{summed, fresh, counted};
ghost use Rattle.season.specs.Steps.{full, stepped};

use crate::bills::{Bill, look};
use crate::{MOST_LOGS, NUMBERS, Tally, Worst};
use base::{Reason, Refusal};

// One more log refused by a number.
fn add_refused(refused: [u64; NUMBERS], refusal: Refusal) -> [u64; NUMBERS]
    ensures { result ≡ build numbers (λ n. summed (get_or refused n 0) (one_if (refuses n (Err refusal)))) }
{
    let mut counts = refused;
    let k = usize::from(refusal.reason.number());
    if k < NUMBERS {
        counts[k] = counts[k].saturating_add(1);
    }
    counts
}

// Whether a log's ratio is larger than the worst one's: the fractions are compared by products.
#[tactic(auto, using(crate::specs::TallyLaws::product_fits), unfolding(crate::specs::Tallies::larger, crate::specs::Tallies::met_of))]
fn is_larger(worst: Worst, bill: Bill) -> bool
    ensures { result ≡ larger worst (met_of (Ok bill)) }
{
    worst.place == 0
        || u64::from(worst.running) * u64::from(bill.least)
            < u64::from(bill.running) * u64::from(worst.least)
}

// The worst so far, or the log at a place if its ratio is larger.
#[tactic(auto, unfolding(crate::specs::Tallies::worse, crate::specs::Tallies::met_of))]
fn worse_of(worst: Worst, place: u64, bill: Bill) -> Worst
    ensures { result ≡ worse worst place (met_of (Ok bill)) }
{
    if bill.requests == 0 || !is_larger(worst, bill) {
        return worst;
    }
    Worst {
        place,
        running: bill.running,
        least: bill.least,
    }
}

// A refusal by 1 to 9 or by 45 ends the report.
fn is_last(number: u8) -> bool
    ensures { result ≡ either (ltb number 10) (eqb number 45) }
{
    matches!(number, 0..=9 | 45)
}

// A tally with one log more.
fn count(tally: Tally, met: Result<Bill, Refusal>) -> Tally
    ensures { result ≡ counted tally (met_of met) }
{
    let logs = tally.logs.saturating_add(1);
    match met {
        Ok(bill) => Tally {
            logs,
            accepted: tally.accepted.saturating_add(1),
            least: tally.least.saturating_add(u64::from(bill.least)),
            running: tally.running.saturating_add(u64::from(bill.running)),
            worst: worse_of(tally.worst, logs, bill),
            over: false,
            ..tally
        },
        Err(r) => Tally {
            logs,
            refused: add_refused(tally.refused, r),
            over: is_last(r.reason.number()),
            ..tally
        },
    }
}

// The log after all those that are looked at.
const BEYOND: Refusal = Refusal {
    reason: Reason::LogCount,
    place: 0,
};

// Before any log.
#[tactic(auto, unfolding(crate::specs::Counting::fresh))]
pub fn begin() -> Tally
    ensures { result ≡ fresh }
{
    Tally {
        logs: 0,
        accepted: 0,
        refused: [0u64; NUMBERS],
        least: 0,
        running: 0,
        worst: Worst {
            place: 0,
            running: 0,
            least: 0,
        },
        over: false,
    }
}

// No further log is looked at.
pub(crate) fn is_full(tally: Tally) -> bool
    ensures { result ≡ full tally }
{
    tally.over || MOST_LOGS <= tally.logs
}

// The next log. 45 is looked at before the log is; after the end nothing is.
#[tactic(auto, using(crate::specs::StepLaws::stepped_over, crate::specs::StepLaws::stepped_late, crate::specs::StepLaws::stepped_next))]
pub fn step(tally: Tally, log: &[u8]) -> Tally
    ensures { result ≡ stepped built_in tally log.now }
{
    if tally.over {
        return tally;
    }
    if is_full(tally) {
        return count(tally, Err(BEYOND));
    }
    count(tally, look(log))
}
