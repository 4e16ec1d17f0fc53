// What programs in other languages link: the calls of checksum, request_log, writer, checker, planner, quote, week, online and game on numbers, slices and `#[repr(C)]` structs
// (include/caching.h). None requires anything.
// Each call that needs prices, but for the week page's, has a form with a price file, `.._with`, whose bytes come first. A slice crosses as a pointer and then a length, each an argument of its own.
#![tactic(auto)]

mod caches;
mod games;
mod logs;
mod pages;
mod schedules;

ghost use Rattle.std.specs.Prelude.{◌≡◌};
ghost use Rattle.exports.specs.Answers.{accepted, refused, of_number, of_plan, of_start, of_scan, of_play};

use base::{Refusal, Verdict};
use game::Winner;
use online::Service;
use planner::Planned;

// An answer in numbers: number 0 and up to two values, or a refusal's number and place.
#[repr(C)]
#[derive(Clone, Copy)]
pub struct Answer {
    pub number: u32,
    pub place: u64,
    pub value: u64,
    pub more: u64,
}

// An accepted call's answer.
fn accepted(value: u64, more: u64) -> Answer
    ensures { result ≡ accepted value more }
{
    Answer {
        number: 0,
        place: 0,
        value,
        more,
    }
}

// A refused call's answer.
fn refused(refusal: Refusal) -> Answer
    ensures { result ≡ refused refusal }
{
    Answer {
        number: u32::from(refusal.reason.number()),
        place: refusal.place,
        value: 0,
        more: 0,
    }
}

// A number: of requests, least costs or bytes, or a cost.
impl From<Result<u64, Refusal>> for Answer {
    ghost from_gives = { λ outcome answer. answer ≡ of_number outcome };

    fn from(outcome: Result<u64, Refusal>) -> Answer {
        match outcome {
            Ok(n) => accepted(n, 0),
            Err(r) => refused(r),
        }
    }
}

// A plan: its cost and the number of its rows.
impl From<Result<Planned, Refusal>> for Answer {
    ghost from_gives = { λ outcome answer. answer ≡ of_plan outcome };

    fn from(outcome: Result<Planned, Refusal>) -> Answer {
        match outcome {
            Ok(plan) => accepted(plan.cost, u64::from(plan.rows)),
            Err(r) => refused(r),
        }
    }
}

// A start, which gives nothing more.
impl From<Verdict> for Answer {
    ghost from_gives = { λ outcome answer. answer ≡ of_start outcome };

    fn from(outcome: Verdict) -> Answer {
        match outcome {
            Ok(()) => accepted(0, 0),
            Err(r) => refused(r),
        }
    }
}

// A scan: 0 for kept; 1 for sent, and the source.
impl From<Result<Service, Refusal>> for Answer {
    ghost from_gives = { λ outcome answer. answer ≡ of_scan outcome };

    fn from(outcome: Result<Service, Refusal>) -> Answer {
        match outcome {
            Ok(Service::Kept { .. }) => accepted(0, 0),
            Ok(Service::Sent { source, .. }) => accepted(1, u64::from(source)),
            Err(r) => refused(r),
        }
    }
}

// A game: 1 where the keeper wins, 0 where the guest does.
impl From<Result<Winner, Refusal>> for Answer {
    ghost from_gives = { λ outcome answer. answer ≡ of_play outcome };

    fn from(outcome: Result<Winner, Refusal>) -> Answer {
        match outcome {
            Ok(Winner::Keeper) => accepted(1, 0),
            Ok(Winner::Guest) => accepted(0, 0),
            Err(r) => refused(r),
        }
    }
}
