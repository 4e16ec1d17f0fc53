// The input in pieces: the bytes of a log that is not whole yet are held in a room that is lent.
ghost use Rattle.std.specs.Prelude.{◌≡◌, ◌≤◌, ◌<◌, length, take};
ghost use Rattle.prices.specs.Tariff.{built_in};
ghost use Rattle.request_log.specs.Sizes.{log_room};
ghost use Rattle.request_log.specs.Conditions.{head_verdict};
ghost use Rattle.season.specs.Tallies.{accepts};
ghost use Rattle.season.specs.Steps.{gathered, unfinished, with_bytes, finished, feed_verdict};
ghost use Rattle.season.specs.Answers.{gathered_in, fed, room_left};
ghost use Rattle.season.specs.Needs.{needed};

use crate::steps::{is_full, step};
use crate::{Fed, Season, Tally};
use base::bytes::{at32, clear, copy};
use base::refusals::refuse_if;
use base::{Reason, Verdict};
use prices::Tariff;
use request_log::{LOG_ROOM, head_fault};

// What is left of a piece goes on with this tally and so many bytes held; so many bytes of the piece were taken.
#[derive(Clone, Copy, Debug, PartialEq, Eq)]
pub struct Taken {
    pub tally: Tally,
    pub held: usize,
    pub used: usize,
}

// A header passes.
#[tactic(auto, unfolding(crate::specs::Tallies::accepts))]
fn heads(log: &[u8]) -> bool
    ensures { result ≡ accepts (head_verdict built_in log.now) }
{
    head_fault(Tariff::built_in(), log).is_ok()
}

// Bytes that are not all of a log yet.
fn is_unfinished(log: &[u8]) -> bool
    ensures { result ≡ unfinished built_in log.now }
{
    log.len() < 40 || heads(log) && log.len() < at32(log, 16) as usize
}

// How many bytes more may be taken before what is held is looked at again.
#[tactic(auto, using(crate::specs::Needs::total_more), unfolding(crate::specs::Needs::needed, request_log::specs::Fields::total_length))]
fn need(log: &[u8]) -> usize
    ensures { result ≡ needed built_in log.now }
{
    let n = log.len();
    if n < 40 {
        return 40 - n;
    }
    if is_unfinished(log) {
        return (at32(log, 16) as usize) - n;
    }
    1
}

// Bytes from the front of a piece, as many as the log that is held needs: that log is counted if it is whole then.
fn take_in(tally: Tally, held: usize, room: &mut [u8], piece: &[u8]) -> Taken
    requires { (held < log_room) × (log_room ≤ length room.old) × (1 ≤ length piece.now) }
    ensures room_after { gathered result.tally (take result.held room.new) ≡ with_bytes built_in (gathered tally (take held room.old)) (take result.used piece.now) }
    ensures held_lt_log_room { (result.held < log_room) × (1 ≤ result.used) × (result.used ≤ length piece.now) }
{
    if is_full(tally) {
        return Taken {
            tally: step(tally, &piece[..0]),
            held: 0,
            used: piece.len(),
        };
    }
    let n = need(&room[..held]).min(piece.len());
    copy(room, held, &piece[..n]);
    let end = held + n;
    if is_unfinished(&room[..end]) {
        return Taken {
            tally,
            held: end,
            used: n,
        };
    }
    Taken {
        tally: step(tally, &room[..end]),
        held: 0,
        used: n,
    }
}

// 32 where more is said to be held than an unfinished log can have, 31 for the room.
#[tactic(auto, using(base::specs::RefusalLaws::first_after_ok, base::specs::RefusalLaws::first_after_err), unfolding(crate::specs::Steps::feed_verdict))]
fn feed_fault(held: u64, room: usize) -> Verdict
    ensures { result ≡ feed_verdict held room }
{
    let most = LOG_ROOM as u64;
    refuse_if(most <= held, Reason::BrokenState, 0)?;
    refuse_if(room < LOG_ROOM, Reason::ShortOutput, most)
}

// All bytes of a piece, one log after the other.
fn take_all(tally: Tally, held: usize, room: &mut [u8], piece: &[u8]) -> Taken
    requires { (held < log_room) × (log_room ≤ length room.old) }
    ensures room_after { gathered result.tally (take result.held room.new) ≡ with_bytes built_in (gathered tally (take held room.old)) piece.now }
    ensures held_lt_log_room { result.held < log_room }
{
    let mut sums = tally;
    let mut kept = held;
    let mut at: usize = 0;
    while at < piece.len() {
        let t = take_in(sums, kept, room, &piece[at..]);
        sums = t.tally;
        kept = t.held;
        at += t.used;
    }
    Taken {
        tally: sums,
        held: kept,
        used: at,
    }
}

// The next piece of the input: the logs that it completes are counted, and the bytes of an unfinished one are held at the front of the room, with
// zeros after them. Refused with 32 or 31, the season and the room as they were.
pub fn feed(season: Season, room: &mut [u8], piece: &[u8]) -> Fed
    ensures value { result ≡ fed built_in season room.old piece.now }
    ensures room_after { room.new ≡ room_left built_in season room.old piece.now }
{
    if let Err(r) = feed_fault(season.held, room.len()) {
        return Fed {
            season,
            verdict: Err(r),
        };
    }
    let t = take_all(season.tally, season.held as usize, room, piece);
    clear(room, t.held);
    Fed {
        season: Season {
            tally: t.tally,
            held: t.held as u64,
        },
        verdict: Ok(()),
    }
}

// The end of the input: what is held is the last log.
#[tactic(auto, using(crate::specs::FeedLaws::finish_none, crate::specs::FeedLaws::finish_some))]
pub fn finish(season: Season, room: &[u8]) -> Tally
    ensures { result ≡ finished built_in (gathered_in season room.now) }
{
    let held = (season.held as usize).min(room.len());
    if held == 0 {
        return season.tally;
    }
    step(season.tally, &room[..held])
}
