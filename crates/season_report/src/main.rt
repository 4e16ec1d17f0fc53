// The season report program: logs end to end on standard input, their report on standard output.
#![tactic(auto)]

ghost use Rattle.std.specs.Prelude.{◌≡◌, ◌≤◌, length, take};
ghost use Rattle.prices.specs.Tariff.{built_in};
ghost use Rattle.request_log.specs.Sizes.{log_room};
ghost use Rattle.season.specs.ReportText.{report_room, report_text};
ghost use Rattle.season.specs.Steps.{finished};
ghost use Rattle.season.specs.Answers.{gathered_in};
ghost use Rattle.streams.specs.Counts.{IsPrefixLen};

use request_log::LOG_ROOM;
use season::{MOST_BYTES, REPORT_ROOM, Season, begin, feed, finish, summary};
use std::io::Read;

// Bytes that one read gives at most: with the room of one log all that is kept of an input.
const PIECE: usize = 512;

// Room for any log.
fn room() -> [u8; LOG_ROOM]
    ensures { log_room ≡ length result }
{
    [0u8; LOG_ROOM]
}

// Room for any report.
fn paper() -> [u8; REPORT_ROOM]
    ensures { report_room ≡ length result }
{
    [0u8; REPORT_ROOM]
}

// One read, which gives a byte or more, but for the end. One that fails counts as the end.
fn read_some<R: Read>(input: &mut R, piece: &mut [u8]) -> usize
    ensures { IsPrefixLen result piece.new }
{
    input.read(piece).unwrap_or(0)
}

// The input as it comes, up to its end or that of the report. Each read gives a byte or more.
fn read_all<R: Read>(input: &mut R, room: &mut [u8]) -> Season {
    let mut piece = [0u8; PIECE];
    let mut season = Season {
        tally: begin(),
        held: 0,
    };
    for _ in 0..MOST_BYTES {
        let n = read_some(input, &mut piece);
        if n == 0 {
            return season;
        }
        let fed = feed(season, room, &piece[..n]);
        season = fed.season;
        if season.tally.over {
            return season;
        }
    }
    season
}

// All that is written, and its length.
fn answer(season: Season, room: &[u8], text: &mut [u8]) -> usize
    requires { report_room ≤ length text.old }
    ensures { IsPrefixLen result text.new × (take result text.new ≡ report_text (finished built_in (gathered_in season room.now))) }
{
    match summary(finish(season, room), text) {
        Ok(n) => n as usize,
        Err(_) => 0,
    }
}

// An input that cannot be read counts as ended there; where the output cannot be written nothing more is done.
fn main(rt: HostRuntime) {
    let mut held = room();
    let season = read_all(&mut rt.stdin(), &mut held);
    let mut text = paper();
    let end = answer(season, &held, &mut text);
    let _ = rt.write_all(&text[..end]);
}
