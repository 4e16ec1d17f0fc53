// The season in pieces of a length that its input names: the first two bytes, 1 to 12,328. The rest of the input is fed so, and its report printed.
#![tactic(auto)]

ghost use Rattle.std.specs.Prelude.{◌≡◌, ◌≤◌, length};
ghost use Rattle.request_log.specs.Sizes.{log_room};
ghost use Rattle.season.specs.ReportText.{report_room};

use base::bytes::at16;
use request_log::LOG_ROOM;
use season::{MOST_BYTES, REPORT_ROOM, Season, begin, feed, finish, summary};
use std::io::Read;
use streams::read_full;

// Room for any log.
fn room() -> [u8; LOG_ROOM]
    ensures { log_room ≡ length result }
{
    [0u8; LOG_ROOM]
}

// Room for any report.
fn paper() -> [u8; REPORT_ROOM]
    ensures { report_room ≡ length result }
{
    [0u8; REPORT_ROOM]
}

// The length of a piece, at least 1 and no more than there is room for.
fn piece_length<R: Read>(input: &mut R, most: usize) -> usize
    requires { 1 ≤ most }
    ensures { (1 ≤ result) × (result ≤ most) }
{
    let mut bytes = [0u8; 2];
    let _ = read_full(input, &mut bytes);
    usize::from(at16(&bytes, 0)).clamp(1, most)
}

// The input in such pieces, up to its end or that of the report. Each but the last has a byte or more.
fn read_all<R: Read>(input: &mut R, piece: &mut [u8], room: &mut [u8]) -> Season {
    let mut season = Season {
        tally: begin(),
        held: 0,
    };
    for _ in 0..MOST_BYTES {
        let (n, _) = read_full(input, piece);
        let fed = feed(season, room, &piece[..n]);
        season = fed.season;
        if n < piece.len() || season.tally.over {
            return season;
        }
    }
    season
}

// Where the report cannot be written nothing more is done.
fn main(rt: HostRuntime) {
    let mut stdin = rt.stdin();
    let mut space = room();
    let size = piece_length(&mut stdin, LOG_ROOM);
    let mut held = room();
    let season = read_all(&mut stdin, &mut space[..size], &mut held);
    let mut text = paper();
    let n = summary(finish(season, &held), &mut text).unwrap_or(0) as usize;
    if let Some(report) = text.get(..n) {
        let _ = rt.write_all(report);
    }
}
