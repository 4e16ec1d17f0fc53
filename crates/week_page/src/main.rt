// The week page program: a log on standard input, its week page or one line of refusal on standard output.
#![tactic(auto)]

ghost use Rattle.std.specs.Prelude.{◌≡◌, ◌≤◌, length, take};
ghost use Rattle.prices.specs.Tariff.{built_in};
ghost use Rattle.request_log.specs.Sizes.{log_limit};
ghost use Rattle.streams.specs.Counts.{IsPrefixLen};
ghost use Rattle.week.specs.Pages.{page_output};
ghost use Rattle.week.specs.PageLength.{page_room};

use request_log::LOG_LIMIT;
use streams::read_full;
use text::put_refusal;
use week::{PAGE_ROOM, page};

// Room for the longest log and one byte more, so that a longer input is refused as it would be whole.
#[tactic(auto, unfolding(request_log::specs::Sizes::log_limit))]
fn input() -> [u8; LOG_LIMIT]
    ensures { log_limit ≡ length result }
{
    [0u8; LOG_LIMIT]
}

// Room for any page.
fn room() -> [u8; PAGE_ROOM]
    ensures { page_room ≡ length result }
{
    [0u8; PAGE_ROOM]
}

// All that is written for an input, the page or the line of a refusal, and its length.
fn answer(log: &[u8], text: &mut [u8]) -> usize
    requires { page_room ≤ length text.old }
    ensures { IsPrefixLen result text.new × (take result text.new ≡ page_output built_in log.now) }
{
    match page(log, text) {
        Ok(n) => n as usize,
        Err(r) => put_refusal(text, r),
    }
}

// An input that cannot be read counts as ended there; where the output cannot be written nothing more is done.
fn main(rt: HostRuntime) {
    let mut log = input();
    let (n, _) = read_full(&mut rt.stdin(), &mut log);
    let mut text = room();
    let end = answer(&log[..n], &mut text);
    let _ = rt.write_all(&text[..end]);
}
