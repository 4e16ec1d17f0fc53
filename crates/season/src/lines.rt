// The report of a tally.
ghost use Rattle.std.specs.Prelude.{◌≡◌, ◌≤◌, length};
ghost use Rattle.text.specs.Answers.{room_verdict, printed, text_left};
ghost use Rattle.text.specs.Page.{page, added};
ghost use Rattle.season.specs.Tallies.{numbers};
ghost use Rattle.season.specs.ReportText.{refused_line, refused_lines, worst_line, report_text, report_room};

use crate::{NUMBERS, REPORT_ROOM, Tally, Worst};
use base::Refusal;
use text::give::give;
use text::put::put_line;

// The line of a number that refused so many logs, if it refused any.
#[tactic(auto, unfolding(crate::specs::ReportText::refused_line, text::specs::Lines::ascii, text::specs::Page::added))]
fn put_refused(text: &mut [u8], at: usize, number: u64, count: u64) -> usize
    ensures { page result text.new ≡ added (refused_line number count) (page at text.old) }
{
    if count == 0 {
        return at;
    }
    put_line(text, at, b"refused", &[number, count])
}

// Those of all numbers.
fn put_counts(text: &mut [u8], at: usize, refused: &[u64]) -> usize
    requires { length refused.now ≡ numbers }
    ensures { page result text.new ≡ added (refused_lines refused.now numbers) (page at text.old) }
{
    let mut to = at;
    for k in 0..NUMBERS {
        to = put_refused(text, to, k as u64, refused[k]);
    }
    to
}

// The worst log, if there is one.
#[tactic(auto, unfolding(crate::specs::ReportText::worst_line, text::specs::Lines::ascii, text::specs::Page::added))]
fn put_worst(text: &mut [u8], at: usize, worst: Worst) -> usize
    ensures { page result text.new ≡ added (worst_line worst) (page at text.old) }
{
    if worst.place == 0 {
        return at;
    }
    put_line(
        text,
        at,
        b"worst",
        &[
            worst.place,
            u64::from(worst.running),
            u64::from(worst.least),
        ],
    )
}

// All lines, at the front of a text.
fn put_report(text: &mut [u8], tally: Tally) -> usize
    ensures text_after { page result text.new ≡ added (report_text tally) (page 0 text.old) }
    ensures tally_len_bound { length (report_text tally) ≤ report_room }
{
    let a = put_line(text, 0, b"accepted", &[tally.accepted]);
    let b = put_counts(text, a, &tally.refused);
    let c = put_line(text, b, b"least", &[tally.least]);
    let d = put_line(text, c, b"running", &[tally.running]);
    put_worst(text, d, tally.worst)
}

// The report of a tally and zeros after it; refused with 31, the text as it was.
pub fn summary(tally: Tally, text: &mut [u8]) -> Result<u64, Refusal>
    ensures value { result ≡ printed (room_verdict (report_text tally) (length text.old)) (report_text tally) }
    ensures text_after { text.new ≡ text_left (report_text tally) text.old }
    ensures tally_len_bound { length (report_text tally) ≤ report_room }
{
    let mut page = [0u8; REPORT_ROOM];
    let n = put_report(&mut page, tally);
    give(&page[..n], text)
}
