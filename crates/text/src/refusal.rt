// The line of a refusal.
ghost use Rattle.std.specs.Prelude.{◌≡◌, ◌≤◌, length};
ghost use Rattle.text.specs.Answers.{room_verdict, printed, text_left};
ghost use Rattle.text.specs.Page.{page, added};
ghost use Rattle.text.specs.RefusalText.{list_word, refusal_text, refusal_room};

use crate::REFUSAL_ROOM;
use crate::give::give;
use crate::put::{put, put_byte, put_field};
use base::Refusal;

// The name of the list that a refusal's number is in.
fn put_list(text: &mut [u8], at: usize, number: u8) -> usize
    ensures { page result text.new ≡ added (list_word number) (page at text.old) }
{
    match number {
        1..=18 => put(text, at, b"input"),
        31..=35 => put(text, at, b"state"),
        _ => put(text, at, b"input"),
    }
}

// The line, at the front of a text.
pub fn put_refusal(text: &mut [u8], refusal: Refusal) -> usize
    ensures text_after { page result text.new ≡ added (refusal_text refusal) (page 0 text.old) }
    ensures refusal_len_bound { length (refusal_text refusal) ≤ refusal_room }
{
    let a = put(text, 0, b"refused ");
    let number = refusal.reason.number();
    let b = put_list(text, a, number);
    let c = put_field(text, b, u64::from(number));
    let d = put(text, c, b" place");
    let e = put_field(text, d, refusal.place);
    put_byte(text, e, b'\n')
}

// The one line of a refusal and zeros after it; refused with 31, the text as it was.
pub fn refusal_line(refusal: Refusal, text: &mut [u8]) -> Result<u64, Refusal>
    ensures value { result ≡ printed (room_verdict (refusal_text refusal) (length text.old)) (refusal_text refusal) }
    ensures text_after { text.new ≡ text_left (refusal_text refusal) text.old }
{
    let mut line = [0u8; REFUSAL_ROOM];
    let n = put_refusal(&mut line, refusal);
    give(&line[..n], text)
}
