// A text that stands ready, into what is lent.
ghost use Rattle.std.specs.Prelude.{◌≡◌, length};
ghost use Rattle.text.specs.Answers.{room_verdict, printed, text_left};

use base::bytes::{clear, copy};
use base::refusals::refuse_if;
use base::{Reason, Refusal};

// The text and zeros after it, or 31 where it does not fit.
pub fn give(from: &[u8], text: &mut [u8]) -> Result<u64, Refusal>
    ensures value { result ≡ printed (room_verdict from.now (length text.old)) from.now }
    ensures text_after { text.new ≡ text_left from.now text.old }
{
    let n = from.len();
    refuse_if(text.len() < n, Reason::ShortOutput, n as u64)?;
    copy(text, 0, from);
    clear(text, n);
    Ok(n as u64)
}
