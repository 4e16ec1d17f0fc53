// The week page.
ghost use Rattle.std.specs.Prelude.{◌≡◌, length};
ghost use Rattle.prices.specs.Tariff.{built_in};
ghost use Rattle.text.specs.Answers.{printed};
ghost use Rattle.week.specs.Pages.{page_of, page_verdict, page_left};
ghost use Rattle.exports.specs.Answers.{of_number};

use crate::Answer;

// The answer's value is the length of the page.
#[unsafe(no_mangle)]
pub extern "C" fn caching_page(log: &[u8], text: &mut [u8]) -> Answer
    ensures value { result ≡ of_number (printed (page_verdict built_in log.now (length text.old)) (page_of built_in log.now)) }
    ensures text_after { text.new ≡ page_left built_in log.now text.old }
{
    Answer::from(week::page(log, text))
}
