// How the programs of cases print what a call answers.
ghost use Rattle.std.specs.Prelude.{Some};
ghost use Rattle.streams.specs.Answers.{answer_text};

use base::Refusal;
use std::fmt;

// An answer: a number after the word for it, or a refusal.
#[derive(Clone, Copy, Debug, PartialEq, Eq)]
pub struct Answer<'a> {
    pub word: &'a str,
    pub outcome: Result<u64, Refusal>,
}

impl<'a> fmt::Display for Answer<'a> {
    ghost output = { λ a. Some (answer_text a.word.now a.outcome) };

    fn fmt<W: fmt::Write>(&self, f: &mut fmt::Formatter<W>) -> fmt::Result {
        match self.outcome {
            Ok(n) => write!(f, "{} {n}", self.word),
            Err(r) => write!(f, "refused {} {}", r.reason.number(), r.place),
        }
    }
}
