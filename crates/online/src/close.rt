// A close: the closing cost (02: closing bill), and the same state closed.
#![tactic(auto, using(crate::specs::ClosingLaws::remaining_none, crate::specs::ClosingLaws::remaining_at, crate::specs::Passed::close_passed), unfolding(crate::specs::Rules::copy_at, crate::specs::Rules::closing, crate::specs::Rules::shut, crate::specs::Answers::closed_by, crate::specs::Answers::closed_answer))]

ghost use Rattle.std.specs.Prelude.{◌≡◌};
ghost use Rattle.online.specs.Servers.{across};
ghost use Rattle.online.specs.Rules.{remaining, closing};
ghost use Rattle.online.specs.Intact.{Intact};
ghost use Rattle.online.specs.Serving.{Outlines, WithUse};
ghost use Rattle.online.specs.Answers.{closed_answer};

use crate::state::{Outline, expiry, member};
use crate::{Cache, Closed};
use base::sets::{cut, has};

impl Outline {
    // What is left of the window of a copy at y; a copy at its end has none left.
    fn remaining(self, used: u32, y: u16) -> u64
        ensures { WithUse self used y (λ c. result ≡ remaining c y) }
    {
        if has(self.holders, y) {
            return expiry(used, self.window).saturating_sub(u64::from(self.second));
        }
        0
    }
}

impl Cache {
    // What is left of all windows.
    fn all_remaining(self, o: Outline) -> u64
        requires { Intact self × Outlines self o }
        ensures { result ≡ across 64 (remaining self) }
    {
        let mut left = o.holders;
        let mut sum: u64 = 0;
        while left != 0 {
            let y = member(left);
            sum += o.remaining(self.last_use[usize::from(y)], y);
            left = cut(left, y);
        }
        sum
    }

    // The running cost, and the holding of each standing copy to its end.
    fn closing_cost(self) -> u64
        requires { Intact self }
        ensures { result ≡ closing self }
    {
        let left = self.all_remaining(self.outline());
        self.running_cost() + u64::from(self.prices.hold) * left
    }

    // The closing cost and the closed state, or 32, 33 and the same state.
    pub fn close(self) -> Closed
        ensures { result ≡ closed_answer self }
    {
        if let Err(r) = self.close_fault() {
            return Closed {
                cache: self,
                outcome: Err(r),
            };
        }
        Closed {
            cache: Cache {
                closed: true,
                ..self
            },
            outcome: Ok(self.closing_cost()),
        }
    }
}
