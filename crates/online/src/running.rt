// The running cost (01: running bill).
#![tactic(auto, using(crate::specs::Passed::running_passed), unfolding(crate::specs::Rules::running, crate::specs::Answers::running_by, crate::specs::Answers::running_answer))]

ghost use Rattle.std.specs.Prelude.{◌≡◌};
ghost use Rattle.prices.specs.Prices.{InRange};
ghost use Rattle.online.specs.Rules.{running};
ghost use Rattle.online.specs.Answers.{running_answer};

use crate::Cache;
use base::Refusal;
use prices::times;

impl Cache {
    // All holding up to the last request, and all transfers.
    pub(crate) fn running_cost(self) -> u64
        requires { InRange self.prices }
        ensures { result ≡ running self }
    {
        times(self.prices.hold, self.held) + times(self.prices.transfer, self.transfers)
    }

    // The running cost, of a closed state too; or 32.
    pub fn running(self) -> Result<u64, Refusal>
        ensures { result ≡ running_answer self }
    {
        self.state_fault()?;
        Ok(self.running_cost())
    }
}
