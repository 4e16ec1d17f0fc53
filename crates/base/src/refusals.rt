// A call's conditions: each refuses where it is the first that holds.
ghost use Rattle.std.specs.Prelude.{◌≡◌, [], ◌∷◌};
ghost use Rattle.base.specs.Refusals.{refuse, first};

use crate::{Reason, Refusal, Verdict};

// A refusal for a reason at a place, where a test holds.
pub fn refuse_if(holds: bool, reason: Reason, place: u64) -> Verdict
    ensures { result ≡ first (refuse reason place holds ∷ []) }
{
    if holds {
        return Err(Refusal { reason, place });
    }
    Ok(())
}
