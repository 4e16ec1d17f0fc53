// The call: 46, or who wins.
ghost use Rattle.std.specs.Prelude.{◌≡◌};
ghost use Rattle.game.specs.Answers.{beyond, play_verdict, played};

use crate::Winner;
use crate::board::start;
use crate::turns::keeper;
use base::refusals::refuse_if;
use base::{Reason, Refusal, Verdict};
use forcing::Game;
use prices::outside;

// A number is not from 1 to the most.
fn beyond(most: u32, x: u32) -> bool
    ensures { result ≡ beyond most x }
{
    x < 1 || most < x
}

// 46.
#[tactic(auto, using(base::specs::RefusalLaws::chain), unfolding(crate::specs::Answers::play_verdict, crate::specs::Answers::play_conditions))]
fn play_fault(game: Game) -> Verdict
    ensures { result ≡ play_verdict game }
{
    let prices = game.prices;
    refuse_if(beyond(3, game.servers), Reason::GameRange, 0)?;
    refuse_if(beyond(3, game.requests), Reason::GameRange, 0)?;
    refuse_if(beyond(3, game.largest), Reason::GameRange, 0)?;
    refuse_if(outside(prices), Reason::GameRange, 0)?;
    refuse_if(beyond(1000, game.p), Reason::GameRange, 0)?;
    refuse_if(beyond(1000, game.q), Reason::GameRange, 0)
}

// Who wins the game.
pub fn play(game: Game) -> Result<Winner, Refusal>
    ensures { result ≡ played game }
{
    play_fault(game)?;
    if keeper(game, start(), game.requests) {
        return Ok(Winner::Keeper);
    }
    Ok(Winner::Guest)
}
