// The game against a contrary guest.
ghost use Rattle.std.specs.Prelude.{◌≡◌};
ghost use Rattle.game.specs.Answers.{played};
ghost use Rattle.exports.specs.Answers.{of_play};

use crate::Answer;
use forcing::Game;

// The answer's value is 1 where the keeper wins, 0 where the guest does.
#[unsafe(no_mangle)]
pub extern "C" fn caching_play(game: Game) -> Answer
    ensures { result ≡ of_play (played game) }
{
    Answer::from(game::play(game))
}
