// The settings of the stays that differ on a board, by their numbers.
ghost use Rattle.std.specs.Prelude.{◌≡◌, ◌≤◌};
ghost use Rattle.game.specs.Answers.{Ranged};
ghost use Rattle.game.specs.Settings.{free, settings, stay, setting};

use crate::board::{Board, at, last_of};
use forcing::Game;

// How long the copy at server y can be set to stay.
#[tactic(auto, unfolding(crate::specs::Settings::free))]
fn free(game: Game, board: Board, y: u32) -> u32
    requires { Ranged game }
    ensures value { result ≡ free game board y }
    ensures upper_bound { result ≤ 3 }
{
    if at(board.copies, y, false) && y != last_of(board) {
        return game.largest;
    }
    0
}

// How many settings there are.
pub(crate) fn settings(game: Game, board: Board) -> u32
    requires { Ranged game }
    ensures value { result ≡ settings game board }
    ensures upper_bound { result ≤ 64 }
{
    (free(game, board, 2) + 1) * (free(game, board, 1) + 1) * (free(game, board, 0) + 1)
}

// The stay at server y, where `set` is what is set.
fn stay(game: Game, board: Board, y: u32, set: u32) -> u32
    ensures { result ≡ stay game board y set }
{
    if y == last_of(board) {
        return game.largest;
    }
    set
}

// Setting k.
pub(crate) fn setting(game: Game, board: Board, k: u32) -> [u32; 3]
    requires { Ranged game }
    ensures { result ≡ setting game board k }
{
    let a = free(game, board, 0) + 1;
    let b = free(game, board, 1) + 1;
    let rest = k / a;
    [
        stay(game, board, 0, k % a),
        stay(game, board, 1, rest % b),
        stay(game, board, 2, rest / b),
    ]
}
