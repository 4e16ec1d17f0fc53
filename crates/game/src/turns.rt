// The keeper's turn and the guest's, which call each other.
ghost use Rattle.std.specs.Prelude.{◌≡◌, ◌+◌, ◌≤◌, ◌<◌};
ghost use Rattle.forcing.specs.Positions.{Move, after, within};
ghost use Rattle.forcing.specs.Winning.{guest_wins, keeper_wins};
ghost use Rattle.game.specs.Costs.{spent};
ghost use Rattle.game.specs.Answers.{Ranged};
ghost use Rattle.game.specs.Boards.{Fits, shown, stays_in};
ghost use Rattle.game.specs.TurnLaws.{Turn, beats, asking};

use crate::board::Board;
use crate::costs::{limits, paid, scaled};
use crate::rounds::{holding_all, moved, sends};
use crate::settings::{setting, settings};
use forcing::Game;

// The running cost after a gap, but for the request's own transfer.
fn spent(game: Game, board: Board, stays: [u32; 3], gap: u32) -> u32
    requires { Ranged game × Fits game board × (board.count < 3) × (gap ≤ 3) }
    ensures value { result ≡ spent game board stays gap }
    ensures upper_bound { result ≤ 30000000 }
{
    let held = board.held + holding_all(stays, gap);
    paid(game.prices.hold, held) + paid(game.prices.transfer, board.transfers)
}

// Does the limit hold after a request at server x, i + 1 seconds from now?
fn holds(
    game: Game,
    board: Board,
    allowed: &[u64; 3],
    stays: [u32; 3],
    i: u32,
    x: u32,
    sum: u32,
) -> bool
    requires { Turn game board allowed.now stays × (board.count < 3) × Move game (i + 1) x × (sum ≡ spent game board stays (i + 1)) × (sum ≤ 30000000) }
    ensures { result ≡ within game (after game (shown board) (stays_in stays) (i + 1) x) }
{
    let cost = sum + paid(game.prices.transfer, sends(stays, i + 1, x));
    let gap = scaled(game.p, paid(game.prices.hold, i + 1));
    let at = x as usize;
    scaled(game.q, cost) <= allowed[at] + gap
}

// Does the guest win by a request at server x, i + 1 seconds from now, with `left` requests to come after it?
#[cycle(asks_beats_guest_keeper)]
fn beats(
    game: Game,
    board: Board,
    allowed: &[u64; 3],
    stays: [u32; 3],
    i: u32,
    x: u32,
    sum: u32,
    left: u32,
) -> bool
    requires { Turn game board allowed.now stays × (board.count + left < 3) × Move game (i + 1) x × (sum ≡ spent game board stays (i + 1)) × (sum ≤ 30000000) }
    ensures { result ≡ beats game (shown board) (stays_in stays) left (i + 1) x }
{
    if !holds(game, board, allowed, stays, i, x, sum) {
        return true;
    }
    if left == 0 {
        return false;
    }
    !keeper(game, moved(game, board, stays, i + 1, x), left)
}

// By a request at some server?
#[cycle(asks_beats_guest_keeper)]
fn asks(game: Game, board: Board, allowed: &[u64; 3], stays: [u32; 3], i: u32, left: u32) -> bool
    requires { Turn game board allowed.now stays × (board.count + left < 3) × (i < game.largest) }
    ensures { result ≡ asking game (shown board) (stays_in stays) left i }
{
    let sum = spent(game, board, stays, i + 1);
    for x in 0..game.servers {
        if beats(game, board, allowed, stays, i, x, sum, left) {
            return true;
        }
    }
    false
}

// The guest's turn, who sees the stays: does the guest win, with `left` requests to come after this one?
#[cycle(asks_beats_guest_keeper)]
fn guest(game: Game, board: Board, allowed: &[u64; 3], stays: [u32; 3], left: u32) -> bool
    requires { Turn game board allowed.now stays × (board.count + left < 3) }
    ensures { result ≡ guest_wins game (shown board) (stays_in stays) (keeper_wins game left) }
{
    for i in 0..game.largest {
        if asks(game, board, allowed, stays, i, left) {
            return true;
        }
    }
    false
}

// The keeper's turn: does the keeper win, with `left` requests to come?
#[cycle(asks_beats_guest_keeper)]
pub(crate) fn keeper(game: Game, board: Board, left: u32) -> bool
    requires { Ranged game × Fits game board × (1 ≤ left) × (board.count + left ≤ 3) }
    ensures { result ≡ keeper_wins game left (shown board) }
{
    let allowed = limits(game, board);
    for k in 0..settings(game, board) {
        if !guest(game, board, &allowed, setting(game, board, k), left - 1) {
            return true;
        }
    }
    false
}
