// A round: the position after the keeper set its stays and the guest asked.
ghost use Rattle.std.specs.Prelude.{true, ◌≡◌, ◌+◌, ◌≤◌, ◌<◌, min, leb, eqb, get_or};
ghost use Rattle.base.specs.Choice.{pick, either};
ghost use Rattle.game.specs.Answers.{Ranged};
ghost use Rattle.game.specs.Boards.{Fits, moved};

use crate::board::{Board, at, now_of};
use crate::costs::next_costs;
use forcing::Game;

// Does a copy stand at server y after the request at x?
fn here(stays: [u32; 3], gap: u32, x: u32, y: u32) -> bool
    ensures { result ≡ either (eqb y x) (leb gap (get_or stays y 0)) }
{
    y == x || gap <= at(stays, y, 0)
}

// The transfers that the request at x takes.
pub(crate) fn sends(stays: [u32; 3], gap: u32, x: u32) -> u32
    ensures value { result ≡ pick (leb gap (get_or stays x 0)) 0 1 }
    ensures upper_bound { result ≤ 1 }
{
    if gap <= at(stays, x, 0) {
        return 0;
    }
    1
}

// The seconds that server y holds in the gap.
fn holding(stays: [u32; 3], gap: u32, y: u32) -> u32
    ensures value { result ≡ min (get_or stays y 0) gap }
    ensures upper_bound { result ≤ gap }
{
    at(stays, y, 0).min(gap)
}

// The seconds that all three hold in it.
pub(crate) fn holding_all(stays: [u32; 3], gap: u32) -> u32
    requires { gap ≤ 3 }
    ensures value { result ≡ min (get_or stays 0 0) gap + min (get_or stays 1 0) gap + min (get_or stays 2 0) gap }
    ensures upper_bound { result ≤ 9 }
{
    holding(stays, gap, 0) + holding(stays, gap, 1) + holding(stays, gap, 2)
}

// The board after the round. `stays` has the largest gap at the last server, and 0 where no copy stands.
pub(crate) fn moved(game: Game, board: Board, stays: [u32; 3], gap: u32, x: u32) -> Board
    requires { Ranged game × Fits game board × (board.count < 3) × (gap ≤ 3) }
    ensures { result ≡ moved game board stays gap x }
{
    let count = board.count + 1;
    let at = count as usize;
    let mut seconds = board.seconds;
    seconds[at] = now_of(board) + gap;
    let mut servers = board.servers;
    servers[at] = x;
    let copies = [
        here(stays, gap, x, 0),
        here(stays, gap, x, 1),
        here(stays, gap, x, 2),
    ];
    let held = board.held + holding_all(stays, gap);
    let transfers = board.transfers + sends(stays, gap, x);
    let costs = next_costs(game, board, gap, x);
    Board {
        count,
        seconds,
        servers,
        copies,
        held,
        transfers,
        costs,
    }
}
