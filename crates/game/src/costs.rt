// The least costs with one request more, by the table's recursion (model's Table), and what the limit then allows.
ghost use Rattle.std.specs.Prelude.{◌≡◌, ◌+◌, ◌*◌, ◌-◌, ◌≤◌, ◌<◌};
ghost use Rattle.base.specs.Lists.{build};
ghost use Rattle.game.specs.Answers.{Ranged};
ghost use Rattle.game.specs.Boards.{Fits};
ghost use Rattle.game.specs.Costs.{asked_at, source_of, sent_cost, kept_cost, next_cost, limit, limits};

use crate::board::{Board, at, now_of};
use forcing::Game;

// A price, paid a few times.
pub(crate) fn paid(price: u32, n: u32) -> u32
    requires { (price ≤ 1000000) × (n ≤ 27) }
    ensures value { result ≡ price * n }
    ensures upper_bound { result ≤ 1000000 * n }
{
    price * n
}

// A part of the limit times a cost.
pub(crate) fn scaled(part: u32, cost: u32) -> u64
    requires { (part ≤ 1000) × (cost ≤ 40000000) }
    ensures { result ≡ part * cost }
{
    u64::from(part) * u64::from(cost)
}

// Is request i one of those so far, and at server x?
fn asked_at(board: Board, x: u32, i: u32) -> bool
    ensures { result ≡ asked_at board x i }
{
    i <= board.count && at(board.servers, i, 0) == x
}

// The latest of the first three that is, or 4.
fn source(board: Board, x: u32) -> u32
    ensures { result ≡ source_of board x }
{
    if asked_at(board, x, 2) {
        return 2;
    }
    if asked_at(board, x, 1) {
        return 1;
    }
    if asked_at(board, x, 0) {
        return 0;
    }
    4
}

// The least cost if the next request is sent, `gap` seconds from now.
fn sent_cost(game: Game, board: Board, gap: u32, c: u32) -> u32
    requires { Ranged game × Fits game board × (board.count < 3) × (gap ≤ 3) }
    ensures { result ≡ sent_cost game board gap c }
{
    let before = at(board.costs, c.min(board.count), 0);
    if board.count < c {
        return game.prices.transfer + paid(game.prices.hold, gap) + before;
    }
    game.prices.transfer + before
}

// The least cost if it is kept since request `from`.
fn kept_cost(game: Game, board: Board, gap: u32, from: u32, c: u32) -> u32
    requires { Ranged game × Fits game board × (board.count < 3) × (gap ≤ 3) }
    ensures { result ≡ kept_cost game board gap from c }
{
    let since = at(board.seconds, from, 0);
    let before = at(board.costs, c.min(from), 0);
    let span = now_of(board) + gap - since;
    paid(game.prices.hold, span) + before
}

// The least cost of both, over what is legal, where `from` is the latest request at its server.
fn next_cost(game: Game, board: Board, gap: u32, from: u32, c: u32) -> u32
    requires { Ranged game × Fits game board × (board.count < 3) × (gap ≤ 3) }
    ensures { result ≡ next_cost game board gap from c }
{
    if from == 4 {
        return sent_cost(game, board, gap, c);
    }
    if from == board.count {
        return kept_cost(game, board, gap, from, c);
    }
    sent_cost(game, board, gap, c).min(kept_cost(game, board, gap, from, c))
}

// The costs for each c.
pub(crate) fn next_costs(game: Game, board: Board, gap: u32, x: u32) -> [u32; 4]
    requires { Ranged game × Fits game board × (board.count < 3) × (gap ≤ 3) }
    ensures { result ≡ build 4 (next_cost game board gap (source_of board x)) }
{
    let from = source(board, x);
    [
        next_cost(game, board, gap, from, 0),
        next_cost(game, board, gap, from, 1),
        next_cost(game, board, gap, from, 2),
        next_cost(game, board, gap, from, 3),
    ]
}

// p times the least cost with a request at server x, but for the holding of the gap before it.
fn limit(game: Game, board: Board, x: u32) -> u64
    requires { Ranged game × Fits game board × (board.count < 3) }
    ensures { result ≡ limit game board x }
{
    let from = source(board, x);
    let cost = next_cost(game, board, 0, from, board.count + 1);
    scaled(game.p, cost)
}

// For each of three servers.
#[tactic(auto, unfolding(crate::specs::Costs::limits, base::specs::Lists::build))]
pub(crate) fn limits(game: Game, board: Board) -> [u64; 3]
    requires { Ranged game × Fits game board × (board.count < 3) }
    ensures { result ≡ limits game board }
{
    [
        limit(game, board, 0),
        limit(game, board, 1),
        limit(game, board, 2),
    ]
}
