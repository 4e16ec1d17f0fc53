// Where a play stands, in arrays: it has at most three requests, at three servers.
ghost use Rattle.std.specs.Prelude.{◌≡◌, get_or};
ghost use Rattle.game.specs.Boards.{start_board};
ghost use Rattle.game.specs.Costs.{now_of, last_of};

// The number of requests, their seconds and servers, index 0 is home's copy at second 0; where copies stand; the seconds held and the transfers; for each c
// the least cost where the gaps above c are covered.
#[derive(Clone, Copy)]
pub(crate) struct Board {
    pub count: u32,
    pub seconds: [u32; 4],
    pub servers: [u32; 4],
    pub copies: [bool; 3],
    pub held: u32,
    pub transfers: u32,
    pub costs: [u32; 4],
}

// Before the first request.
pub(crate) fn start() -> Board
    ensures { result ≡ start_board }
{
    Board {
        count: 0,
        seconds: [0; 4],
        servers: [0; 4],
        copies: [true, false, false],
        held: 0,
        transfers: 0,
        costs: [0; 4],
    }
}

// What stands at a place of a short list, or what is given for the places past it.
pub(crate) fn at<T: Copy, const N: usize>(list: [T; N], i: u32, past: T) -> T
    ensures { result ≡ get_or list i past }
{
    let i = i as usize;
    if N <= i {
        return past;
    }
    list[i]
}

// The second of the last request.
pub(crate) fn now_of(board: Board) -> u32
    ensures { result ≡ now_of board }
{
    at(board.seconds, board.count, 0)
}

// Its server.
pub(crate) fn last_of(board: Board) -> u32
    ensures { result ≡ last_of board }
{
    at(board.servers, board.count, 0)
}
