// The game of 02's Req 13, what can a contrary guest force. No function is here: positions, rounds and who can force a win are in specs/.
#![tactic(auto)]

use prices::Prices;

// A game: how many servers, home is 0, and how many requests; a gap has from 1 second to the largest; the prices; the limit p over q. Its layout is C's.
#[repr(C)]
#[derive(Clone, Copy)]
pub struct Game {
    pub servers: u32,
    pub requests: u32,
    pub largest: u32,
    pub prices: Prices,
    pub p: u32,
    pub q: u32,
}
