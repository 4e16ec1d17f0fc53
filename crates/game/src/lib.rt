// Who wins the game of 02's Req 13 (crate forcing): the keeper's turn and the guest's, tried through.
#![tactic(auto)]

mod board;
mod costs;
mod playing;
mod rounds;
mod settings;
mod turns;

pub use playing::play;

// Who wins.
#[derive(Clone, Copy, Debug, PartialEq, Eq)]
pub enum Winner {
    Keeper,
    Guest,
}
