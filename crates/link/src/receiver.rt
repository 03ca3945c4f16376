// A receiver: it hunts for a comma, gains sync, and hands out dwords.
ghost use Rattle.std.specs.Prelude.{◌^◌, ◌<◌, ◌≤◌};

use crate::state::State;

mod closing;
mod framing;
pub mod hearing;

#[derive(Drop)]
pub struct Receiver {
    state: State,
    // fewer than ten loose bits
    ghost few: { state.framing.held ≤ 9 },
    ghost bits: { state.framing.loose < 2 ^ state.framing.held },
    ghost place: { state.framing.place ≤ 3 },
    ghost disparity: { state.disparity < 2 },
    ghost count: { state.ledger.count ≤ 2 },
    ghost debt: { state.ledger.debt ≤ 3 },
    // the open stretch lies within the numbers given
    ghost stretch: { state.ledger.pending ≤ state.ledger.number },
}
