// A sender: it puts dwords on a line, and keeps the disparity from one to the next.
ghost use Rattle.std.specs.Prelude.{◌<◌};

use bringup::end::End;

pub mod opening;
pub mod sending;

// Why no sender was opened; the end comes back.
#[derive(Drop)]
pub enum OpenRefusal {
    DisparityAboveOne(End),
    NotReady(End),
}

// Why a dword is not sent.
#[derive(Clone, Copy, PartialEq, Eq, Debug)]
pub enum SendRefusal {
    KindAboveOne,
    // kind 1, and the first byte is of no special code
    NotSpecial,
    // fewer than forty places are free
    NoRoom,
}

// It keeps only the disparity of the next character.
// Kept: a number, since the laws of senders count with it and `encode` takes a number.
#[derive(Drop)]
pub struct Sender {
    disparity: u8,
    ghost binary: { disparity < 2 },
}
