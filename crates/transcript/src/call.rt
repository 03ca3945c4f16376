// Calls on a link, that is on a line, its sender and its receiver.
use line::refusal::TurnRefusal;
use link::dword::Dword;
use link::heard::Heard;
use link::receiver::hearing::HearRefusal;
use link::sender::SendRefusal;

#[derive(Clone, Copy, PartialEq, Eq, Debug)]
pub enum LinkCall {
    Send(Dword),
    Turn(usize),
    Take,
    Hear,
}

// A call with its answer.
#[derive(Clone, Copy, PartialEq, Eq, Debug)]
pub enum LinkEvent {
    Send(Dword, Result<(), SendRefusal>),
    Turn(usize, Result<(), TurnRefusal>),
    Take(Option<u8>),
    Hear(Result<Heard, HearRefusal>),
}
