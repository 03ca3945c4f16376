// What a hearing answers.
use crate::dword::Dword;

// The numbers of the first and the last dword of a run.
#[derive(Clone, Copy, PartialEq, Eq, Debug)]
pub struct Span {
    pub first: u32,
    pub last: u32,
}

// What the end of a dword says of the open stretch, that is of the good dwords before it that are not yet settled: they
// are vouched for, that is known to be what was sent, or doubtful.
#[derive(Clone, Copy, PartialEq, Eq, Debug)]
pub enum Settlement {
    Vouched(Span),
    Doubtful(Span),
}

// A dword that is handed out with its number.
#[derive(Clone, Copy, PartialEq, Eq, Debug)]
pub struct GoodDword {
    pub settlement: Option<Settlement>,
    pub number: u32,
    pub dword: Dword,
}

// A dword that is reported: the mask adds 1, 2, 4 and 8 for the refused characters at places 0 to 3.
#[derive(Clone, Copy, PartialEq, Eq, Debug)]
pub struct BadDword {
    pub settlement: Option<Settlement>,
    pub number: u32,
    pub mask: u8,
    pub lost: bool,
}

#[derive(Clone, Copy, PartialEq, Eq, Debug)]
pub enum Heard {
    // no bit waits
    Dry,
    // a bit that completes nothing to tell of
    More,
    // a bad dword before sync
    Slip,
    // sync
    Gained,
    Good(GoodDword),
    Bad(BadDword),
}
