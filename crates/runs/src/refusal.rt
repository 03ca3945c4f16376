// Why a driver makes no call.

#[derive(Clone, Copy, PartialEq, Eq, Debug)]
pub enum RunRefusal {
    // the memory has fewer places than there are calls
    TooFewPlaces,
    // the line is not empty
    BitsWaiting,
}
