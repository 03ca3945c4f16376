// Dwords.
ghost use Rattle.std.specs.Prelude.{◌≡◌, ◌&&◌, ◌==◌};

use code::K28_5;

// Four characters sent together: kind 0 is four data codes, kind 1 a special code and three data codes.
// Kept: the kind is a number, since sending refuses those above 1 by number.
#[derive(Clone, Copy, PartialEq, Eq, Default, Debug)]
pub struct Dword {
    pub kind: u8,
    pub b0: u8,
    pub b1: u8,
    pub b2: u8,
    pub b3: u8,
}

impl Dword {
    // Whether it is a K28.5 primitive.
    pub(crate) fn is_k28_5(self) -> bool
        ensures { result ≡ (self.kind == 1 && self.b0 == 0xBC) }
    {
        self.kind == 1 && self.b0 == K28_5
    }
}
