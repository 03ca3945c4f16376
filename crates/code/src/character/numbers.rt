// What calls take and give by number: kinds and disparities.
ghost use Rattle.std.specs.Prelude.{◌≡◌, ◌-◌};
ghost use Rattle.code.specs.Kinds.{kind_number, kind_from};
ghost use Rattle.code.specs.Disparities.{disparity_number, disparity_from};

// What a code's byte is.
#[derive(Clone, Copy, PartialEq, Eq, Debug)]
pub enum Kind {
    Data,
    Special,
}

// A number that is no kind's.
#[derive(Clone, Copy, PartialEq, Eq, Debug)]
pub struct UnknownKind(pub u8);

impl From<Kind> for u8 {
    ghost from_gives = { λ kind number. number ≡ kind_number kind };

    fn from(kind: Kind) -> u8 {
        match kind {
            Kind::Data => 0,
            Kind::Special => 1,
        }
    }
}

impl TryFrom<u8> for Kind {
    type Error = UnknownKind;

    ghost try_from_gives = { λ number outcome. outcome ≡ kind_from number };

    fn try_from(number: u8) -> Result<Kind, UnknownKind> {
        match number {
            0 => Ok(Kind::Data),
            1 => Ok(Kind::Special),
            _ => Err(UnknownKind(number)),
        }
    }
}

// The column that the next half stands in.
#[derive(Clone, Copy, PartialEq, Eq, Debug)]
pub enum Disparity {
    Minus,
    Plus,
}

// A number that is no disparity's.
#[derive(Clone, Copy, PartialEq, Eq, Debug)]
pub struct UnknownDisparity(pub u8);

impl From<Disparity> for u8 {
    ghost from_gives = { λ disparity number. number ≡ disparity_number disparity };

    fn from(disparity: Disparity) -> u8 {
        match disparity {
            Disparity::Minus => 0,
            Disparity::Plus => 1,
        }
    }
}

impl TryFrom<u8> for Disparity {
    type Error = UnknownDisparity;

    ghost try_from_gives = { λ number outcome. outcome ≡ disparity_from number };

    fn try_from(number: u8) -> Result<Disparity, UnknownDisparity> {
        match number {
            0 => Ok(Disparity::Minus),
            1 => Ok(Disparity::Plus),
            _ => Err(UnknownDisparity(number)),
        }
    }
}

impl Disparity {
    pub fn other(self) -> Disparity
        ensures { disparity_number result ≡ 1 - disparity_number self }
    {
        match self {
            Disparity::Minus => Disparity::Plus,
            Disparity::Plus => Disparity::Minus,
        }
    }
}
