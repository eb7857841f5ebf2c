// Why a call is refused: the refusals of document 01, in the order of their numbers, and behind them those of fixed sizes and of values.
#![tactic(auto)]

ghost use Rattle.std.specs.Prelude.{◌≡◌};
ghost use Rattle.refusal.specs.Numbers.{number};
ghost use Rattle.refusal.specs.Decoding.{Decodes};
ghost use Rattle.refusal.specs.Laws.{Numbered};

#[derive(Clone, Copy, Debug, PartialEq, Eq, PartialOrd, Ord)]
pub enum Refusal {
    // The bytes are more than a bundle may have.
    TooLong,
    // The bytes end where more are due.
    Short,
    // A kind byte may not stand at this place.
    WrongKind,
    // Packed, jagged or an edge's kind is none that there is.
    WrongValue,
    // A count in the header is over its limit.
    TooMany,
    // A type or expression is due below the last level.
    TooDeep,
    // Bytes stand behind the last record that is due.
    Trailing,
    // A definition leads back to itself.
    Circle,
    // The lent places are fewer than those of the result.
    NoRoom,
    // An alignment is no power of two.
    WrongAlignment,
    // A size varies, or there is nothing that has one.
    Varies,
    // A size is over its limit.
    TooLarge,
    // A divisor is zero.
    ZeroDivisor,
    // A value is outside signed 64 bits.
    OutOfRange,
    // An expression is of a kind that has no value.
    NotCovered,
}

impl From<Refusal> for u8 {
    ghost from_gives = { λ refusal n. n ≡ number refusal };

    fn from(refusal: Refusal) -> u8 {
        match refusal {
            Refusal::TooLong => 1,
            Refusal::Short => 2,
            Refusal::WrongKind => 3,
            Refusal::WrongValue => 4,
            Refusal::TooMany => 5,
            Refusal::TooDeep => 6,
            Refusal::Trailing => 7,
            Refusal::Circle => 8,
            Refusal::NoRoom => 9,
            Refusal::WrongAlignment => 10,
            Refusal::Varies => 11,
            Refusal::TooLarge => 12,
            Refusal::ZeroDivisor => 13,
            Refusal::OutOfRange => 14,
            Refusal::NotCovered => 15,
        }
    }
}

// A number that no refusal has.
#[derive(Clone, Copy, Debug, PartialEq, Eq)]
pub struct NoRefusal(pub u8);

impl TryFrom<u8> for Refusal {
    type Error = NoRefusal;

    ghost try_from_gives = { Decodes };

    fn try_from(n: u8) -> Result<Self, NoRefusal> {
        match n {
            1 => Ok(Refusal::TooLong),
            2 => Ok(Refusal::Short),
            3 => Ok(Refusal::WrongKind),
            4 => Ok(Refusal::WrongValue),
            5 => Ok(Refusal::TooMany),
            6 => Ok(Refusal::TooDeep),
            7 => Ok(Refusal::Trailing),
            8 => Ok(Refusal::Circle),
            9 => Ok(Refusal::NoRoom),
            10 => Ok(Refusal::WrongAlignment),
            11 => Ok(Refusal::Varies),
            12 => Ok(Refusal::TooLarge),
            13 => Ok(Refusal::ZeroDivisor),
            14 => Ok(Refusal::OutOfRange),
            15 => Ok(Refusal::NotCovered),
            _ => Err(NoRefusal(n)),
        }
    }
}

// Each refusal has one number, and each number one refusal.
pub fn numbered()
    ensures { Numbered }
{}
