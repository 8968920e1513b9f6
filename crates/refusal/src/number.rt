// A cause from its number, and a number from its cause.
ghost use Rattle.std.specs.Prelude.{◌≡◌};
ghost use Rattle.refusal.specs.Refusal.{number_of};
ghost use Rattle.refusal.specs.Causes.{IsCauseOf};

use crate::Refusal;
use std::error::Error;
use std::fmt;

/// A number that no cause has.
#[derive(Clone, Copy, PartialEq, Eq, Debug)]
pub struct NoCause(pub u32);

impl From<Refusal> for u32 {
    ghost from_gives = { λ cause number. number ≡ number_of cause };

    fn from(cause: Refusal) -> u32 {
        cause.number()
    }
}

impl TryFrom<u32> for Refusal {
    type Error = NoCause;

    ghost try_from_gives = { IsCauseOf };

    fn try_from(number: u32) -> Result<Refusal, NoCause> {
        match number {
            1 => Ok(Refusal::HeaderPastImage),
            2 => Ok(Refusal::WiiNotSupported),
            3 => Ok(Refusal::InvalidMagic),
            4 => Ok(Refusal::InvalidBounds),
            5 => Ok(Refusal::EntryPastTable),
            6 => Ok(Refusal::UnrecognizedKind),
            7 => Ok(Refusal::RootIsNotDirectory),
            8 => Ok(Refusal::MissingNullTerminator),
            9 => Ok(Refusal::LimitOrMemory),
            10 => Ok(Refusal::InvalidNextIndex),
            11 => Ok(Refusal::InvalidNameOffset),
            12 => Ok(Refusal::InvalidNameByte),
            13 => Ok(Refusal::UnsafeName),
            14 => Ok(Refusal::OverlappingRegions),
            15 => Ok(Refusal::NoSuchEntry),
            16 => Ok(Refusal::ExpectedFile),
            17 => Ok(Refusal::ExpectedDirectory),
            18 => Ok(Refusal::NotFound),
            19 => Ok(Refusal::AlreadyExists),
            20 => Ok(Refusal::OverlappingMove),
            21 => Ok(Refusal::NotEnoughSpace),
            22 => Ok(Refusal::InvalidAlignment),
            23 => Ok(Refusal::InvalidSeek),
            24 => Ok(Refusal::InvalidDol),
            25 => Ok(Refusal::TotalsOutOfRange),
            26 => Ok(Refusal::TableAboveMaximum),
            27 => Ok(Refusal::TakenAboveLimit),
            28 => Ok(Refusal::FreeBelowShares),
            29 => Ok(Refusal::SpanNotFree),
            30 => Ok(Refusal::InvalidSheet),
            _ => Err(NoCause(number)),
        }
    }
}

impl fmt::Display for NoCause {
    fn fmt<W: fmt::Write>(&self, f: &mut fmt::Formatter<W>) -> fmt::Result {
        write!(f, "no cause has the number {}", self.0)
    }
}

impl Error for NoCause {}
