//! Why a call refuses: each cause with its number, as text, to a number and from one.
#![tactic(auto)]

ghost use Rattle.std.specs.Prelude.{◌≡◌};
ghost use Rattle.refusal.specs.Refusal.{number_of};

use std::error::Error;
use std::fmt;

mod number;

pub use number::NoCause;

/// Why a call refuses. The discriminants are the numbers that callers in C see.
#[derive(Clone, Copy, PartialEq, Eq, Debug)]
pub enum Refusal {
    HeaderPastImage = 1,
    WiiNotSupported = 2,
    InvalidMagic = 3,
    InvalidBounds = 4,
    EntryPastTable = 5,
    UnrecognizedKind = 6,
    RootIsNotDirectory = 7,
    MissingNullTerminator = 8,
    LimitOrMemory = 9,
    InvalidNextIndex = 10,
    InvalidNameOffset = 11,
    InvalidNameByte = 12,
    UnsafeName = 13,
    OverlappingRegions = 14,
    NoSuchEntry = 15,
    ExpectedFile = 16,
    ExpectedDirectory = 17,
    NotFound = 18,
    AlreadyExists = 19,
    OverlappingMove = 20,
    NotEnoughSpace = 21,
    InvalidAlignment = 22,
    InvalidSeek = 23,
    InvalidDol = 24,
    TotalsOutOfRange = 25,
    TableAboveMaximum = 26,
    TakenAboveLimit = 27,
    FreeBelowShares = 28,
    SpanNotFree = 29,
    InvalidSheet = 30,
}

impl Refusal {
    /// The number of the cause, 1 to 30.
    pub fn number(self) -> u32
        ensures { result ≡ number_of self }
    {
        self as u32
    }
}

impl fmt::Display for Refusal {
    fn fmt<W: fmt::Write>(&self, f: &mut fmt::Formatter<W>) -> fmt::Result {
        f.write_str(match self {
            Refusal::HeaderPastImage => "header field past the image",
            Refusal::WiiNotSupported => "Wii magic",
            Refusal::InvalidMagic => "not GameCube magic",
            Refusal::InvalidBounds =>
                "FST offset below 0x440, disc end above 2^32 - 1, table end past it, or image shorter than it",
            Refusal::EntryPastTable => "entry past the table",
            Refusal::UnrecognizedKind => "kind above 1",
            Refusal::RootIsNotDirectory => "root a file",
            Refusal::MissingNullTerminator => "last text unended",
            Refusal::LimitOrMemory => "limit or memory",
            Refusal::InvalidNextIndex =>
                "next at or before its entry, past the count or past its parent's next",
            Refusal::InvalidNameOffset => "name offset at or past the texts' end",
            Refusal::InvalidNameByte => "name byte",
            Refusal::UnsafeName => "unsafe or empty name",
            Refusal::OverlappingRegions => "used regions overlap or pass the disc end",
            Refusal::NoSuchEntry => "no such entry",
            Refusal::ExpectedFile => "file wanted",
            Refusal::ExpectedDirectory => "directory wanted",
            Refusal::NotFound => "not found",
            Refusal::AlreadyExists => "name exists",
            Refusal::OverlappingMove => "move overlaps itself",
            Refusal::NotEnoughSpace => "no space",
            Refusal::InvalidAlignment => "alignment no power of two",
            Refusal::InvalidSeek => "seek",
            Refusal::InvalidDol => "DOL header past the image, or a sum above 2^32 - 1",
            Refusal::TotalsOutOfRange => "used bytes or edit count would leave 0 to 2^32 - 1",
            Refusal::TableAboveMaximum => "new table above the maximum",
            Refusal::TakenAboveLimit => "taken bytes above the team's limit",
            Refusal::FreeBelowShares => "free bytes below the other teams' shares",
            Refusal::SpanNotFree => "span to be zeroed not wholly free",
            Refusal::InvalidSheet =>
                "no edit sheet: its count, bounds, or a line's kind, fields or path",
        })
    }
}

impl Error for Refusal {}

/// The answer of a test that gives no value.
pub type Verdict = Result<(), Refusal>;
