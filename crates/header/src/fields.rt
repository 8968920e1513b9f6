// The disc header: 21 fields in the first 0x440 bytes of an image.
ghost use Rattle.std.specs.Prelude.{◌≡◌, ◌<◌, slice_index};
ghost use Rattle.refusal.specs.Refusal.{first};
ghost use Rattle.endian.specs.Bytes.{be32};
ghost use Rattle.header.specs.Verdicts.{field_verdict, header_verdict, bounds_verdict};
ghost use Rattle.header.specs.Verdicts as verdicts_of;
ghost use Rattle.header.specs.Verdicts.{table_end};
ghost use Rattle.header.specs.Inner.Bounds.{bounds_within};
ghost use Rattle.header.specs.Inner.Judged.{IsJudged};

use refusal::{Refusal, Verdict};

/// How many bytes the header has: 0x440.
pub const HEADER_LEN: usize = 0x440;

/// The word at 0x1C of a GameCube disc.
pub const GCN_MAGIC: u32 = 0xC2339F3D;

/// The word at 0x18 of a Wii disc.
pub const WII_MAGIC: u32 = 0x5D1C9EA3;

/// The place of a field: its offset, and how many bytes it has.
#[derive(Clone, Copy, PartialEq, Eq, Debug)]
pub struct Field {
    pub at: usize,
    pub len: usize,
}

impl Field {
    pub const GAME_CODE: Field = Field { at: 0x0, len: 4 };

    pub const MAKER_CODE: Field = Field { at: 0x4, len: 2 };

    pub const DISC_ID: Field = Field { at: 0x6, len: 1 };

    pub const VERSION: Field = Field { at: 0x7, len: 1 };

    pub const AUDIO_STREAMING: Field = Field { at: 0x8, len: 1 };

    pub const STREAM_BUFFER_SIZE: Field = Field { at: 0x9, len: 1 };

    pub const UNUSED_00A: Field = Field { at: 0xA, len: 14 };

    pub const WII_MAGIC: Field = Field { at: 0x18, len: 4 };

    pub const GCN_MAGIC: Field = Field { at: 0x1C, len: 4 };

    pub const GAME_NAME: Field = Field { at: 0x20, len: 992 };

    pub const DEBUG_MONITOR_OFFSET: Field = Field { at: 0x400, len: 4 };

    pub const DEBUG_MONITOR_ADDR: Field = Field { at: 0x404, len: 4 };

    pub const UNUSED_408: Field = Field { at: 0x408, len: 24 };

    pub const DOL_OFFSET: Field = Field { at: 0x420, len: 4 };

    pub const FST_OFFSET: Field = Field { at: 0x424, len: 4 };

    pub const FST_SIZE: Field = Field { at: 0x428, len: 4 };

    pub const FST_MAX_SIZE: Field = Field { at: 0x42C, len: 4 };

    pub const USER_POSITION: Field = Field { at: 0x430, len: 4 };

    pub const USER_SIZE: Field = Field { at: 0x434, len: 4 };

    pub const DISC_SIZE: Field = Field { at: 0x438, len: 4 };

    pub const UNUSED_43C: Field = Field { at: 0x43C, len: 4 };
}

// The table: the 21 fields in order, which tile 0x440 bytes (specs/Laws/Tiling).
// Kept: an array, since a header has 21 fields, no more and no fewer, and nothing is allocated.
const FIELDS: [Field; 21] = [
    Field::GAME_CODE,
    Field::MAKER_CODE,
    Field::DISC_ID,
    Field::VERSION,
    Field::AUDIO_STREAMING,
    Field::STREAM_BUFFER_SIZE,
    Field::UNUSED_00A,
    Field::WII_MAGIC,
    Field::GCN_MAGIC,
    Field::GAME_NAME,
    Field::DEBUG_MONITOR_OFFSET,
    Field::DEBUG_MONITOR_ADDR,
    Field::UNUSED_408,
    Field::DOL_OFFSET,
    Field::FST_OFFSET,
    Field::FST_SIZE,
    Field::FST_MAX_SIZE,
    Field::USER_POSITION,
    Field::USER_SIZE,
    Field::DISC_SIZE,
    Field::UNUSED_43C,
];

// The tests made as a field is read.
#[tactic(auto, using(std::proofs::lemmas::Bool::Decides::nat_tests), unfolding(crate::specs::Verdicts::field_verdict))]
fn check_field(image: &[u8], f: Field) -> Verdict
    requires { IsJudged f }
    ensures { result ≡ field_verdict image.now f }
{
    if image.len() < f.at + f.len {
        return Err(Refusal::HeaderPastImage);
    }
    if f.at == Field::WII_MAGIC.at && endian::read_u32(image, f.at) == WII_MAGIC {
        return Err(Refusal::WiiNotSupported);
    }
    if f.at == Field::GCN_MAGIC.at && endian::read_u32(image, f.at) != GCN_MAGIC {
        return Err(Refusal::InvalidMagic);
    }
    Ok(())
}

/// The header's tests, field by field: `HeaderPastImage` at the first that the image does not hold,
/// `WiiNotSupported` and `InvalidMagic` as soon as their magic is read.
pub fn check(image: &[u8]) -> Verdict
    ensures { result ≡ header_verdict image.now }
{
    for field in FIELDS.iter() {
        check_field(image, *field)?;
    }
    Ok(())
}

// ---- what the header of an image says of the disc, for the layers above: they ask once the header has
// passed. In an image too short for a field a byte past the end reads as 0, so that the answer is settled
// there too.

fn byte_at(image: &[u8], at: usize) -> u8
    ensures { result ≡ slice_index image.now at }
{
    image.get(at).copied().unwrap_or(0)
}

// The number in a field of 4 bytes.
#[tactic(auto, unfolding(endian::specs::Bytes::be32))]
fn word_at(image: &[u8], at: usize) -> u32
    requires { at < 0x440 }
    ensures { result ≡ be32 image.now at }
{
    u32::from_be_bytes([
        byte_at(image, at),
        byte_at(image, at + 1),
        byte_at(image, at + 2),
        byte_at(image, at + 3),
    ])
}

/// Where the executable's header stands, 0 if there is none.
pub fn dol_offset(image: &[u8]) -> u32
    ensures { result ≡ verdicts_of.dol_offset image.now }
{
    word_at(image, Field::DOL_OFFSET.at)
}

/// Where the file table stands.
pub fn fst_offset(image: &[u8]) -> u32
    ensures { result ≡ verdicts_of.fst_offset image.now }
{
    word_at(image, Field::FST_OFFSET.at)
}

/// How many bytes the file table has.
pub fn fst_size(image: &[u8]) -> u32
    ensures { result ≡ verdicts_of.fst_size image.now }
{
    word_at(image, Field::FST_SIZE.at)
}

/// How many bytes a file table of this disc may have.
pub fn fst_max_size(image: &[u8]) -> u32
    ensures { result ≡ verdicts_of.fst_max_size image.now }
{
    word_at(image, Field::FST_MAX_SIZE.at)
}

/// Where the disc ends: its user size and its disc size together.
pub fn disc_end(image: &[u8]) -> u64
    ensures { result ≡ verdicts_of.disc_end image.now }
{
    u64::from(word_at(image, Field::USER_SIZE.at)) + u64::from(word_at(image, Field::DISC_SIZE.at))
}

/// Where the file table ends.
pub fn table_end(image: &[u8]) -> u64
    ensures { result ≡ table_end image.now }
{
    u64::from(fst_offset(image)) + u64::from(fst_size(image))
}

// The places that the header gives. The table is held to the disc end, and not to the image's.
#[tactic(auto, using(std::proofs::lemmas::Bool::Decides::nat_tests), unfolding(crate::specs::Inner::Bounds::bounds_within))]
fn bounds(header: &[u8], image_length: u64) -> Verdict
    ensures { result ≡ bounds_within header.now image_length }
{
    let end = disc_end(header);
    if fst_offset(header) < HEADER_LEN as u32
        || u64::from(u32::MAX) < end
        || end < table_end(header)
        || image_length < end
    {
        return Err(Refusal::InvalidBounds);
    }
    Ok(())
}

/// What `check_bounds` answers for an image of that length, from its header alone.
pub fn check_bounds_within(header: &[u8], image_length: u64) -> Verdict
    ensures { result ≡ first (header_verdict header.now) (bounds_within header.now image_length) }
{
    check(header)?;
    bounds(header, image_length)
}

/// The header's own tests, then the places that it gives: `InvalidBounds` if the table begins inside the
/// header, or the disc ends past 2^32 - 1, before its table does or past the image's end.
#[tactic(auto, unfolding(crate::specs::Verdicts::bounds_verdict, crate::specs::Inner::Bounds::bounds_within))]
pub fn check_bounds(image: &[u8]) -> Verdict
    ensures { result ≡ first (header_verdict image.now) (bounds_verdict image.now) }
{
    check_bounds_within(image, image.len() as u64)
}
