// The disc header as a value: read, made and written.
ghost use Rattle.std.specs.Prelude.{◌≡◌, ◌+◌, ◌≤◌, ◌<◌, length};
ghost use Rattle.endian.specs.Bytes.{put, span};
ghost use Rattle.header.specs.Header.{header_of, blank_header, header_answer};
ghost use Rattle.header.specs.Header.{write_verdict, image_with_header};
ghost use Rattle.header.specs.Inner.Writing.{put_some};

use crate::fields;
use crate::fields::{Field, HEADER_LEN};
use refusal::{Refusal, Verdict};

/// The 21 fields of the header, numbers in the order of this machine.
// Kept: arrays, since these fields have so many bytes on every disc, and nothing is allocated.
#[derive(Clone, Copy, PartialEq, Eq, Debug)]
pub struct DiscHeader {
    pub game_code: [u8; 4],
    pub maker_code: [u8; 2],
    pub disc_id: u8,
    pub version: u8,
    pub audio_streaming: u8,
    pub stream_buffer_size: u8,
    pub unused_00a: [u8; 0x0E],
    pub wii_magic: u32,
    pub gcn_magic: u32,
    pub game_name: [u8; 0x3E0],
    pub debug_monitor_offset: u32,
    pub debug_monitor_addr: u32,
    pub unused_408: [u8; 0x18],
    pub dol_offset: u32,
    pub fst_offset: u32,
    pub fst_size: u32,
    pub fst_max_size: u32,
    pub user_position: u32,
    pub user_size: u32,
    pub disc_size: u32,
    pub unused_43c: u32,
}

impl DiscHeader {
    /// The word at 0x1C of a GameCube disc.
    pub const GCN_MAGIC: u32 = fields::GCN_MAGIC;

    /// The word at 0x18 of a Wii disc.
    pub const WII_MAGIC: u32 = fields::WII_MAGIC;

    /// A header of a GameCube disc, with every other field 0.
    #[tactic(auto, unfolding(crate::specs::Header::blank_header))]
    pub fn new() -> Self
        ensures { result ≡ blank_header }
    {
        DiscHeader {
            game_code: [0; 4],
            maker_code: [0; 2],
            disc_id: 0,
            version: 0,
            audio_streaming: 0,
            stream_buffer_size: 0,
            unused_00a: [0; 0x0E],
            wii_magic: 0,
            gcn_magic: Self::GCN_MAGIC,
            game_name: [0; 0x3E0],
            debug_monitor_offset: 0,
            debug_monitor_addr: 0,
            unused_408: [0; 0x18],
            dol_offset: 0,
            fst_offset: 0,
            fst_size: 0,
            fst_max_size: 0,
            user_position: 0,
            user_size: 0,
            disc_size: 0,
            unused_43c: 0,
        }
    }

    /// The header of an image, refused as `header::check` refuses it. The game name, the word at 0x18 and the
    /// unused runs are kept as they are.
    pub fn read_from(image: &[u8]) -> Result<DiscHeader, Refusal>
        ensures { result ≡ header_answer image.now }
    {
        fields::check(image)?;
        Ok(read_fields(image))
    }
}

// N bytes from `at` on.
fn bytes_at<const N: usize>(image: &[u8], at: usize) -> [u8; N]
    requires { at + N ≤ length image.now }
    ensures { result ≡ span image.now at N }
{
    let mut bytes = [0; N];
    bytes.copy_from_slice(&image[at..at + N]);
    bytes
}

// Straight down the table.
#[tactic(auto, unfolding(crate::specs::Header::header_of))]
fn read_fields(image: &[u8]) -> DiscHeader
    requires { 0x440 ≤ length image.now }
    ensures { result ≡ header_of image.now }
{
    DiscHeader {
        game_code: bytes_at(image, Field::GAME_CODE.at),
        maker_code: bytes_at(image, Field::MAKER_CODE.at),
        disc_id: endian::read_u8(image, Field::DISC_ID.at),
        version: endian::read_u8(image, Field::VERSION.at),
        audio_streaming: endian::read_u8(image, Field::AUDIO_STREAMING.at),
        stream_buffer_size: endian::read_u8(image, Field::STREAM_BUFFER_SIZE.at),
        unused_00a: bytes_at(image, Field::UNUSED_00A.at),
        wii_magic: endian::read_u32(image, Field::WII_MAGIC.at),
        gcn_magic: endian::read_u32(image, Field::GCN_MAGIC.at),
        game_name: bytes_at(image, Field::GAME_NAME.at),
        debug_monitor_offset: endian::read_u32(image, Field::DEBUG_MONITOR_OFFSET.at),
        debug_monitor_addr: endian::read_u32(image, Field::DEBUG_MONITOR_ADDR.at),
        unused_408: bytes_at(image, Field::UNUSED_408.at),
        dol_offset: endian::read_u32(image, Field::DOL_OFFSET.at),
        fst_offset: endian::read_u32(image, Field::FST_OFFSET.at),
        fst_size: endian::read_u32(image, Field::FST_SIZE.at),
        fst_max_size: endian::read_u32(image, Field::FST_MAX_SIZE.at),
        user_position: endian::read_u32(image, Field::USER_POSITION.at),
        user_size: endian::read_u32(image, Field::USER_SIZE.at),
        disc_size: endian::read_u32(image, Field::DISC_SIZE.at),
        unused_43c: endian::read_u32(image, Field::UNUSED_43C.at),
    }
}

// All bytes of `bytes`, from `at` on.
fn write_all(image: &mut [u8], at: usize, bytes: &[u8])
    requires { at + length bytes.now ≤ length image.old }
    ensures { image.new ≡ put image.old at bytes.now }
{
    endian::copy(bytes, 0, image, at, bytes.len());
}

// The header written in three parts: the fields up to the magics, those up to the DOL offset, and the words
// from there on.
impl DiscHeader {
    fn write_codes(self, image: &mut [u8])
        requires { 0x440 ≤ length image.old }
        ensures { image.new ≡ put_some 0 7 self image.old }
    {
        write_all(image, Field::GAME_CODE.at, &self.game_code);
        write_all(image, Field::MAKER_CODE.at, &self.maker_code);
        endian::write_u8(image, Field::DISC_ID.at, self.disc_id);
        endian::write_u8(image, Field::VERSION.at, self.version);
        endian::write_u8(image, Field::AUDIO_STREAMING.at, self.audio_streaming);
        endian::write_u8(image, Field::STREAM_BUFFER_SIZE.at, self.stream_buffer_size);
        write_all(image, Field::UNUSED_00A.at, &self.unused_00a);
    }

    fn write_magics_and_name(self, image: &mut [u8])
        requires { 0x440 ≤ length image.old }
        ensures { image.new ≡ put_some 7 6 self image.old }
    {
        endian::write_u32(image, Field::WII_MAGIC.at, self.wii_magic);
        endian::write_u32(image, Field::GCN_MAGIC.at, self.gcn_magic);
        write_all(image, Field::GAME_NAME.at, &self.game_name);
        endian::write_u32(
            image,
            Field::DEBUG_MONITOR_OFFSET.at,
            self.debug_monitor_offset,
        );
        endian::write_u32(image, Field::DEBUG_MONITOR_ADDR.at, self.debug_monitor_addr);
        write_all(image, Field::UNUSED_408.at, &self.unused_408);
    }

    fn write_places(self, image: &mut [u8])
        requires { 0x440 ≤ length image.old }
        ensures { image.new ≡ put_some 13 8 self image.old }
    {
        endian::write_u32(image, Field::DOL_OFFSET.at, self.dol_offset);
        endian::write_u32(image, Field::FST_OFFSET.at, self.fst_offset);
        endian::write_u32(image, Field::FST_SIZE.at, self.fst_size);
        endian::write_u32(image, Field::FST_MAX_SIZE.at, self.fst_max_size);
        endian::write_u32(image, Field::USER_POSITION.at, self.user_position);
        endian::write_u32(image, Field::USER_SIZE.at, self.user_size);
        endian::write_u32(image, Field::DISC_SIZE.at, self.disc_size);
        endian::write_u32(image, Field::UNUSED_43C.at, self.unused_43c);
    }

    /// Writes every field at its place. An image too short for the header is refused (`HeaderPastImage`) and
    /// left as it was.
    pub fn write_to(self, image: &mut [u8]) -> Verdict
        ensures value { result ≡ write_verdict image.old }
        ensures image_after { image.new ≡ image_with_header self image.old }
    {
        if image.len() < HEADER_LEN {
            return Err(Refusal::HeaderPastImage);
        }
        self.write_codes(image);
        self.write_magics_and_name(image);
        self.write_places(image);
        Ok(())
    }
}
