// The header of a DOL executable (FORMAT, The program), read from an image at an offset: 0xE4 bytes.
ghost use Rattle.std.specs.Prelude.{◌≡◌, ◌+◌, ◌*◌, ◌≤◌, ◌<◌, length};
ghost use Rattle.window.specs.Window.{new_window};
ghost use Rattle.executable.specs.Dol as dol_of;
ghost use Rattle.executable.specs.Dol.{largest_of, new_header, dol_header_of, file_size_of};
ghost use Rattle.executable.specs.Dol.{dol_answer_of, dol_size_of};
ghost use Rattle.executable.specs.Sections as sections;

use refusal::Refusal;
use window::Window;

/// How many bytes the header of an executable has: 0xE4.
pub const DOL_HEADER_LEN: usize = 0xE4;

/// The header: where each of the 7 text and 11 data sections stands in the file and in memory, and how many
/// bytes it has.
// Kept: arrays, since a file has 7 and 11 sections, used or not, as C is given them, and nothing is
// allocated.
#[repr(C)]
#[derive(Clone, Copy, PartialEq, Eq, Debug)]
pub struct DolHeader {
    pub text_offsets: [u32; 7],
    pub data_offsets: [u32; 11],
    pub text_addresses: [u32; 7],
    pub data_addresses: [u32; 11],
    pub text_sizes: [u32; 7],
    pub data_sizes: [u32; 11],
    pub bss_address: u32,
    pub bss_size: u32,
    pub entry_point: u32,
}

/// What reading gives: the header, and the size in bytes of the file that it describes.
#[derive(Clone, Copy, PartialEq, Eq, Debug)]
pub struct DolAnswer {
    pub header: DolHeader,
    pub size: u32,
}

// N words from `at` on. Inlined, because an array that is stored word by word and then read by fours waits
// for each store.
#[inline(always)]
fn words_at<const N: usize>(s: &[u8], at: usize) -> [u32; N]
    requires { at + 4 * N ≤ length s.now }
    ensures { result ≡ dol_of.words_at s.now at N }
{
    let mut words = [0; N];
    for (i, word) in words.iter_mut().enumerate() {
        *word = endian::read_u32(s, at + 4 * i);
    }
    words
}

// The largest offset + size of N sections, as a number that holds every sum.
fn largest<const N: usize>(offsets: &[u32; N], sizes: &[u32; N]) -> u64
    ensures { result ≡ largest_of offsets.now sizes.now }
{
    let mut top = 0;
    for (offset, size) in offsets.iter().zip(sizes.iter()) {
        top = (u64::from(*offset) + u64::from(*size)).max(top);
    }
    top
}

fn header_at(s: &[u8], at: usize) -> DolHeader
    requires { at + 0xE4 ≤ length s.now }
    ensures { result ≡ dol_header_of s.now at }
{
    DolHeader {
        text_offsets: words_at(s, at),
        data_offsets: words_at(s, at + 0x1C),
        text_addresses: words_at(s, at + 0x48),
        data_addresses: words_at(s, at + 0x64),
        text_sizes: words_at(s, at + 0x90),
        data_sizes: words_at(s, at + 0xAC),
        bss_address: endian::read_u32(s, at + 0xD8),
        bss_size: endian::read_u32(s, at + 0xDC),
        entry_point: endian::read_u32(s, at + 0xE0),
    }
}

impl DolHeader {
    /// Every field 0.
    pub fn new() -> DolHeader
        ensures { result ≡ new_header }
    {
        DolHeader {
            text_offsets: [0; 7],
            data_offsets: [0; 11],
            text_addresses: [0; 7],
            data_addresses: [0; 11],
            text_sizes: [0; 7],
            data_sizes: [0; 11],
            bss_address: 0,
            bss_size: 0,
            entry_point: 0,
        }
    }

    /// The file size in bytes, before it is judged: a sum may pass 2^32 - 1.
    pub fn file_size(self) -> u64
        ensures { result ≡ file_size_of self }
    {
        let text = largest(&self.text_offsets, &self.text_sizes);
        let data = largest(&self.data_offsets, &self.data_sizes);
        text.max(data)
    }
}

/// The file size in bytes alone, for whoever opens an image: the header is read in place, and not made.
/// Refused (`InvalidDol`) where the header passes the image or a sum passes 2^32 - 1.
pub fn size(image: &[u8], at: usize) -> Result<u32, Refusal>
    ensures { result ≡ dol_size_of image.now at }
{
    if image.len() < DOL_HEADER_LEN || image.len() - DOL_HEADER_LEN < at {
        return Err(Refusal::InvalidDol);
    }
    let text = largest::<7>(&words_at(image, at), &words_at(image, at + 0x90));
    let data = largest::<11>(&words_at(image, at + 0x1C), &words_at(image, at + 0xAC));
    u32::try_from(text.max(data)).map_err(|_| Refusal::InvalidDol)
}

/// The header and its file size, refused as `size` is.
pub fn read(image: &[u8], at: usize) -> Result<DolAnswer, Refusal>
    ensures { result ≡ dol_answer_of image.now at }
{
    let size = size(image, at)?;
    let header = header_at(image, at);
    Ok(DolAnswer { header, size })
}

/// The section that the header at `at` is refused for: the first whose offset + size passes 2^32 - 1, 0 to 6
/// of text and 7 to 17 of data. `None` where the header passes the image, and where it is not refused.
// Kept: over numbers, since offsets and sizes stand in two rows, and an array of both would be stored first.
pub fn refused_section(image: &[u8], at: usize) -> Option<u32>
    ensures { result ≡ sections.refused_section image.now at }
{
    if image.len() < DOL_HEADER_LEN || image.len() - DOL_HEADER_LEN < at {
        return None;
    }
    for i in 0..18 {
        let offset = endian::read_u32(image, at + 4 * i);
        let size = endian::read_u32(image, at + 0x90 + 4 * i);
        if u64::from(u32::MAX) < u64::from(offset) + u64::from(size) {
            return Some(i as u32);
        }
    }
    None
}

impl DolAnswer {
    /// The window of the executable at `at`, whatever of it the image has.
    pub fn window(self, at: u32) -> Window
        ensures { result ≡ new_window at self.size }
    {
        Window::new(u64::from(at), u64::from(self.size))
    }
}
