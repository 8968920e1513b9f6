// A window on an image: a start, a length and a position. It goes in by value, and each call gives back the
// moved one; `seek_lent` and `read_lent` move a lent one where it stands.
#![tactic(auto)]

ghost use Rattle.std.specs.Prelude.{◌≡◌, length};
ghost use Rattle.window.specs.Window.{new_window, window_at, seek_of, read_of, count_of};
ghost use Rattle.window.specs.Window.{window_after_seek, window_after_read};
ghost use Rattle.window.specs.Window.{buffer_of, seek_read_of};

use refusal::Refusal;
pub use std::io::SeekFrom;

/// A part of an image, in bytes: where it starts, how long it is, and the position in it. A position past the
/// end is one too.
#[repr(C)]
#[derive(Clone, Copy, PartialEq, Eq, Debug)]
pub struct Window {
    pub start: u64,
    pub len: u64,
    pub position: u64,
}

/// What a read gives: how many bytes it put into the buffer, and the window moved by them.
#[derive(Clone, Copy, PartialEq, Eq, Debug)]
pub struct BytesRead {
    pub count: usize,
    pub window: Window,
}

/// What a seek and then a read on one window give.
#[derive(Clone, Copy, PartialEq, Eq, Debug)]
pub struct SoughtAndRead {
    pub sought: Result<Window, Refusal>,
    pub read: BytesRead,
}

impl Window {
    /// A window on `len` bytes from `start` on, at its first byte.
    pub fn new(start: u64, len: u64) -> Window
        ensures { result ≡ new_window start len }
    {
        Window {
            start,
            len,
            position: 0,
        }
    }

    // The window at that position, if the sum with the start fits.
    fn at(self, position: u64) -> Result<Window, Refusal>
        ensures { result ≡ window_at self position }
    {
        match self.start.checked_add(position) {
            Some(_) => Ok(Window { position, ..self }),
            None => Err(Refusal::InvalidSeek),
        }
    }

    /// The window at another position; distances are added modulo 2^64. Refused (`InvalidSeek`) where start +
    /// position passes 2^64 - 1; a distance of 0 from the current position always succeeds.
    pub fn seek(self, to: SeekFrom) -> Result<Window, Refusal>
        ensures { result ≡ seek_of self to }
    {
        match to {
            SeekFrom::Start(position) => self.at(position),
            SeekFrom::Current(0) => Ok(self),
            SeekFrom::Current(distance) => self.at(self.position.wrapping_add_signed(distance)),
            SeekFrom::End(distance) => self.at(self.len.wrapping_add_signed(distance)),
        }
    }

    /// Puts the bytes at the position at the front of the buffer: as many as the buffer has room for, and as
    /// are left both in the window and in the image. The rest of the buffer stays.
    pub fn read(self, image: &[u8], buf: &mut [u8]) -> BytesRead
        ensures answer { result ≡ read_of self (length image.now) (length buf.old) }
        ensures buffer { buf.new ≡ buffer_of self image.now buf.old }
    {
        let in_window = self.len.saturating_sub(self.position);
        // Start and position are taken off one after the other, so that no sum wraps.
        let in_image = (image.len() as u64)
            .saturating_sub(self.start)
            .saturating_sub(self.position);
        let count = (buf.len() as u64).min(in_window.min(in_image));
        if count == 0 {
            return BytesRead {
                count: 0,
                window: self,
            };
        }
        endian::copy(
            image,
            (self.start + self.position) as usize,
            buf,
            0,
            count as usize,
        );
        BytesRead {
            count: count as usize,
            window: Window {
                position: self.position + count,
                ..self
            },
        }
    }
}

/// The window after a seek: the one found, or with a refusal the one it was.
pub fn settled(w: Window, s: Result<Window, Refusal>) -> Window
    ensures { result ≡ window_after_seek w s }
{
    s.unwrap_or(w)
}

/// `seek` on a window that the caller lends. A refusal leaves it as it was.
pub fn seek_lent(w: &mut Window, to: SeekFrom) -> Result<Window, Refusal>
    ensures answer { result ≡ seek_of w.old to }
    ensures moved { w.new ≡ window_after_seek w.old (seek_of w.old to) }
{
    let sought = w.seek(to);
    *w = settled(*w, sought);
    sought
}

/// `read` on a window that the caller lends. It gives how many bytes it put into the buffer.
pub fn read_lent(w: &mut Window, image: &[u8], buf: &mut [u8]) -> usize
    ensures answer { result ≡ count_of w.old (length image.now) (length buf.old) }
    ensures moved { w.new ≡ window_after_read w.old result }
    ensures buffer { buf.new ≡ buffer_of w.old image.now buf.old }
{
    let read = w.read(image, buf);
    *w = read.window;
    read.count
}

/// A seek and then a read on one window, which this function lends to both. A refused seek leaves the window
/// for the read.
pub fn seek_and_read(w: Window, to: SeekFrom, image: &[u8], buf: &mut [u8]) -> SoughtAndRead
    ensures answer { result ≡ seek_read_of w to (length image.now) (length buf.old) }
    ensures buffer { buf.new ≡ buffer_of (window_after_seek w (seek_of w to)) image.now buf.old }
{
    let mut lent = w;
    let sought = seek_lent(&mut lent, to);
    let count = read_lent(&mut lent, image, buf);
    let read = BytesRead {
        count,
        window: lent,
    };
    SoughtAndRead { sought, read }
}
