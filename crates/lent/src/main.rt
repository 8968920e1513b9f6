// A lent window, moved where it stands: seeks and reads on windows of a small image, by
// `window::seek_and_read`. A script of `replay` cannot say this form; the same seeks and reads by value stand
// in host/replay/scripts/windows.txt, and give the same. The lines of the first two windows are the Rust's
// answers; the third is a window that the Rust cannot be handed: a distance of 0 from its position is not
// refused, and no byte is read past the image.
#![tactic(auto)]

ghost use Rattle.std.specs.Prelude.{◌≡◌, length, IfOk};
ghost use Rattle.window.specs.Window.{seek_read_of};

use refusal::Refusal;
use std::io::{self, Write};
use window::{SeekFrom, Window};

// What a seek gave: the position, or the refusal's number.
fn say_sought<P: Print>(rt: &P, sought: Result<Window, Refusal>) -> io::Result<()> {
    match sought {
        Ok(window) => print!(rt; "seek {}", window.position),
        Err(cause) => print!(rt; "seek refused {}", cause.number()),
    }
}

// Seeks, reads up to four bytes into a buffer of dots, and prints the answers. Gives back the
// window that both left.
fn step<P: Print>(rt: &P, window: Window, to: SeekFrom, image: &[u8]) -> io::Result<Window>
    ensures { IfOk result
        (λ after. after ≡ (seek_read_of window to (length image.now) 4).read.window) }
{
    // Kept: four bytes are read at a time, and a slice of them would need an array of four too.
    let mut buf = [b'.'; 4];
    let answer = window::seek_and_read(window, to, image, &mut buf);
    let after = answer.read.window;
    say_sought(rt, answer.sought)?;
    print!(rt; " read {} ", answer.read.count)?;
    io::writer(rt).write_all(&buf)?;
    println!(rt; " position {}", after.position)?;
    Ok(after)
}

// One step after the other, each on the window that the one before left.
fn steps<P: Print>(rt: &P, mut window: Window, seeks: &[SeekFrom], image: &[u8]) -> io::Result<()> {
    for to in seeks {
        window = step(rt, window, *to, image)?;
    }
    Ok(())
}

fn main(rt: HostRuntime) -> io::Result<()> {
    let image = b"0123456789abcdef";

    // Six bytes at 4: positions in the window, at its end and past it, and the last position that a
    // window at 4 has.
    let inside = [
        SeekFrom::Start(0),
        SeekFrom::Current(0),
        SeekFrom::End(-1),
        SeekFrom::Current(-7),
        SeekFrom::Current(-6),
        SeekFrom::End(3),
        SeekFrom::Start(u64::MAX - 4),
        SeekFrom::Start(u64::MAX - 3),
        SeekFrom::Current(7),
    ];
    steps(&rt, Window::new(4, 6), &inside, image)?;

    // A window that goes past the image's end.
    let outside = [SeekFrom::Start(0), SeekFrom::Current(1)];
    steps(&rt, Window::new(14, 100), &outside, image)?;

    // A window handed in with start + position above 2^64 - 1.
    let broken = Window {
        start: 4,
        len: u64::MAX,
        position: u64::MAX - 1,
    };
    let past_the_end = [
        SeekFrom::Current(0),
        SeekFrom::Current(1),
        SeekFrom::Current(3),
    ];
    steps(&rt, broken, &past_the_end, image)
}
