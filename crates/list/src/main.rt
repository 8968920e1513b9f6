// Lists the image that standard input gives, or says why not: what it writes is what
// `listing::report` gives. The file `stdout` is the listing of the small master that `stdin` has.
#![tactic(auto)]

use std::io::{self, Read, Write};

// How many bytes of an image, words of working memory and bytes of text the program has.
const MOST_BYTES: u64 = 65536;

const WORDS: usize = 16384;

const TEXT: usize = 1048576;

// Lends the words, and a buffer: a text that does not fit it is refused 9.
fn list<P: Print>(rt: &P, image: &[u8], words: &mut [u32], text: &mut [u8]) -> io::Result<()> {
    let size = listing::report(image, words, text);
    match text.get(..size) {
        Some(report) => io::writer(rt).write_all(report),
        None => Ok(()),
    }
}

// One byte more than is accepted tells whether there are more.
// Kept: arrays, so that words and text cannot be refused for want of memory.
fn main(rt: HostRuntime) -> io::Result<()> {
    let mut image = Vec::new(rt.alloc());
    let mut words = [0; WORDS];
    let mut text = [0; TEXT];
    rt.reader().take(MOST_BYTES + 1).read_to_end(&mut image)?;
    list(&rt, &image, words.as_mut_slice(), text.as_mut_slice())
}
