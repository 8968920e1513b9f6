// Each crash of what was done to files in memory, tried.
ghost use Rattle.std.specs.Prelude.{◌≤◌, length};

use crate::memory::{Memory, copy, written};
use crate::{Contents, Event};
use journal::{Found, resume};
use std::alloc::Global;
use std::process::Abort;

/// The file's number.
pub const NUMBER: u64 = 0x0102_0304_0506_0708;

// More calls than there are.
const NONE_FAILS: usize = 1 << 60;

/// What a crash may leave: one of the images, one of the journals, and the record.
#[derive(Drop)]
pub struct Left {
    images: Vec<Vec<u8>>,
    journals: Vec<Vec<u8>>,
    record_text: Vec<u8>,
}

// The bytes, of which the second half is wrong.
fn torn(rt: &impl Abort, alloc: Global, bytes: &[u8]) -> Vec<u8> {
    let mut torn = copy(rt, alloc, bytes);
    for i in bytes.len() / 2..torn.len() {
        torn[i] = !torn[i];
    }
    torn
}

// The bytes, with zeros up to there where they end before.
fn reaching(rt: &impl Abort, alloc: Global, bytes: &[u8], at: usize) -> Vec<u8>
    ensures { at ≤ length result.items }
{
    let mut reaching = copy(rt, alloc, bytes);
    if reaching.len() < at {
        reaching.resize(at, 0).expect(rt, "memory");
    }
    reaching
}

// Each as it was, with a torn write, and with the whole one.
fn spread(
    rt: &impl Abort,
    alloc: Global,
    versions: &[Vec<u8>],
    at: usize,
    bytes: &[u8],
) -> Vec<Vec<u8>> {
    let torn = torn(rt, alloc, bytes);
    let mut spread = Vec::new(alloc);
    for old in versions {
        spread.push(copy(rt, alloc, old)).expect(rt, "memory");
        if !bytes.is_empty() {
            let old = reaching(rt, alloc, old, at);
            spread
                .push(written(rt, alloc, &old, at, &torn))
                .expect(rt, "memory");
            spread
                .push(written(rt, alloc, &old, at, bytes))
                .expect(rt, "memory");
        }
    }
    spread
}

// The one that is there.
fn only(rt: &impl Abort, alloc: Global, versions: &[Vec<u8>], bytes: &[u8]) -> Vec<Vec<u8>> {
    assert!(rt;
        versions.iter().any(|version| version.as_slice() == bytes),
        "what is read is among them"
    );
    let mut only = Vec::new(alloc);
    only.push(copy(rt, alloc, bytes)).expect(rt, "memory");
    only
}

/// What recovery finds in what a crash left, and makes of it.
pub fn resumed<'a, R: Abort>(
    rt: &'a R,
    alloc: Global,
    crashed: &Contents,
    number: u64,
) -> (Found, Memory<'a, R>) {
    let mut files = Memory::new(rt, alloc, crashed, &[], NONE_FAILS);
    let mut desk = [0; 4096];
    let found = resume(&mut files, number, &mut desk).expect(rt, "no call fails");
    (found, files)
}

/// Image and record before an edit and after it, and how many crashes left what recovery made the one or the other.
#[derive(Drop)]
pub struct Trial<'a> {
    pub before: &'a Contents,
    pub after: &'a Contents,
    pub made_before: u64,
    pub made_after: u64,
}

impl<'a> Trial<'a> {
    /// Takes each thing that a crash may leave as what a crash left, and has it recovered: image and record are those from
    /// before the edit, or those from after it. The record's file never runs ahead of the image.
    pub fn recover_each(&mut self, rt: &impl Abort, alloc: Global, left: &Left) {
        for image in &left.images {
            for journal in &left.journals {
                let crashed = Contents {
                    image: copy(rt, alloc, image),
                    journal: copy(rt, alloc, journal),
                    record_text: copy(rt, alloc, &left.record_text),
                };
                self.recover(rt, alloc, &crashed);
            }
        }
    }

    fn recover(&mut self, rt: &impl Abort, alloc: Global, crashed: &Contents) {
        let (found, files) = resumed(rt, alloc, crashed, NUMBER);
        assert!(rt; found != Found::Another, "the journal is this image's");
        if has(&files.seen, self.after) {
            self.made_after = self.made_after.wrapping_add(1);
        } else {
            assert!(rt;
                has(&files.seen, self.before),
                "the image before it or the one after it"
            );
            self.made_before = self.made_before.wrapping_add(1);
        }
        if crashed.record_text != self.before.record_text {
            assert!(rt;
                has(crashed, self.after),
                "the record is not ahead of the image"
            );
        }
        assert_ne!(rt; files.seen.journal.first(), Some(&1), "the gate is closed");
    }

    /// Each crash at any moment of what was done, from the first one on.
    pub fn recover_all<R: Abort>(&mut self, files: &Memory<'_, R>) {
        let (rt, alloc) = (files.rt, files.alloc);
        let mut left = Left::of(rt, alloc, &files.first);
        for event in &files.log {
            if event.settles() {
                self.recover_each(rt, alloc, &left);
            }
            left.follow(rt, alloc, event);
        }
        self.recover_each(rt, alloc, &left);
    }
}

/// The same image and record.
pub fn has(seen: &Contents, kept: &Contents) -> bool {
    seen.image == kept.image && seen.record_text == kept.record_text
}

impl Event {
    // Whether a crash may leave less after it.
    fn settles(&self) -> bool {
        !matches!(self, Event::WroteImage(..) | Event::WroteJournal(..))
    }
}

impl Left {
    fn of(rt: &impl Abort, alloc: Global, first: &Contents) -> Self {
        let mut images = Vec::new(alloc);
        images
            .push(copy(rt, alloc, &first.image))
            .expect(rt, "memory");
        let mut journals = Vec::new(alloc);
        journals
            .push(copy(rt, alloc, &first.journal))
            .expect(rt, "memory");
        Left {
            images,
            journals,
            record_text: copy(rt, alloc, &first.record_text),
        }
    }

    /// What a crash may leave behind all that was done.
    pub fn behind<R: Abort>(files: &Memory<'_, R>) -> Self {
        let (rt, alloc) = (files.rt, files.alloc);
        let mut left = Left::of(rt, alloc, &files.first);
        for event in &files.log {
            left.follow(rt, alloc, event);
        }
        left
    }

    fn follow(&mut self, rt: &impl Abort, alloc: Global, event: &Event) {
        match event {
            Event::WroteImage(at, bytes) => {
                self.images = spread(rt, alloc, &self.images, *at, bytes);
            }
            Event::WroteJournal(at, bytes) => {
                self.journals = spread(rt, alloc, &self.journals, *at, bytes);
            }
            Event::PutRecord(text) => self.record_text = copy(rt, alloc, text),
            Event::SyncedImage(bytes) => self.images = only(rt, alloc, &self.images, bytes),
            Event::SyncedJournal(bytes) => self.journals = only(rt, alloc, &self.journals, bytes),
            Event::SyncedRecord(text) => assert!(rt; self.record_text == *text),
        }
    }
}
