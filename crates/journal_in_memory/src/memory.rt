// An image, its journal, its record and its clip in memory. Until a sync, a crash may leave any bytes where something
// was written. All that was done is kept, so what a crash may have left at each moment is known.
ghost use Rattle.std.specs.Prelude.{◌≡◌, ◌≤◌, ◌<◌, true, [], ◌∷◌, ◌++◌, length, OnOk, OnErr};
ghost use Rattle.endian.specs.Bytes.{put, AllBytes};
ghost use Rattle.journal_in_memory.specs.Inner.Done.{disk_of, state_of};
ghost use Rattle.journal_in_memory.specs.Inner.Failure.{faults};

use crate::{Contents, Event};
use journal::{Fault, Files, On};
use std::alloc::Global;
use std::io;
use std::process::Abort;

/// A call that fails, once: the one after so many.
#[derive(Drop)]
pub struct Failure {
    pub calls_left: usize,
    pub failed: bool,
}

impl Failure {
    // The next call.
    fn turn(&mut self, on: On) -> Result<(), Fault>
        ensures later { faults self.old.failed ≤ faults self.new.failed }
        ensures failed { OnErr result (faults self.old.failed < faults self.new.failed) }
    {
        if self.failed {
            return Ok(());
        }
        if self.calls_left > 0 {
            self.calls_left -= 1;
            return Ok(());
        }
        self.failed = true;
        Err(Fault {
            on,
            why: io::Error::from(io::ErrorKind::Other),
        })
    }
}

/// Where memory runs out, the process ends.
#[derive(Drop)]
pub struct Memory<'a, R: Abort> {
    pub rt: &'a R,
    pub alloc: Global,
    /// What was there at first, all of it on the disk.
    pub first: Contents,
    pub seen: Contents,
    pub clip: Vec<u8>,
    pub log: Vec<Event>,
    pub failure: Failure,
}

impl<'a, R: Abort> Memory<'a, R> {
    /// All on the disk.
    pub fn new(rt: &'a R, alloc: Global, first: &Contents, clip: &[u8], calls_left: usize) -> Self
        ensures first { disk_of result.first ≡ disk_of first.now }
        ensures seen { disk_of result.seen ≡ disk_of first.now }
        ensures clip { result.clip.items ≡ clip.now }
        ensures log { result.log.items ≡ [] }
    {
        Memory {
            rt,
            alloc,
            first: first.copied(rt, alloc),
            seen: first.copied(rt, alloc),
            clip: copy(rt, alloc, clip),
            log: Vec::new(alloc),
            failure: Failure {
                calls_left,
                failed: false,
            },
        }
    }
}

impl Contents {
    fn copied(&self, rt: &impl Abort, alloc: Global) -> Self
        ensures { disk_of result ≡ disk_of self.now }
    {
        Contents {
            image: copy(rt, alloc, &self.image),
            journal: copy(rt, alloc, &self.journal),
            record_text: copy(rt, alloc, &self.record_text),
        }
    }
}

fn len(bytes: &[u8]) -> usize
    ensures len { result ≡ length bytes.now }
    ensures bytes { AllBytes bytes.now }
{
    bytes.len()
}

pub fn copy(rt: &impl Abort, alloc: Global, bytes: &[u8]) -> Vec<u8>
    ensures { result.items ≡ bytes.now }
{
    bytes.to_vec(alloc).expect(rt, "memory")
}

// The bytes with others from there on.
#[tactic(auto, unfolding(endian::specs::Bytes::put))]
pub fn written(rt: &impl Abort, alloc: Global, old: &[u8], at: usize, bytes: &[u8]) -> Vec<u8>
    requires { at ≤ length old.now }
    ensures { result.items ≡ put old.now at bytes.now }
{
    let mut next = copy(rt, alloc, &old[..at]);
    next.extend_from_slice(bytes).expect(rt, "memory");
    if bytes.len() < old.len() - at {
        next.extend_from_slice(&old[at + bytes.len()..])
            .expect(rt, "memory");
    }
    next
}

// What a call writes of the bytes: half of them where it fails.
fn part<'a>(bytes: &'a [u8], turn: &Result<(), Fault>) -> &'a [u8]
    ensures whole { OnOk turn.now (result.now ≡ bytes.now) }
    ensures within { length result.now ≤ length bytes.now }
{
    if turn.is_ok() {
        bytes
    } else {
        &bytes[..bytes.len() / 2]
    }
}

fn keep(rt: &impl Abort, log: &mut Vec<Event>, event: Event)
    ensures { log.new.items ≡ log.old.items ++ event ∷ [] }
{
    log.push(event).expect(rt, "memory");
}

impl<'a, R: Abort> Files for Memory<'a, R> {
    ghost known = { true };

    ghost state = { λ m. state_of (disk_of m.first) (disk_of m.seen) m.clip.items m.log.items (faults m.failure.failed) };

    fn image_len(&self) -> usize {
        len(&self.seen.image)
    }

    fn journal_len(&self) -> usize {
        self.seen.journal.len()
    }

    fn clip_len(&self) -> usize {
        len(&self.clip)
    }

    fn read_image(&mut self, at: usize, bytes: &mut [u8]) -> Result<(), Fault> {
        self.failure.turn(On::Image)?;
        bytes.copy_from_slice(&self.seen.image[at..at + bytes.len()]);
        Ok(())
    }

    fn read_journal(&mut self, at: usize, bytes: &mut [u8]) -> Result<(), Fault> {
        self.failure.turn(On::Journal)?;
        bytes.copy_from_slice(&self.seen.journal[at..at + bytes.len()]);
        Ok(())
    }

    fn read_clip(&mut self, at: usize, bytes: &mut [u8]) -> Result<(), Fault> {
        self.failure.turn(On::Clip)?;
        bytes.copy_from_slice(&self.clip[at..at + bytes.len()]);
        Ok(())
    }

    fn write_image(&mut self, at: usize, bytes: &[u8]) -> Result<(), Fault> {
        let turn = self.failure.turn(On::Image);
        let told = part(bytes, &turn);
        let kept = copy(self.rt, self.alloc, told);
        keep(self.rt, &mut self.log, Event::WroteImage(at, kept));
        self.seen.image = written(self.rt, self.alloc, &self.seen.image, at, told);
        turn
    }

    fn write_journal(&mut self, at: usize, bytes: &[u8]) -> Result<(), Fault> {
        let turn = self.failure.turn(On::Journal);
        let told = part(bytes, &turn);
        let kept = copy(self.rt, self.alloc, told);
        keep(self.rt, &mut self.log, Event::WroteJournal(at, kept));
        self.seen.journal = written(self.rt, self.alloc, &self.seen.journal, at, told);
        turn
    }

    fn put_record(&mut self, text: &[u8]) -> Result<(), Fault> {
        self.failure.turn(On::Record)?;
        let kept = copy(self.rt, self.alloc, text);
        keep(self.rt, &mut self.log, Event::PutRecord(kept));
        self.seen.record_text = copy(self.rt, self.alloc, text);
        Ok(())
    }

    fn sync_image(&mut self) -> Result<(), Fault> {
        self.failure.turn(On::Image)?;
        let kept = copy(self.rt, self.alloc, &self.seen.image);
        keep(self.rt, &mut self.log, Event::SyncedImage(kept));
        Ok(())
    }

    fn sync_journal(&mut self) -> Result<(), Fault> {
        self.failure.turn(On::Journal)?;
        let kept = copy(self.rt, self.alloc, &self.seen.journal);
        keep(self.rt, &mut self.log, Event::SyncedJournal(kept));
        Ok(())
    }

    fn sync_record(&mut self) -> Result<(), Fault> {
        self.failure.turn(On::Record)?;
        let kept = copy(self.rt, self.alloc, &self.seen.record_text);
        keep(self.rt, &mut self.log, Event::SyncedRecord(kept));
        Ok(())
    }
}
