// An image, its journal and its record as files of one machine: what a read returns, and what a crash may leave.
ghost use Rattle.std.specs.Prelude.{◌≡◌, ◌+◌, ◌≤◌, Bool, length, max, OnOk};
ghost use Rattle.endian.specs.Bytes.{put, span, AllBytes};
ghost use Rattle.journal.specs.Disk.{State, Looks, Steps, TearsImage, TearsJournal, PutsRecord, HasCause};
ghost use Rattle.journal.specs.Disk.{OnlyImage, OnlyJournal, OnlyRecord, Known, with_image, with_journal, with_record};

use std::io;

/// Which file.
#[derive(Clone, Copy, Debug, PartialEq, Eq)]
pub enum On {
    Image,
    Journal,
    Record,
    Clip,
}

/// A file that failed, and how.
#[derive(Debug, Drop)]
pub struct Fault {
    pub on: On,
    pub why: io::Error,
}

/// The files of an edit. `known` says whether their bytes are known: a fact of the type. Of a file of the
/// operating system no contract can say which bytes it holds, so there it is false, and the clauses on bytes say
/// nothing.
pub trait Files {
    ghost known: { Bool };

    ghost state: { Self → State };

    /// How many bytes the image has.
    fn image_len(&self) -> usize
        ensures len { result ≡ length (state self.now).seen.image }
        ensures bytes { AllBytes (state self.now).seen.image };

    /// How many bytes the journal has; 0 where it is not there.
    fn journal_len(&self) -> usize
        ensures { result ≡ length (state self.now).seen.journal };

    /// How many bytes the clip has.
    fn clip_len(&self) -> usize
        ensures len { result ≡ length (state self.now).clip }
        ensures bytes { AllBytes (state self.now).clip };

    fn read_image(&mut self, at: usize, bytes: &mut [u8]) -> Result<(), Fault>
        requires { at + length bytes.old ≤ length (state self.old).seen.image }
        ensures bytes { OnOk result
            (Known known (bytes.new ≡ span (state self.old).seen.image at (length bytes.old))) }
        ensures looks { Looks (state self.old) (state self.new) }
        ensures cause { HasCause known (state self.old) (state self.new) result };

    fn read_journal(&mut self, at: usize, bytes: &mut [u8]) -> Result<(), Fault>
        requires { at + length bytes.old ≤ length (state self.old).seen.journal }
        ensures bytes { OnOk result
            (Known known (bytes.new ≡ span (state self.old).seen.journal at (length bytes.old))) }
        ensures looks { Looks (state self.old) (state self.new) }
        ensures cause { HasCause known (state self.old) (state self.new) result };

    fn read_clip(&mut self, at: usize, bytes: &mut [u8]) -> Result<(), Fault>
        requires { at + length bytes.old ≤ length (state self.old).clip }
        ensures bytes { OnOk result
            (Known known (bytes.new ≡ span (state self.old).clip at (length bytes.old))) }
        ensures looks { Looks (state self.old) (state self.new) }
        ensures cause { HasCause known (state self.old) (state self.new) result };

    /// Writes over a part of the image. Until a sync, a crash may leave any bytes there.
    fn write_image(&mut self, at: usize, bytes: &[u8]) -> Result<(), Fault>
        requires { at + length bytes.now ≤ length (state self.old).seen.image }
        ensures written { OnOk result (Known known ((state self.new).seen
            ≡ with_image (state self.old).seen (put (state self.old).seen.image at bytes.now))) }
        ensures steps { Steps (TearsImage at (length bytes.now)) (state self.old) (state self.new) }
        ensures cause { HasCause known (state self.old) (state self.new) result };

    /// Writes over a part of the journal, and past its end. Until a sync, a crash may leave any bytes there.
    fn write_journal(&mut self, at: usize, bytes: &[u8]) -> Result<(), Fault>
        requires { at ≤ length (state self.old).seen.journal }
        ensures written { OnOk result (Known known ((state self.new).seen
            ≡ with_journal (state self.old).seen (put (state self.old).seen.journal at bytes.now))) }
        ensures long { OnOk result (length (state self.new).seen.journal
            ≡ max (length (state self.old).seen.journal) (at + length bytes.now)) }
        ensures steps { Steps (TearsJournal at (length bytes.now)) (state self.old) (state self.new) }
        ensures cause { HasCause known (state self.old) (state self.new) result };

    /// Puts a record in the place of the one that is there: on the disk at `Ok`, and whole at any moment.
    fn put_record(&mut self, text: &[u8]) -> Result<(), Fault>
        ensures written { OnOk result
            (Known known ((state self.new).seen ≡ with_record (state self.old).seen text.now)) }
        ensures durable { OnOk result (OnlyRecord text.now (state self.new).may_leave) }
        ensures steps { Steps (PutsRecord text.now) (state self.old) (state self.new) }
        ensures cause { HasCause known (state self.old) (state self.new) result };

    /// After it, a crash leaves the image that a read returns.
    fn sync_image(&mut self) -> Result<(), Fault>
        ensures durable { OnOk result
            (OnlyImage (state self.old).seen.image (state self.new).may_leave) }
        ensures looks { Looks (state self.old) (state self.new) }
        ensures cause { HasCause known (state self.old) (state self.new) result };

    /// After it, a crash leaves the journal that a read returns.
    fn sync_journal(&mut self) -> Result<(), Fault>
        ensures durable { OnOk result
            (OnlyJournal (state self.old).seen.journal (state self.new).may_leave) }
        ensures looks { Looks (state self.old) (state self.new) }
        ensures cause { HasCause known (state self.old) (state self.new) result };

    /// After it, a crash leaves the record that a read returns.
    fn sync_record(&mut self) -> Result<(), Fault>
        ensures durable { OnOk result
            (OnlyRecord (state self.old).seen.record_text (state self.new).may_leave) }
        ensures looks { Looks (state self.old) (state self.new) }
        ensures cause { HasCause known (state self.old) (state self.new) result };
}
