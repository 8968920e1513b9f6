// The files of an edit, with a clip and a record that can be others for the next one.
ghost use Rattle.std.specs.Prelude.{◌≡◌, []};
ghost use Rattle.counter_write.specs.Inner.Desk.{Keeps, KeepsOthers};

use crate::files::Real;
use crate::parts::Clip;
use journal::{Fault, Files, On};
use std::fs::File;
use std::io::{self, ErrorKind};

pub trait Desk: Files {
    /// Another clip: `len` bytes from `start` on in the file at `path`.
    fn take_clip(&mut self, path: &str, start: u64, len: u64) -> Result<(), Fault>
        ensures { Keeps (Self.state self.old) (Self.state self.new) };

    /// No clip.
    fn drop_clip(&mut self)
        ensures keeps { Keeps (Self.state self.old) (Self.state self.new) }
        ensures none { (Self.state self.new).clip ≡ [] };

    /// Another record, or none.
    fn take_record(&mut self, path: Option<String>)
        ensures { KeepsOthers (Self.state self.old) (Self.state self.new) };
}

fn open_clip(rt: &HostRuntime, path: &str, start: u64, len: u64) -> io::Result<Clip> {
    let file = File::open(rt, path)?;
    let has = file.metadata()?.len();
    if start.checked_add(len).is_none_or(|end| end > has) {
        return Err(ErrorKind::UnexpectedEof.into());
    }
    Ok(Clip {
        file: Some(file),
        start,
        len: len as usize,
    })
}

impl Desk for Real<'_> {
    fn take_clip(&mut self, path: &str, start: u64, len: u64) -> Result<(), Fault> {
        match open_clip(self.progress.rt, path, start, len) {
            Ok(clip) => self.clip = clip,
            Err(why) => return Err(Fault { on: On::Clip, why }),
        }
        Ok(())
    }

    fn drop_clip(&mut self) {
        self.clip = Clip::none();
        self.progress.bytes = 0;
    }

    fn take_record(&mut self, path: Option<String>) {
        self.record = path;
    }
}
