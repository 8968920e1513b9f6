// The files of an edit, as the system has them: all that touches the bytes of image, journal, record and clip while an
// edit goes on. No contract says which bytes a file holds, so `known` is false, and this file is short enough to be read
// beside docs/DISK.md. What that page wants of each call, and the system call that gives it:
//
//   read      pread, until all is read
//   write     pwrite, until all is written: no byte outside the range changes
//   sync      fdatasync: the disk has what a read returns, and of a journal that grew its length too
//   a record  open with O_CREAT and O_EXCL under another name, pwrite, fsync, rename; then fsync of the folder
//
// A journal that is not there stands for one byte, closed: it is made so, and is on the disk with its name, before it is
// first written to.
ghost use Rattle.std.specs.Prelude.{◌≡◌, false, Ok, IfOk};
ghost use Rattle.counter_write.specs.Inner.Real.{state_of};

use crate::names::{folder_of, new_name};
use crate::parts::{Clip, Image, Journal};
use crate::progress::Progress;
use journal::{Fault, Files, On};
use std::fs::{self, File};
use std::io::{self, ErrorKind};
use std::os::unix::fs::{FileExt, MetadataExt, fchown};

#[derive(Drop)]
pub struct Real<'a> {
    pub image: Image,
    pub journal: Journal,
    pub clip: Clip,
    pub record: Option<String>,
    pub progress: Progress<'a>,
}

fn on<T>(on: On, done: io::Result<T>) -> Result<T, Fault>
    ensures { IfOk result (λ value. done ≡ Ok value) }
{
    done.map_err(|why| Fault { on, why })
}

fn read(from: On, file: &Option<File>, at: u64, bytes: &mut [u8]) -> Result<(), Fault> {
    match file {
        Some(file) => on(from, file.read_exact_at(bytes, at)),
        None => Ok(bytes.fill(0)),
    }
}

/// Some disks sync no folders: what they do with names cannot be helped.
pub fn sync_folder(rt: &HostRuntime, folder: &str) -> io::Result<()> {
    match File::open(rt, folder)?.sync_all() {
        Err(e) if matches!(e.kind(), ErrorKind::InvalidInput | ErrorKind::Unsupported) => Ok(()),
        synced => synced,
    }
}

fn make_journal(rt: &HostRuntime, path: &str) -> io::Result<File> {
    let file = File::create_new(rt, path)?;
    file.write_all_at(&[0], 0).and_then(|()| file.sync_all())?;
    sync_folder(rt, folder_of(path)).map(|()| file)
}

fn replace_record(rt: &HostRuntime, path: &str, text: &[u8]) -> io::Result<()> {
    let was = fs::symlink_metadata(rt, path).ok();
    if was.as_ref().is_some_and(|was| was.is_symlink()) {
        return Err(io::Error::other("it is a link"));
    }
    let (early, file) = new_name(rt, path)?;
    // Owner and mode stay, where that can be had: only root gives a file away.
    if let Some(was) = was {
        let _ = fchown(&file, None, Some(was.gid()));
        let _ = fchown(&file, Some(was.uid()), None);
        let _ = file.set_permissions(was.permissions());
    }
    let written = file.write_all_at(text, 0).and_then(|()| file.sync_all());
    let named = written.and_then(|()| fs::rename(rt, early.as_str(), path));
    if named.is_err() {
        let _ = fs::remove_file(rt, early.as_str());
    }
    named.and_then(|()| sync_folder(rt, folder_of(path)))
}

fn sync_record(rt: &HostRuntime, path: &str) -> io::Result<()> {
    match File::open(rt, path) {
        Err(e) if e.kind() == ErrorKind::NotFound => {}
        file => file?.sync_all()?,
    }
    sync_folder(rt, folder_of(path))
}

impl Files for Real<'_> {
    ghost known = { false };

    ghost state = { λ r. state_of r.image.len r.journal.len r.clip.len };

    fn image_len(&self) -> usize {
        self.image.len
    }

    fn journal_len(&self) -> usize {
        self.journal.len
    }

    fn clip_len(&self) -> usize {
        self.clip.len
    }

    fn read_image(&mut self, at: usize, bytes: &mut [u8]) -> Result<(), Fault> {
        on(On::Image, self.image.file.read_exact_at(bytes, at as u64))
    }

    fn read_journal(&mut self, at: usize, bytes: &mut [u8]) -> Result<(), Fault> {
        read(On::Journal, &self.journal.file, at as u64, bytes)
    }

    fn read_clip(&mut self, at: usize, bytes: &mut [u8]) -> Result<(), Fault> {
        let at = self.clip.start.wrapping_add(at as u64);
        read(On::Clip, &self.clip.file, at, bytes)
    }

    fn write_image(&mut self, at: usize, bytes: &[u8]) -> Result<(), Fault> {
        on(On::Image, self.image.file.write_all_at(bytes, at as u64))?;
        Ok(self.progress.advance(bytes.len()))
    }

    fn write_journal(&mut self, at: usize, bytes: &[u8]) -> Result<(), Fault> {
        let why = ErrorKind::FileTooLarge.into();
        let end = on(On::Journal, at.checked_add(bytes.len()).ok_or(why))?;
        if self.journal.file.is_none() {
            let made = make_journal(self.progress.rt, self.journal.path.as_str());
            self.journal.file = Some(on(On::Journal, made)?);
        }
        if let Some(file) = &self.journal.file {
            on(On::Journal, file.write_all_at(bytes, at as u64))?;
        }
        self.journal.len = self.journal.len.max(end);
        Ok(self.progress.advance(bytes.len()))
    }

    fn put_record(&mut self, text: &[u8]) -> Result<(), Fault> {
        let put = |path: &String| replace_record(self.progress.rt, path.as_str(), text);
        on(On::Record, self.record.as_ref().map_or(Ok(()), put))
    }

    fn sync_image(&mut self) -> Result<(), Fault> {
        on(On::Image, self.image.file.sync_data())
    }

    fn sync_journal(&mut self) -> Result<(), Fault> {
        let file = self.journal.file.as_ref();
        on(On::Journal, file.map_or(Ok(()), File::sync_data))
    }

    fn sync_record(&mut self) -> Result<(), Fault> {
        let sync = |path: &String| sync_record(self.progress.rt, path.as_str());
        on(On::Record, self.record.as_ref().map_or(Ok(()), sync))
    }
}
