// An image and the journal beside it: opened, before anything is done to either.
ghost use Rattle.std.specs.Prelude.{◌+◌, ◌≤◌};

use crate::arguments::Arguments;
use crate::files::{Real, sync_folder};
use crate::parts::{Clip, Image, Journal};
use crate::progress::Progress;
use crate::session::MOST_NOTE;
use conversation::{Failing, Told};
use journal::HEAD;
use std::alloc::{AllocError, Global};
use std::fs::{self, File, Metadata, TryLockError};
use std::io::{self, ErrorKind};
use std::os::unix::fs::{FileExt, MetadataExt};

/// How the journals of the versions before begin.
const OLD: &[u8] = b"counter journal\n";

/// What the recovery has to know.
#[derive(Drop)]
pub struct Start {
    /// The number of the image's file, and the one that the journal is taken for.
    pub number: u64,
    pub owner: u64,
    /// Whether an edit was cut, and the front's part of its note.
    pub is_cut: bool,
    pub note: Vec<u8>,
}

impl Start {
    fn uncut(alloc: Global, number: u64) -> Start {
        Start {
            number,
            owner: number,
            is_cut: false,
            note: Vec::new(alloc),
        }
    }
}

// A journal that is there, and its head.
#[derive(Drop)]
struct Found {
    file: File,
    len: usize,
    head: [u8; HEAD],
}

fn failed<T>(on: Failing, done: io::Result<T>) -> Result<T, Told<'static>> {
    done.map_err(|why| Told::Failed {
        on,
        begun: false,
        why,
    })
}

fn lock(file: &File) -> Result<(), Told<'static>> {
    match file.try_lock() {
        Err(TryLockError::WouldBlock) => Err(Told::Locked),
        locked => failed(Failing::Image, locked.map_err(io::Error::from)),
    }
}

fn open_image(
    rt: &HostRuntime,
    name: &str,
    is_dry: bool,
) -> Result<(File, Metadata), Told<'static>> {
    let opened = File::options().read(true).write(!is_dry).open(rt, name);
    let file = failed(Failing::Image, opened)?;
    if !is_dry {
        lock(&file)?;
    }
    let told = failed(Failing::Image, file.metadata())?;
    Ok((file, told))
}

fn read_journal(file: File) -> io::Result<Found> {
    let len = file.metadata()?.len() as usize;
    let mut head = [0; HEAD];
    file.read_exact_at(&mut head[..len.min(HEAD)], 0)?;
    Ok(Found { file, len, head })
}

// The journal, where there is one.
fn find_journal(rt: &HostRuntime, path: &str) -> Result<Option<Found>, Told<'static>> {
    let told = match fs::symlink_metadata(rt, path) {
        Err(e) if e.kind() == ErrorKind::NotFound => return Ok(None),
        told => failed(Failing::Journal, told)?,
    };
    if !told.is_file() {
        return Err(Told::InTheWay);
    }
    let opened = File::options().read(true).write(true).open(rt, path);
    let journal = failed(Failing::Journal, opened.and_then(read_journal))?;
    if journal.head.starts_with(OLD) {
        return Err(Told::Old);
    }
    failed(Failing::Folder, sync_folder(rt, "."))?;
    Ok(Some(journal))
}

fn number_at(head: &[u8; HEAD], at: usize) -> u64
    requires { at + 8 ≤ 1266 }
{
    let mut bytes = [0; 8];
    bytes.copy_from_slice(&head[at..at + 8]);
    u64::from_be_bytes(bytes)
}

// The note in it, where it is not longer than those that are written here.
fn read_note(alloc: Global, journal: &Found) -> io::Result<Option<Vec<u8>>> {
    let len = number_at(&journal.head, 26);
    let record = number_at(&journal.head, 18).saturating_sub(1);
    if len > MOST_NOTE as u64 || record > journal.len as u64 {
        return Ok(None);
    }
    let mut note = vec![in alloc; 0u8; len as usize]?;
    match journal
        .file
        .read_exact_at(&mut note, record.saturating_add(HEAD as u64))
    {
        Err(e) if e.kind() == ErrorKind::UnexpectedEof => Ok(None),
        read => read.map(|()| Some(note)),
    }
}

// The path of the record, and the front's part.
fn split_note(note: &[u8]) -> Option<(&str, &[u8])> {
    let (len, rest) = note.split_first_chunk::<4>()?;
    let (path, own) = rest.split_at_checked(u32::from_be_bytes(*len) as usize)?;
    Some((str::from_utf8(path).ok()?, own))
}

// Of a journal whose gate is open: the path of the record that goes with its edit, and the front's part of the note.
fn read_told(alloc: Global, journal: &Found) -> Result<(Option<String>, Vec<u8>), Told<'static>> {
    let note = failed(Failing::Journal, read_note(alloc, journal))?;
    let Some((path, own)) = note.as_ref().and_then(|note| split_note(note)) else {
        return Err(Told::Another);
    };
    let has_record = number_at(&journal.head, 18) > 0;
    if has_record && path.is_empty() {
        return Err(Told::Another);
    }
    let kept = keep(alloc, has_record, path, own);
    failed(Failing::Journal, kept.map_err(io::Error::from))
}

fn keep(
    alloc: Global,
    has_record: bool,
    path: &str,
    own: &[u8],
) -> Result<(Option<String>, Vec<u8>), AllocError> {
    let own = own.to_vec(alloc)?;
    if !has_record {
        return Ok((None, own));
    }
    Ok((Some(String::from_str(alloc, path)?), own))
}

// What a journal begins with: the number of its image's file, the record that goes with it, and its note.
fn read_cut(
    alloc: Global,
    asked: &Arguments,
    number: u64,
    found: &Found,
) -> Result<(Start, Option<String>), Told<'static>> {
    if found.len < HEAD || found.head[0] != 1 {
        return Ok((Start::uncut(alloc, number), None));
    }
    let (record, note) = read_told(alloc, found)?;
    let owner = if asked.anyway {
        number_at(&found.head, 10)
    } else {
        number
    };
    let start = Start {
        number,
        owner,
        is_cut: true,
        note,
    };
    Ok((start, record.filter(|_| !asked.without_record)))
}

/// The files of an edit, and what a recovery has to know.
pub fn open<'a>(
    rt: &'a HostRuntime,
    asked: &Arguments,
) -> Result<(Real<'a>, Start), Told<'static>> {
    let name = asked.name.as_str();
    let (file, told) = open_image(rt, name, asked.is_dry)?;
    let len = told.len() as usize;
    let path = format!(in rt.alloc(); "{name}.counter-journal").map_err(io::Error::from);
    let path = failed(Failing::Journal, path)?;
    let found = if asked.is_dry {
        None
    } else {
        find_journal(rt, path.as_str())?
    };
    let (start, record) = match &found {
        None => (Start::uncut(rt.alloc(), told.ino()), None),
        Some(found) => read_cut(rt.alloc(), asked, told.ino(), found)?,
    };
    let real = Real {
        image: Image { file, len },
        journal: Journal::of(path, found.map(|found| (found.file, found.len))),
        clip: Clip::none(),
        record,
        progress: Progress { rt, bytes: 0 },
    };
    Ok((real, start))
}

/// Takes the journal away, where it is there and closed.
pub fn take_away(rt: &HostRuntime, path: &str) -> io::Result<()> {
    let file = File::open(rt, path)?;
    let mut gate = [0];
    match file.read_exact_at(&mut gate, 0) {
        Err(e) if e.kind() == ErrorKind::UnexpectedEof => {}
        read => read?,
    }
    if gate[0] == 1 {
        return Ok(());
    }
    fs::remove_file(rt, path)?;
    sync_folder(rt, ".")
}
