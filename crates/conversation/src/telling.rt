// Answers, each as a line of JSON.

use crate::hexadecimal::Hex;
use journal::{Bytes, On, Span};
use journaled::Decided;
use refusal::Refusal;
use std::fmt::Write;
use std::io::ErrorKind;
use std::{fmt, io};
use totals::{Team, Totals};

/// Which file failed.
#[derive(Clone, Copy, Debug, PartialEq, Eq)]
pub enum Failing {
    Image,
    Journal,
    Record,
    Clip,
    /// The folder of the image or of the record.
    Folder,
}

impl From<On> for Failing {
    fn from(on: On) -> Failing {
        match on {
            On::Image => Failing::Image,
            On::Journal => Failing::Journal,
            On::Record => Failing::Record,
            On::Clip => Failing::Clip,
        }
    }
}

impl Failing {
    fn word(self) -> &'static str {
        match self {
            Failing::Image => "image",
            Failing::Journal => "journal",
            Failing::Record => "record",
            Failing::Clip => "clip",
            Failing::Folder => "folder",
        }
    }
}

/// An answer. `{}` writes its line without the line break, in pieces of at most 512 bytes.
#[derive(Clone, Copy)]
pub enum Told<'a> {
    /// Whether recovery finished something, and the front's part of the note of it.
    Ready {
        finished: bool,
        note: &'a [u8],
    },
    Locked,
    InTheWay,
    Old,
    Another,
    Unknown,
    Refused(Refusal),
    Unread,
    Unkept,
    Decided(&'a Decided<'a>),
    /// So many bytes of image and journal are written.
    Progress(u64),
    Done(u32),
    Declined,
    Failed {
        on: Failing,
        begun: bool,
        why: io::Error,
    },
}

// The word for a kind of failure.
fn kind_word(kind: ErrorKind) -> &'static str {
    match kind {
        ErrorKind::StorageFull | ErrorKind::QuotaExceeded | ErrorKind::FileTooLarge => "full",
        ErrorKind::PermissionDenied | ErrorKind::ReadOnlyFilesystem => "denied",
        ErrorKind::NotFound => "missing",
        ErrorKind::AlreadyExists => "exists",
        ErrorKind::UnexpectedEof => "short",
        _ => "other",
    }
}

// Text between the quotes of a JSON string: a writer that escapes what is written to it.
#[derive(Drop)]
struct Escaping<'a, W> {
    to: &'a mut W,
}

impl<W: fmt::Write> fmt::Write for Escaping<'_, W> {
    fn write_str(&mut self, text: &str) -> fmt::Result {
        for c in text.chars() {
            match c {
                '"' => self.to.write_str("\\\"")?,
                '\\' => self.to.write_str("\\\\")?,
                '\0'..='\x1f' => write!(self.to, "\\u{:04x}", c as u32)?,
                _ => self.to.write_char(c)?,
            }
        }
        Ok(())
    }
}

// Bytes for a place in the image.
fn write_bytes<W: fmt::Write>(
    f: &mut fmt::Formatter<W>,
    name: &str,
    part: Bytes<'_>,
) -> fmt::Result {
    write!(f, r#","{name}":[{},"{}"]"#, part.at, Hex(part.bytes))
}

// A place in the image.
fn write_span<W: fmt::Write>(f: &mut fmt::Formatter<W>, name: &str, part: Span) -> fmt::Result {
    write!(f, r#","{name}":[{},{}]"#, part.at, part.len)
}

fn write_team<W: fmt::Write>(f: &mut fmt::Formatter<W>, team: &Team) -> fmt::Result {
    write!(
        f,
        ",{},{},{},{}",
        team.limit, team.share, team.taken, team.edits
    )
}

fn write_totals<W: fmt::Write>(f: &mut fmt::Formatter<W>, totals: &Totals) -> fmt::Result {
    write!(f, "{},{}", totals.used, totals.largest)?;
    for team in &totals.teams {
        write_team(f, team)?;
    }
    Ok(())
}

// All that will be written, in its order.
fn write_decided<W: fmt::Write>(f: &mut fmt::Formatter<W>, decided: &Decided<'_>) -> fmt::Result {
    let draft = &decided.draft;
    let copy = draft.copy;
    write!(f, r#"{{"answer":"decided","number":{}"#, decided.number)?;
    write!(f, r#","old_size":{}"#, decided.old_size)?;
    write!(f, r#","copy":[{},{},{}]"#, copy.from, copy.to, copy.len)?;
    write_span(f, "clip", draft.clip)?;
    write_bytes(f, "table", draft.table)?;
    write_span(f, "tail", draft.tail)?;
    write_bytes(f, "word", draft.word)?;
    write_span(f, "lost", draft.lost)?;
    f.write_str(r#","totals":["#)?;
    if let Some(totals) = decided.totals {
        write_totals(f, totals)?;
    }
    f.write_str("]}")
}

fn write_failed<W: fmt::Write>(
    f: &mut fmt::Formatter<W>,
    on: Failing,
    begun: bool,
    why: &io::Error,
) -> fmt::Result {
    write!(f, r#"{{"answer":"failed","on":"{}""#, on.word())?;
    write!(f, r#","begun":{begun},"kind":"{}""#, kind_word(why.kind()))?;
    f.write_str(r#","why":""#)?;
    write!(Escaping { to: f }, "{why}")?;
    f.write_str(r#""}"#)
}

// An answer that is a word alone.
fn write_word<W: fmt::Write>(f: &mut fmt::Formatter<W>, word: &str) -> fmt::Result {
    write!(f, r#"{{"answer":"{word}"}}"#)
}

impl fmt::Display for Told<'_> {
    fn fmt<W: fmt::Write>(&self, f: &mut fmt::Formatter<W>) -> fmt::Result {
        match self {
            Told::Ready { finished, note } => {
                let found = if *finished { "finished" } else { "nothing" };
                write!(
                    f,
                    r#"{{"answer":"ready","found":"{found}","note":"{}"}}"#,
                    Hex(note)
                )
            }
            Told::Locked => write_word(f, "locked"),
            Told::InTheWay => write_word(f, "in_the_way"),
            Told::Old => write_word(f, "old"),
            Told::Another => write_word(f, "another"),
            Told::Unknown => write_word(f, "unknown"),
            Told::Refused(refusal) => {
                write!(f, r#"{{"answer":"refused","number":{}}}"#, refusal.number())
            }
            Told::Unread => write_word(f, "unread"),
            Told::Unkept => write_word(f, "unkept"),
            Told::Decided(decided) => write_decided(f, decided),
            Told::Progress(bytes) => write!(f, r#"{{"answer":"progress","bytes":{bytes}}}"#),
            Told::Done(number) => write!(f, r#"{{"answer":"done","number":{number}}}"#),
            Told::Declined => write_word(f, "declined"),
            Told::Failed { on, begun, why } => write_failed(f, *on, *begun, why),
        }
    }
}
