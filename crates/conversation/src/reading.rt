// A line of words, read.
ghost use Rattle.std.specs.Prelude.{◌≡◌, ◌≢◌, ◌∷◌, [], ◌==◌, true, IfOk, IfSome, length, map, codes, slice_index, string_bytes};
ghost use Rattle.std.specs.List.{slice_split};
ghost use Rattle.std.specs.Fmt.{decimal};
ghost use Rattle.conversation.specs.Lines.{hex_word, what_words, totals_numbers, request_words, texts};

use crate::asked::{Asked, Named, What};
use crate::hexadecimal::read_hex;
use edit::Kind;
use hex::FromHexError;
use std::alloc::{AllocError, Global};
use totals::{TEAMS, Team, Totals};

/// Why a line is not read: it is none of the lines, or there is no memory for it.
#[derive(Clone, Copy, Debug, PartialEq, Eq)]
pub enum Unread {
    Unknown,
    NoMemory,
}

impl From<AllocError> for Unread {
    fn from(_error: AllocError) -> Unread {
        Unread::NoMemory
    }
}

impl From<FromHexError> for Unread {
    fn from(error: FromHexError) -> Unread {
        match error {
            FromHexError::OutOfMemory => Unread::NoMemory,
            _ => Unread::Unknown,
        }
    }
}

// Whether a number has no sign, and no zero in front.
fn is_plain(word: &str) -> bool
    ensures sign { result ≡ true → slice_index word.now 0 ≢ 43 }
    ensures zero { result ≡ true → slice_index word.now 0 ≡ 48 → length word.now ≡ 1 }
{
    !matches!(word.as_bytes(), [b'+', ..] | [b'0', _, ..])
}

// A number, written as `{}` writes it.
fn read_number(word: &str) -> Result<u32, Unread>
    ensures { IfOk result (λ n. decimal n ≡ word.now) }
{
    match word.parse() {
        Ok(number) if is_plain(word) => Ok(number),
        _ => Err(Unread::Unknown),
    }
}

// The same of 64 bits.
fn read_long(word: &str) -> Result<u64, Unread>
    ensures { IfOk result (λ n. decimal n ≡ word.now) }
{
    match word.parse() {
        Ok(number) if is_plain(word) => Ok(number),
        _ => Err(Unread::Unknown),
    }
}

// Bytes that are UTF-8.
fn read_text(alloc: Global, word: &str) -> Result<String, Unread>
    ensures { IfOk result (λ text. hex_word (string_bytes text) ≡ word.now) }
{
    String::from_utf8(read_hex(alloc, word)?).map_err(|_| Unread::Unknown)
}

fn read_record(alloc: Global, word: &str) -> Result<Asked, Unread>
    ensures { IfOk result (λ asked. request_words asked ≡ codes "record" ∷ word.now ∷ []) }
{
    if word == "-" {
        return Ok(Asked::Record(None));
    }
    Ok(Asked::Record(Some(read_text(alloc, word)?)))
}

fn read_totals(words: &[&str]) -> Result<Totals, Unread>
    ensures { IfOk result (λ totals. map decimal (totals_numbers totals) ≡ texts words.now) }
{
    let [used, largest, words @ ..] = words else {
        return Err(Unread::Unknown);
    };
    let none = Team {
        limit: 0,
        share: 0,
        taken: 0,
        edits: 0,
    };
    let mut teams = [none; TEAMS];
    let mut left = words;
    for k in 0..TEAMS {
        let [limit, share, taken, edits, others @ ..] = left else {
            return Err(Unread::Unknown);
        };
        teams[k] = Team {
            limit: read_number(limit)?,
            share: read_number(share)?,
            taken: read_number(taken)?,
            edits: read_number(edits)?,
        };
        left = others;
    }
    if !left.is_empty() {
        return Err(Unread::Unknown);
    }
    Ok(Totals {
        used: read_number(used)?,
        largest: read_number(largest)?,
        teams,
    })
}

fn read_what(alloc: Global, words: &[&str]) -> Result<What, Unread>
    ensures { IfOk result (λ what. what_words what ≡ texts words.now) }
{
    match words {
        ["rewrite"] => Ok(What::Rewrite),
        ["move", file, offset] => Ok(What::Move {
            file: read_number(file)?,
            offset: read_number(offset)?,
        }),
        ["resize", file, size] => Ok(What::Resize {
            file: read_number(file)?,
            size: read_number(size)?,
        }),
        ["fill", file] => Ok(What::Fill {
            file: read_number(file)?,
        }),
        ["insert-file", parent, name] => Ok(What::Insert {
            kind: Kind::File,
            parent: read_number(parent)?,
            name: read_hex(alloc, name)?,
        }),
        ["insert-directory", parent, name] => Ok(What::Insert {
            kind: Kind::Directory,
            parent: read_number(parent)?,
            name: read_hex(alloc, name)?,
        }),
        ["make-directories", path] => Ok(What::MakeDirectories {
            path: read_hex(alloc, path)?,
        }),
        _ => Err(Unread::Unknown),
    }
}

fn read_words(alloc: Global, words: &[&str]) -> Result<Asked, Unread>
    ensures { IfOk result (λ asked. request_words asked ≡ texts words.now) }
{
    match words {
        ["note", note] => Ok(Asked::Note(read_hex(alloc, note)?)),
        ["record", path] => read_record(alloc, path),
        ["listed", number, name] => Ok(Asked::Listed(Named {
            number: read_number(number)?,
            name: read_hex(alloc, name)?,
        })),
        ["totals", numbers @ ..] => Ok(Asked::Totals(read_totals(numbers)?)),
        ["clip", start, len, path] => Ok(Asked::Clip {
            start: read_long(start)?,
            len: read_long(len)?,
            path: read_text(alloc, path)?,
        }),
        ["edit", team, what @ ..] => Ok(Asked::Edit {
            team: read_number(team)?,
            what: read_what(alloc, what)?,
        }),
        ["maximum", maximum] => Ok(Asked::Maximum(read_number(maximum)?)),
        ["go"] => Ok(Asked::Go),
        ["stop"] => Ok(Asked::Stop),
        _ => Err(Unread::Unknown),
    }
}

/// What a line asks for, without its line break; nothing where it is none of the lines.
pub fn read_request(alloc: Global, line: &[u8]) -> Result<Option<Asked>, AllocError>
    ensures { IfOk result (λ found. IfSome found (λ asked. request_words asked ≡ slice_split (λ b. b == 32) line.now)) }
{
    let Ok(line) = str::from_utf8(line) else {
        return Ok(None);
    };
    let words: Vec<&str> = line.split(' ').collect(alloc)?;
    match read_words(alloc, words.as_slice()) {
        Ok(asked) => Ok(Some(asked)),
        Err(Unread::Unknown) => Ok(None),
        Err(Unread::NoMemory) => Err(AllocError),
    }
}
