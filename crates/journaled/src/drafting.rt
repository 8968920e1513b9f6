// What is decided on, as a draft for the journal.
ghost use Rattle.std.specs.Prelude.{◌≡◌, ◌+◌, ◌<◌, ◌≤◌, ◌^◌, ◌↔◌, IsTrue, false, length};
ghost use Rattle.endian.specs.Bytes.{be32_bytes};
ghost use Rattle.edit.specs.Inner.Decision.{decision_number};
ghost use Rattle.header.specs.Verdicts.{fst_offset, fst_size};
ghost use Rattle.journaled.specs.Inner.Drafted.{SameBesides, IsWritten, IsDraftOf, table_len, IsClipAlone, IsWordAlone, IsIdle};

use edit::{Decision, Writing};
use header::Field;
use journal::{Bytes, Copying, Draft, Span};

/// A draft that does nothing to an image with that header.
pub fn blank_draft<'a>(
    header: &'a [u8],
    image_len: usize,
    clip_len: usize,
    number: u64,
    note: &'a [u8],
) -> Draft<'a>
    ensures alone { IsClipAlone result }
    ensures image_len { result.image_len ≡ image_len }
    ensures number { result.number ≡ number }
    ensures header { result.header.now ≡ header.now }
    ensures clip_len { result.clip.len ≡ clip_len }
    ensures no_record { result.has_record ≡ false }
    ensures no_text { length result.record_text.now ≡ 0 }
    ensures note { result.note.now ≡ note.now }
{
    Draft {
        image_len,
        number,
        header,
        copy: Copying {
            from: 0,
            to: 0,
            len: 0,
        },
        clip: Span {
            at: 0,
            len: clip_len,
        },
        table: Bytes { at: 0, bytes: b"" },
        tail: Span { at: 0, len: 0 },
        word: Bytes { at: 0, bytes: b"" },
        lost: Span { at: 0, len: 0 },
        has_record: false,
        record_text: b"",
        note,
    }
}

/// The number of the entry that is decided on, 0 where there is none.
pub fn number_of(decision: Decision) -> u32
    ensures { result ≡ decision_number decision }
{
    match decision {
        Decision::Nothing => 0,
        Decision::Clip { number, .. } => number,
        Decision::Write { number, .. } => number,
    }
}

/// The new table's size, as the header's word.
pub fn size_word(decision: Decision) -> [u8; 4]
    requires { table_len decision < 2 ^ 32 }
    ensures { result ≡ be32_bytes (table_len decision) }
{
    match decision {
        Decision::Write { size, .. } => (size as u32).to_be_bytes(),
        _ => [0; 4],
    }
}

// The copy, the table of `size` bytes and its size, and what is zeroed.
fn write_drafted<'a>(
    blank: Draft<'a>,
    size: usize,
    writing: Writing,
    bytes: &'a [u8],
    word: &'a [u8],
) -> Draft<'a>
    requires held { size ≤ length bytes.now }
    requires word { word.now ≡ be32_bytes size }
    ensures written { let header = blank.entry.header.now in
        IsWritten (fst_offset header) (fst_size header) bytes.now size writing result }
    ensures rest { SameBesides blank.entry result }
{
    let fst_offset = header::fst_offset(blank.header) as usize;
    let fst_size = header::fst_size(blank.header) as usize;
    let Writing {
        old,
        place,
        kept,
        lost,
    } = writing;
    Draft {
        copy: Copying {
            from: old.offset as usize,
            to: place.offset as usize,
            len: kept,
        },
        clip: Span {
            at: place.offset as usize,
            ..blank.clip
        },
        table: Bytes {
            at: fst_offset,
            bytes: &bytes[..size],
        },
        tail: Span {
            at: fst_offset + size,
            len: fst_size.saturating_sub(size),
        },
        word: Bytes {
            at: Field::FST_SIZE.at,
            bytes: word,
        },
        lost: Span {
            at: lost.offset,
            len: lost.size,
        },
        ..blank
    }
}

/// What is decided on, in a draft that does nothing yet. The new table stands in `bytes`, its size in `word`.
pub fn draft_of<'a>(
    blank: Draft<'a>,
    decision: Decision,
    bytes: &'a [u8],
    word: &'a [u8],
) -> Draft<'a>
    requires blank { IsClipAlone blank }
    requires held { table_len decision ≤ length bytes.now }
    requires word { word.now ≡ be32_bytes (table_len decision) }
    ensures drafted { let header = blank.entry.header.now in
        IsDraftOf (fst_offset header) (fst_size header) bytes.now decision result }
    ensures rest { SameBesides blank.entry result }
{
    match decision {
        Decision::Nothing => blank,
        Decision::Clip { at, .. } => Draft {
            clip: Span {
                at: at as usize,
                ..blank.clip
            },
            ..blank
        },
        Decision::Write { size, writing, .. } => {
            write_drafted(blank, size, writing, bytes, word)
        }
    }
}

/// A word of the header, in a draft that does nothing yet.
pub fn word_draft<'a>(blank: Draft<'a>, at: usize, word: &'a [u8]) -> Draft<'a>
    requires { IsClipAlone blank }
    ensures at { result.word.at ≡ at }
    ensures bytes { result.word.bytes.now ≡ word.now }
    ensures alone { IsWordAlone result }
    ensures rest { SameBesides blank.entry result }
{
    Draft {
        word: Bytes { at, bytes: word },
        ..blank
    }
}

/// Whether nothing is to be written, no record either.
pub fn is_idle(draft: &Draft<'_>) -> bool
    ensures { IsTrue result ↔ IsIdle draft.now }
{
    draft.copy.len == 0
        && draft.clip.len == 0
        && draft.table.bytes.is_empty()
        && draft.tail.len == 0
        && draft.word.bytes.is_empty()
        && draft.lost.len == 0
        && !draft.has_record
}
