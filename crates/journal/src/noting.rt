// A draft written into the journal, behind its closed gate.
ghost use Rattle.std.specs.Prelude.{◌≡◌, ◌+◌, ◌-◌, ◌*◌, ◌≤◌, ◌<◌};
ghost use Rattle.std.specs.Prelude.{true, length, take, drop, OnOk};
ghost use Rattle.endian.specs.Bytes.{put, span};
ghost use Rattle.journal.specs.Disk.{Known, LeavesOnly, HasCause, with_journal};
ghost use Rattle.journal.specs.Journal.{kept_of, will_apply, finished, opened_disk, note_in, sum_from};
ghost use Rattle.journal.specs.Journal.{IsSettled, IsBefore, Tells};
ghost use Rattle.journal.specs.Draft.{DraftFits, kept_after};
ghost use Rattle.journal.specs.Inner.Carried.{Carries};
ghost use Rattle.journal.specs.Inner.Noted as noted_of;
ghost use Rattle.journal.specs.Inner.Noted.{number_bytes, bytes_of, places_of, numbers_of};
ghost use Rattle.journal.specs.Inner.Noted.{head_of, parts_of, noted, FitInBytes, IsShort, KeepsGate};

use crate::draft::Draft;
use crate::files::{Fault, Files};
use crate::head::{HEAD, HEADER};
use crate::pieces::note_clip;
use crate::sum::sum_up_to;

// Where the parts of a draft stand in the journal.
#[derive(Clone, Copy)]
struct Places {
    note: usize,
    word: usize,
    table: usize,
    clip: usize,
}

// The number in 8 bytes, highest byte first.
fn set_number(head: &mut [u8], at: usize, n: usize)
    requires { at + 8 ≤ length head.old }
    ensures { head.new ≡ put head.old at (number_bytes n) }
{
    endian::write_u32(head, at, (n / 0x1_0000_0000) as u32);
    endian::write_u32(head, at + 4, (n % 0x1_0000_0000) as u32);
}

// The numbers one behind the other.
fn set_numbers(head: &mut [u8], at: usize, numbers: &[usize])
    requires { at + 8 * length numbers.now ≤ length head.old }
    ensures written { head.new ≡ put head.old at (bytes_of numbers.now) }
    ensures fit { FitInBytes numbers.now }
{
    for k in 0..numbers.len() {
        set_number(head, at + 8 * k, numbers[k]);
    }
}

fn record_part<'a>(draft: &Draft<'a>) -> &'a [u8]
    ensures { result.now ≡ noted_of.record_part draft.now }
{
    if draft.has_record {
        draft.record_text
    } else {
        &[]
    }
}

impl Places {
    fn of(draft: &Draft<'_>) -> Self
        requires { IsShort draft.now }
        ensures { result ≡ places_of draft.now }
    {
        let note = HEAD + record_part(draft).len();
        let word = note + draft.note.len();
        let table = word + draft.word.bytes.len();
        let clip = table + draft.table.bytes.len();
        Self {
            note,
            word,
            table,
            clip,
        }
    }
}

// The numbers of the head, in the order in which they stand.
fn numbers(draft: &Draft<'_>, places: Places) -> [usize; 22]
    requires short { IsShort draft.now }
    requires places { places ≡ places_of draft.now }
    ensures { result ≡ numbers_of draft.now }
{
    let count = if draft.has_record {
        draft.record_text.len() + 1
    } else {
        0
    };
    [
        draft.image_len,
        draft.number as usize,
        count,
        draft.note.len(),
        draft.copy.from,
        draft.copy.to,
        draft.copy.len,
        draft.clip.at,
        draft.clip.len,
        places.clip,
        draft.table.at,
        draft.table.bytes.len(),
        places.table,
        draft.tail.at,
        draft.tail.len,
        0,
        draft.word.at,
        draft.word.bytes.len(),
        places.word,
        draft.lost.at,
        draft.lost.len,
        0,
    ]
}

// The head but for its first byte.
fn set_head(head: &mut [u8], draft: &Draft<'_>, places: Places)
    requires room { length head.old ≡ 1266 }
    requires header { length draft.now.header.now ≡ 0x440 }
    requires short { IsShort draft.now }
    requires places { places ≡ places_of draft.now }
    ensures head { drop 1 head.new ≡ head_of draft.now }
    ensures fit { FitInBytes (numbers_of draft.now) }
{
    let gate = if draft.copy.len == 0 { 1 } else { 0 };
    endian::write_u8(head, 1, gate);
    set_numbers(head, 2, &numbers(draft, places));
    endian::copy(draft.header, 0, head, 178, HEADER);
}

fn write_head<F: Files>(files: &mut F, draft: &Draft<'_>, places: Places) -> Result<(), Fault>
    requires some { 0 < length (F.state files.old).seen.journal }
    requires header { length draft.now.header.now ≡ 0x440 }
    requires short { IsShort draft.now }
    requires places { places ≡ places_of draft.now }
    ensures done { OnOk result (Known F.known (let old = (F.state files.old).seen in
        (F.state files.new).seen ≡ with_journal old (put old.journal 1 (head_of draft.now)))) }
    ensures long { OnOk result (1266 ≤ length (F.state files.new).seen.journal) }
    ensures fit { OnOk result (FitInBytes (numbers_of draft.now)) }
    ensures carried { Carries KeepsGate (F.state files.old) (F.state files.new) }
    ensures cause { HasCause F.known (F.state files.old) (F.state files.new) result }
{
    let mut head = [0; HEAD];
    set_head(&mut head, draft, places);
    files.write_journal(1, &head[1..])
}

// The record, the note, the word and the table.
fn write_parts<F: Files>(files: &mut F, draft: &Draft<'_>, places: Places) -> Result<(), Fault>
    requires long { 1266 ≤ length (F.state files.old).seen.journal }
    requires short { IsShort draft.now }
    requires places { places ≡ places_of draft.now }
    ensures done { OnOk result (Known F.known (let old = (F.state files.old).seen in
        (F.state files.new).seen ≡ with_journal old (put old.journal 1266 (parts_of draft.now)))) }
    ensures long { OnOk result (places.clip ≤ length (F.state files.new).seen.journal) }
    ensures carried { Carries KeepsGate (F.state files.old) (F.state files.new) }
    ensures cause { HasCause F.known (F.state files.old) (F.state files.new) result }
{
    files.write_journal(HEAD, record_part(draft))?;
    files.write_journal(places.note, draft.note)?;
    files.write_journal(places.word, draft.word.bytes)?;
    files.write_journal(places.table, draft.table.bytes)
}

// The sum of all that was noted, behind it.
fn note_sum<F: Files>(files: &mut F, end: usize, desk: &mut [u8]) -> Result<(), Fault>
    requires room { 0 < length desk.old }
    requires place { 1266 ≤ end }
    requires inside { end ≤ length (F.state files.old).seen.journal }
    ensures done { OnOk result (Known F.known (let old = (F.state files.old).seen in
        (F.state files.new).seen ≡ with_journal old
        (put old.journal end (number_bytes (sum_from 0 (span old.journal 2 (end - 2))))))) }
    ensures carried { Carries KeepsGate (F.state files.old) (F.state files.new) }
    ensures cause { HasCause F.known (F.state files.old) (F.state files.new) result }
{
    let sum = sum_up_to(files, end, desk)?;
    let mut bytes = [0; 8];
    set_number(&mut bytes, 0, sum as usize);
    files.write_journal(end, &bytes)
}

// All of the draft, and its sum.
fn write_draft<F: Files>(files: &mut F, draft: &Draft<'_>, desk: &mut [u8]) -> Result<(), Fault>
    requires room { 4096 ≤ length desk.old }
    requires some { 0 < length (F.state files.old).seen.journal }
    requires fits { DraftFits draft.now (length (F.state files.old).seen.image)
        (length (F.state files.old).clip) }
    ensures done { OnOk result (Known F.known (let old = F.state files.old in
        (F.state files.new).seen
        ≡ with_journal old.seen (noted draft.now old.clip old.seen.journal))) }
    ensures fit { OnOk result (FitInBytes (numbers_of draft.now)) }
    ensures carried { Carries KeepsGate (F.state files.old) (F.state files.new) }
    ensures cause { HasCause F.known (F.state files.old) (F.state files.new) result }
{
    let places = Places::of(draft);
    write_head(files, draft, places)?;
    write_parts(files, draft, places)?;
    note_clip(files, places.clip, draft.clip.len, desk)?;
    note_sum(files, places.clip + draft.clip.len, desk)
}

/// Writes the draft behind the closed gate, on the disk at `Ok`. Behind the head stand the record,
/// the note, the word, the table, the clip, and their sum.
pub fn note<F: Files>(files: &mut F, draft: &Draft<'_>, desk: &mut [u8]) -> Result<(), Fault>
    requires room { 4096 ≤ length desk.old }
    requires some { 0 < length (F.state files.old).seen.journal }
    requires fits { DraftFits draft.now (length (F.state files.old).seen.image)
        (length (F.state files.old).clip) }
    requires settled { Known F.known (IsSettled (F.state files.old)) }
    requires owner { Known F.known
        (draft.now.header.now ≡ take 0x440 (F.state files.old).seen.image) }
    ensures settled { OnOk result (Known F.known (IsSettled (F.state files.new))) }
    ensures kept { OnOk result (Known F.known
        (kept_of (F.state files.new).seen ≡ kept_of (F.state files.old).seen)) }
    ensures ready { OnOk result (Known F.known
        (will_apply draft.now.number (F.state files.new).seen ≡ true)) }
    ensures comes_to { OnOk result (Known F.known (finished (opened_disk (F.state files.new).seen)
        ≡ kept_after draft.now (F.state files.old).clip (kept_of (F.state files.old).seen))) }
    ensures told { OnOk result (Known F.known
        (note_in (F.state files.new).seen.journal ≡ draft.now.note.now)) }
    ensures tells { Known F.known (LeavesOnly (F.state files.old) (F.state files.new)
        (Tells draft.now.note.now)) }
    ensures any_moment { Known F.known (LeavesOnly (F.state files.old) (F.state files.new)
        (IsBefore draft.now.number (kept_of (F.state files.old).seen))) }
    ensures cause { HasCause F.known (F.state files.old) (F.state files.new) result }
{
    write_draft(files, draft, desk)?;
    files.sync_journal()
}
