// Another stated FST maximum, made through the journal.
ghost use Rattle.std.specs.Prelude.{◌≡◌, ◌≤◌, ◌<◌, ◌^◌, Ok, ℕ, true, false, length, OnOk, IfOk, IfErr};
ghost use Rattle.opened.specs.Opening.{opening};
ghost use Rattle.opened.specs.Inner.Parts.{ArePartsOf};
ghost use Rattle.journal.specs.Disk.{Known, LeavesOnly, HasCause};
ghost use Rattle.journal.specs.Journal.{kept_of, IsSettled, IsBefore, IsBeforeOrAfter};
ghost use Rattle.journaled.specs.Edited.{kept_stated, IsStated, IsAgreed};
ghost use Rattle.journaled.specs.Inner.Behind.{image_behind};

use crate::deciding::open_behind;
use crate::drafting::{blank_draft, word_draft};
use crate::making::{Answer, Decided, Watch, before_it_began, make};
use crate::reading::read_parts;
use executable::DOL_HEADER_LEN;
use header::{Field, HEADER_LEN};
use journal::{Files, Stopped};
use opened::Parts;
use refusal::Verdict;
use totals::Totals;

// Whether the image behind the parts opens.
fn check_opening<F: Files>(files: &F, parts: Parts<'_>, words: &mut [u32]) -> Verdict
    requires { ArePartsOf (image_behind F.known (F.state files.now).seen.image parts) parts }
    ensures opens { let image = image_behind F.known (F.state files.now).seen.image parts.entry in
        result ≡ opening image (length words.old) }
    ensures long { OnOk result (0x440 ≤ parts.entry.length) }
{
    open_behind(files, parts, words)?;
    Ok(())
}

// Of an image that opens.
fn state_opened<'a, F: Files, W: Watch>(
    files: &mut F,
    watch: &mut W,
    parts: Parts<'a>,
    desk: &mut [u8],
    maximum: u32,
    note: &'a [u8],
    number: u64,
) -> Result<Answer, Stopped>
    requires room { 4096 ≤ length desk.old }
    requires some { 0 < length (F.state files.old).seen.journal }
    requires note { length note.now < 2 ^ 32 }
    requires clip { length (F.state files.old).clip ≡ 0 }
    requires parts { ArePartsOf (image_behind F.known (F.state files.old).seen.image parts) parts }
    requires len { parts.length ≡ length (F.state files.old).seen.image }
    requires long { 0x440 ≤ parts.length }
    requires settled { Known F.known (IsSettled (F.state files.old)) }
    ensures stated { IfOk result (λ answer. Known F.known ((words room : ℕ) →
        opening (F.state files.old).seen.image words ≡ Ok tt →
        IsStated maximum words room (F.state files.old).seen (F.state files.new).seen answer)) }
    ensures agreed { IfOk result (IsAgreed (W.agreed watch.new)) }
    ensures begun { IfErr result (λ stopped. stopped.begun ≡ true → W.agreed watch.new ≡ true) }
    ensures settled { OnOk result (Known F.known (IsSettled (F.state files.new))) }
    ensures some { OnOk result (0 < length (F.state files.new).seen.journal) }
    ensures any_moment { let kept = kept_of (F.state files.old).seen in
        Known F.known (LeavesOnly (F.state files.old) (F.state files.new)
        (IsBeforeOrAfter number kept (kept_stated maximum kept))) }
    ensures not_begun { IfErr result (λ stopped. stopped.begun ≡ false →
        Known F.known (LeavesOnly (F.state files.old) (F.state files.new)
        (IsBefore number (kept_of (F.state files.old).seen)))) }
    ensures cause { HasCause F.known (F.state files.old) (F.state files.new) result }
{
    let image_len = parts.length as usize;
    let clip_len = files.clip_len();
    let word = maximum.to_be_bytes();
    let blank = blank_draft(parts.header, image_len, clip_len, number, note);
    let no_totals: Option<&'a Totals> = None;
    let decided = Decided {
        number: 0,
        draft: word_draft(blank, Field::FST_MAX_SIZE.at, &word),
        old_size: header::fst_size(parts.header),
        totals: no_totals,
    };
    make(files, watch, &decided, desk)
}

/// States another maximum of the table's size, 0 for none, in the header of an image that opens. As for an edit, a crash
/// at any moment leaves files of which recovery makes the image before or after it.
pub fn state_maximum<F: Files, W: Watch>(
    files: &mut F,
    watch: &mut W,
    table: &mut [u8],
    words: &mut [u32],
    desk: &mut [u8],
    maximum: u32,
    note: &[u8],
    number: u64,
) -> Result<Answer, Stopped>
    requires room { 4096 ≤ length desk.old }
    requires some { 0 < length (F.state files.old).seen.journal }
    requires note { length note.now < 2 ^ 32 }
    requires clip { length (F.state files.old).clip ≡ 0 }
    requires settled { Known F.known (IsSettled (F.state files.old)) }
    ensures stated { IfOk result (λ answer. Known F.known (IsStated maximum (length words.old) (length table.old)
        (F.state files.old).seen (F.state files.new).seen answer)) }
    ensures agreed { IfOk result (IsAgreed (W.agreed watch.new)) }
    ensures begun { IfErr result (λ stopped. stopped.begun ≡ true → W.agreed watch.new ≡ true) }
    ensures settled { OnOk result (Known F.known (IsSettled (F.state files.new))) }
    ensures some { OnOk result (0 < length (F.state files.new).seen.journal) }
    ensures any_moment { let kept = kept_of (F.state files.old).seen in
        Known F.known (LeavesOnly (F.state files.old) (F.state files.new)
        (IsBeforeOrAfter number kept (kept_stated maximum kept))) }
    ensures not_begun { IfErr result (λ stopped. stopped.begun ≡ false →
        Known F.known (LeavesOnly (F.state files.old) (F.state files.new)
        (IsBefore number (kept_of (F.state files.old).seen)))) }
    ensures cause { HasCause F.known (F.state files.old) (F.state files.new) result }
{
    let mut header = [0; HEADER_LEN];
    let mut program = [0; DOL_HEADER_LEN];
    let read = read_parts(files, &mut header, table, &mut program).map_err(before_it_began)?;
    let Some(parts) = read else {
        return Ok(Answer::Unread);
    };
    if let Err(refusal) = check_opening(files, parts, words) {
        return Ok(Answer::Refused(refusal));
    }
    state_opened(files, watch, parts, desk, maximum, note, number)
}
