// An edit of files: what is read of the image, decided, entered in the record, and made through the journal.
ghost use Rattle.std.specs.Prelude.{◌≡◌, ◌≤◌, ◌<◌, ◌^◌, ℕ, true, false, length, take, OnOk, IfOk, IfErr, IfSome, IfNone};
ghost use Rattle.opened.specs.Inner.Parts.{ArePartsOf};
ghost use Rattle.record_text.specs.Text.{record_text};
ghost use Rattle.journal.specs.Disk.{Known, LeavesOnly, HasCause};
ghost use Rattle.journal.specs.Journal.{kept_of, IsSettled, IsBefore, IsBeforeOrAfter};
ghost use Rattle.journaled.specs.Edited.{turn_of, kept_edited, IsAnswered, IsAgreed};
ghost use Rattle.journaled.specs.Inner.Behind.{image_behind};
ghost use Rattle.journaled.specs.Inner.Clip.{ClipIs};
ghost use Rattle.journaled.specs.Inner.Drafted.{CanMake, kept_carried, IsCarriedOut};

use crate::deciding::decide;
use crate::drafting::{blank_draft, draft_of, number_of, size_word};
use crate::making::{Answer, Decided, Watch, before_it_began, make};
use crate::reading::read_parts;
use crate::request::Order;
use edit::Decision;
use executable::DOL_HEADER_LEN;
use header::HEADER_LEN;
use journal::{Draft, Files, Stopped};
use opened::Parts;
use totals::Totals;

/// No record's text is longer.
const MOST_RECORD: usize = 0x1000;

// The record's text, where one is kept, and how long it is; nothing where it is longer than `text`.
fn put_text(order: &Order<'_>, totals: &Totals, text: &mut [u8]) -> Option<usize>
    ensures fits { IfSome result (λ n. n ≤ length text.old) }
    ensures put { IfSome result (λ n. order.now.keeps_record ≡ true →
        take n text.new ≡ record_text order.now.teams.now totals.now) }
    ensures long { IfNone result ((order.now.keeps_record ≡ true)
        × (length text.old < length (record_text order.now.teams.now totals.now))) }
{
    if !order.keeps_record {
        return Some(0);
    }
    record_text::put(order.teams, totals, text)
}

// What is decided on, made with the record's text.
fn make_decided<F: Files, W: Watch>(
    files: &mut F,
    watch: &mut W,
    parts: Parts<'_>,
    decision: Decision,
    bytes: &[u8],
    desk: &mut [u8],
    totals: &Totals,
    order: &Order<'_>,
) -> Result<Answer, Stopped>
    requires room { 4096 ≤ length desk.old }
    requires some { 0 < length (F.state files.old).seen.journal }
    requires note { length order.now.note.now < 2 ^ 32 }
    requires parts { ArePartsOf (image_behind F.known (F.state files.old).seen.image parts) parts }
    requires len { parts.length ≡ length (F.state files.old).seen.image }
    requires can { let image = image_behind F.known (F.state files.old).seen.image parts in
        CanMake image bytes.now (F.state files.old).clip decision }
    requires settled { Known F.known (IsSettled (F.state files.old)) }
    ensures made { IfOk result (λ answer. Known F.known (IsCarriedOut order.now totals.now decision bytes.now
        (F.state files.old).clip (F.state files.old).seen (F.state files.new).seen answer)) }
    ensures agreed { IfOk result (IsAgreed (W.agreed watch.new)) }
    ensures begun { IfErr result (λ stopped. stopped.begun ≡ true → W.agreed watch.new ≡ true) }
    ensures settled { OnOk result (Known F.known (IsSettled (F.state files.new))) }
    ensures some { OnOk result (0 < length (F.state files.new).seen.journal) }
    ensures any_moment { let kept = kept_of (F.state files.old).seen in
        let after = kept_carried order.now totals.now decision bytes.now (F.state files.old).clip kept in
        Known F.known (LeavesOnly (F.state files.old) (F.state files.new) (IsBeforeOrAfter order.now.number kept after)) }
    ensures not_begun { IfErr result (λ stopped. stopped.begun ≡ false →
        Known F.known (LeavesOnly (F.state files.old) (F.state files.new)
        (IsBefore order.now.number (kept_of (F.state files.old).seen)))) }
    ensures cause { HasCause F.known (F.state files.old) (F.state files.new) result }
{
    let mut text = [0; MOST_RECORD];
    let Some(len) = put_text(order, totals, &mut text) else {
        return Ok(Answer::Unkept);
    };
    let image_len = parts.length as usize;
    let clip_len = files.clip_len();
    let blank = Draft {
        has_record: order.keeps_record,
        record_text: &text[..len],
        ..blank_draft(parts.header, image_len, clip_len, order.number, order.note)
    };
    let word = size_word(decision);
    let decided = Decided {
        number: number_of(decision),
        draft: draft_of(blank, decision, bytes, &word),
        old_size: header::fst_size(parts.header),
        totals: Some(totals),
    };
    make(files, watch, &decided, desk)
}

// An edit of the image that has these parts.
fn run_on<F: Files, W: Watch>(
    files: &mut F,
    watch: &mut W,
    parts: Parts<'_>,
    words: &mut [u32],
    bytes: &mut [u8],
    desk: &mut [u8],
    totals: &mut Totals,
    order: &Order<'_>,
) -> Result<Answer, Stopped>
    requires room { 4096 ≤ length desk.old }
    requires some { 0 < length (F.state files.old).seen.journal }
    requires note { length order.now.note.now < 2 ^ 32 }
    requires clip { ClipIs order.now.request (F.state files.old).clip }
    requires parts { ArePartsOf (image_behind F.known (F.state files.old).seen.image parts) parts }
    requires len { parts.length ≡ length (F.state files.old).seen.image }
    requires settled { Known F.known (IsSettled (F.state files.old)) }
    ensures answered { let turn = turn_of order.now totals.old (length words.old) (length bytes.old)
        (F.state files.old).clip in
        IfOk result (λ answer. Known F.known ((room : ℕ) → IsAnswered turn room
        (F.state files.old).seen (F.state files.new).seen totals.new answer)) }
    ensures agreed { IfOk result (IsAgreed (W.agreed watch.new)) }
    ensures begun { IfErr result (λ stopped. stopped.begun ≡ true → W.agreed watch.new ≡ true) }
    ensures handed_back { IfErr result (λ stopped. totals.new ≡ totals.old) }
    ensures settled { OnOk result (Known F.known (IsSettled (F.state files.new))) }
    ensures some { OnOk result (0 < length (F.state files.new).seen.journal) }
    ensures any_moment { let turn = turn_of order.now totals.old (length words.old) (length bytes.old)
        (F.state files.old).clip in let kept = kept_of (F.state files.old).seen in
        Known F.known (LeavesOnly (F.state files.old) (F.state files.new)
        (IsBeforeOrAfter order.now.number kept (kept_edited turn kept))) }
    ensures not_begun { IfErr result (λ stopped. stopped.begun ≡ false →
        Known F.known (LeavesOnly (F.state files.old) (F.state files.new)
        (IsBefore order.now.number (kept_of (F.state files.old).seen)))) }
    ensures cause { HasCause F.known (F.state files.old) (F.state files.new) result }
{
    // Only an edit that is made moves the record on.
    let mut counted = *totals;
    let decision = match decide(files, parts, words, bytes, &mut counted, order) {
        Err(refusal) => return Ok(Answer::Refused(refusal)),
        Ok(decision) => decision,
    };
    let answer = make_decided(files, watch, parts, decision, bytes, desk, &counted, order)?;
    if let Answer::Done(_) = answer {
        *totals = counted;
    }
    Ok(answer)
}

/// Makes an edit of the image. At `Done` it is on the disk, with its record, and the journal is closed. A crash at any
/// moment, and any `Err`, leaves files of which `journal::resume` makes image and record as they were, or exactly as
/// the edit's rules define them.
pub fn run<F: Files, W: Watch>(
    files: &mut F,
    watch: &mut W,
    table: &mut [u8],
    words: &mut [u32],
    bytes: &mut [u8],
    desk: &mut [u8],
    totals: &mut Totals,
    order: &Order<'_>,
) -> Result<Answer, Stopped>
    requires room { 4096 ≤ length desk.old }
    requires some { 0 < length (F.state files.old).seen.journal }
    requires note { length order.now.note.now < 2 ^ 32 }
    requires clip { ClipIs order.now.request (F.state files.old).clip }
    requires settled { Known F.known (IsSettled (F.state files.old)) }
    ensures answered { let turn = turn_of order.now totals.old (length words.old) (length bytes.old)
        (F.state files.old).clip in
        IfOk result (λ answer. Known F.known (IsAnswered turn (length table.old)
        (F.state files.old).seen (F.state files.new).seen totals.new answer)) }
    ensures agreed { IfOk result (IsAgreed (W.agreed watch.new)) }
    ensures begun { IfErr result (λ stopped. stopped.begun ≡ true → W.agreed watch.new ≡ true) }
    ensures handed_back { IfErr result (λ stopped. totals.new ≡ totals.old) }
    ensures settled { OnOk result (Known F.known (IsSettled (F.state files.new))) }
    ensures some { OnOk result (0 < length (F.state files.new).seen.journal) }
    ensures any_moment { let turn = turn_of order.now totals.old (length words.old) (length bytes.old)
        (F.state files.old).clip in let kept = kept_of (F.state files.old).seen in
        Known F.known (LeavesOnly (F.state files.old) (F.state files.new)
        (IsBeforeOrAfter order.now.number kept (kept_edited turn kept))) }
    ensures not_begun { IfErr result (λ stopped. stopped.begun ≡ false →
        Known F.known (LeavesOnly (F.state files.old) (F.state files.new)
        (IsBefore order.now.number (kept_of (F.state files.old).seen)))) }
    ensures cause { HasCause F.known (F.state files.old) (F.state files.new) result }
{
    let mut header = [0; HEADER_LEN];
    let mut program = [0; DOL_HEADER_LEN];
    let read = read_parts(files, &mut header, table, &mut program).map_err(before_it_began)?;
    let Some(parts) = read else {
        return Ok(Answer::Unread);
    };
    run_on(files, watch, parts, words, bytes, desk, totals, order)
}
