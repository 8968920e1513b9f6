// An edit that is in the journal, finished: after a crash, or now that its gate is opened. Each function makes a few
// calls, after each of which a crash may come.
ghost use Rattle.std.specs.Prelude.{ℕ, ◌≡◌, ◌≢◌, ◌+◌, ◌≤◌, ◌<◌, ◌||◌, not, max, true, false, OnOk, IfOk, IsTrue};
ghost use Rattle.std.specs.Prelude.{[], ◌∷◌, length, take, slice_index};
ghost use Rattle.endian.specs.Bytes.{put};
ghost use Rattle.journal.specs.declared.recovery.Found.TheVariants.{Finished, Another};
ghost use Rattle.journal.specs.Disk.{Known, Looks, LeavesOnly, HasCause, IsOnDisk, TearsJournal, with_image, with_journal, with_record};
ghost use Rattle.journal.specs.Journal.{kept_of, recovered, finished, found_in, copied, copying_in, is_copied};
ghost use Rattle.journal.specs.Journal.{writes_in, steps_in, record_count, record_after, after, is_open, is_whole, applies};
ghost use Rattle.journal.specs.Journal.{opened_disk, will_apply, IsSettled, ComesFrom, IsStillRecovered, IsBeforeOrAfter};
ghost use Rattle.journal.specs.Inner.Carried.{Carries, KeepsDraft};
ghost use Rattle.journal.specs.Inner.Head.{HeadFits, IsPending, EndsAs, SameLengths};

use crate::files::{Fault, Files};
use crate::head::{self, HEAD, HEADER};
use crate::pieces::copy_image;
use crate::steps::apply;
use crate::sum;

/// What a recovery found.
#[derive(Clone, Copy, Debug, PartialEq, Eq)]
pub enum Found {
    /// No edit was cut.
    Nothing,
    /// One was, and is finished now.
    Finished,
    /// The journal is another image's, or bytes of it were changed: neither it nor the image was touched.
    Another,
}

// The copy, until it is on the disk.
fn copy_over<F: Files>(
    files: &mut F,
    number: u64,
    head: &[u8],
    desk: &mut [u8],
) -> Result<(), Fault>
    requires room { 4096 ≤ length desk.old }
    requires head { length head.now ≡ 1266 }
    requires fits { let old = (F.state files.old).seen in
        HeadFits head.now (length old.journal) (length old.image) }
    requires pending { Known F.known (IsPending number (F.state files.old)) }
    requires same { Known F.known (head.now ≡ take 1266 (F.state files.old).seen.journal) }
    requires uncopied { Known F.known (is_copied (F.state files.old).seen.journal ≡ false) }
    ensures lens { OnOk result (SameLengths (F.state files.old).seen (F.state files.new).seen) }
    ensures done { OnOk result (Known F.known (let old = (F.state files.old).seen in
        (F.state files.new).seen ≡ with_image old (copied (copying_in old.journal) old.image))) }
    ensures pending { OnOk result (Known F.known (IsPending number (F.state files.new))) }
    ensures stays { OnOk result (Known F.known
        (ComesFrom number (F.state files.old).seen (F.state files.new).seen)) }
    ensures any_moment { Known F.known (LeavesOnly (F.state files.old) (F.state files.new)
        (ComesFrom number (F.state files.old).seen)) }
    ensures keeps { Carries KeepsDraft (F.state files.old) (F.state files.new) }
    ensures cause { HasCause F.known (F.state files.old) (F.state files.new) result }
{
    copy_image(files, head::copying(head), desk)?;
    files.sync_image()
}

// One of the gates, on the disk at `Ok`.
fn write_gate<F: Files>(files: &mut F, at: usize, gate: u8) -> Result<(), Fault>
    requires place { at ≤ length (F.state files.old).seen.journal }
    requires on_disk { Known F.known (IsOnDisk (F.state files.old)) }
    ensures written { OnOk result (Known F.known (let old = (F.state files.old).seen in
        (F.state files.new).seen ≡ with_journal old (put old.journal at (gate ∷ [])))) }
    ensures long { OnOk result (length (F.state files.new).seen.journal
        ≡ max (length (F.state files.old).seen.journal) (at + 1)) }
    ensures on_disk { OnOk result (Known F.known (IsOnDisk (F.state files.new))) }
    ensures carried { Carries (TearsJournal at 1) (F.state files.old) (F.state files.new) }
    ensures cause { HasCause F.known (F.state files.old) (F.state files.new) result }
{
    files.write_journal(at, &[gate])?;
    files.sync_journal()
}

// Notes that the copy is on the disk.
fn mark<F: Files>(files: &mut F, number: u64) -> Result<(), Fault>
    requires some { 1266 ≤ length (F.state files.old).seen.journal }
    requires pending { Known F.known (IsPending number (F.state files.old)) }
    requires done { Known F.known (let old = (F.state files.old).seen in
        copied (copying_in old.journal) old.image ≡ old.image) }
    ensures lens { OnOk result (SameLengths (F.state files.old).seen (F.state files.new).seen) }
    ensures marked { OnOk result (Known F.known (let old = (F.state files.old).seen in
        (F.state files.new).seen ≡ with_journal old (put old.journal 1 (1 ∷ [])))) }
    ensures pending { OnOk result (Known F.known (IsPending number (F.state files.new))) }
    ensures stays { OnOk result (Known F.known
        (ComesFrom number (F.state files.old).seen (F.state files.new).seen)) }
    ensures any_moment { Known F.known (LeavesOnly (F.state files.old) (F.state files.new)
        (ComesFrom number (F.state files.old).seen)) }
    ensures keeps { Carries KeepsDraft (F.state files.old) (F.state files.new) }
    ensures cause { HasCause F.known (F.state files.old) (F.state files.new) result }
{
    write_gate(files, 1, 1)
}

// Carries out the steps.
fn carry_out<F: Files>(
    files: &mut F,
    number: u64,
    head: &[u8],
    desk: &mut [u8],
) -> Result<(), Fault>
    requires room { 4096 ≤ length desk.old }
    requires head { length head.now ≡ 1266 }
    requires fits { let old = (F.state files.old).seen in
        HeadFits head.now (length old.journal) (length old.image) }
    requires pending { Known F.known (IsPending number (F.state files.old)) }
    requires same { Known F.known (steps_in head.now ≡ steps_in (F.state files.old).seen.journal) }
    requires copied { Known F.known (is_copied (F.state files.old).seen.journal ≡ true) }
    ensures lens { OnOk result (SameLengths (F.state files.old).seen (F.state files.new).seen) }
    ensures done { OnOk result (Known F.known (let old = (F.state files.old).seen in
        (F.state files.new).seen ≡ with_image old (after (writes_in old.journal) old.image))) }
    ensures pending { OnOk result (Known F.known (IsPending number (F.state files.new))) }
    ensures stays { OnOk result (Known F.known
        (ComesFrom number (F.state files.old).seen (F.state files.new).seen)) }
    ensures any_moment { Known F.known (LeavesOnly (F.state files.old) (F.state files.new)
        (ComesFrom number (F.state files.old).seen)) }
    ensures keeps { Carries KeepsDraft (F.state files.old) (F.state files.new) }
    ensures cause { HasCause F.known (F.state files.old) (F.state files.new) result }
{
    apply(files, &head::steps(head), desk)?;
    files.sync_image()
}

// Puts the record in its place, where one goes with the edit.
fn put_record<F: Files>(
    files: &mut F,
    number: u64,
    head: &[u8],
    desk: &mut [u8],
) -> Result<(), Fault>
    requires room { 4096 ≤ length desk.old }
    requires head { length head.now ≡ 1266 }
    requires fits { let old = (F.state files.old).seen in
        HeadFits head.now (length old.journal) (length old.image) }
    requires pending { Known F.known (IsPending number (F.state files.old)) }
    requires same { Known F.known (record_count head.now ≡ record_count (F.state files.old).seen.journal) }
    requires copied { Known F.known (is_copied (F.state files.old).seen.journal ≡ true) }
    requires done { Known F.known (let old = (F.state files.old).seen in
        after (writes_in old.journal) old.image ≡ old.image) }
    ensures lens { OnOk result (SameLengths (F.state files.old).seen (F.state files.new).seen) }
    ensures done { OnOk result (Known F.known (let old = (F.state files.old).seen in
        (F.state files.new).seen ≡ with_record old (record_after old.journal old.record_text))) }
    ensures pending { OnOk result (Known F.known (IsPending number (F.state files.new))) }
    ensures stays { OnOk result (Known F.known
        (ComesFrom number (F.state files.old).seen (F.state files.new).seen)) }
    ensures any_moment { Known F.known (LeavesOnly (F.state files.old) (F.state files.new)
        (ComesFrom number (F.state files.old).seen)) }
    ensures keeps { Carries KeepsDraft (F.state files.old) (F.state files.new) }
    ensures cause { HasCause F.known (F.state files.old) (F.state files.new) result }
{
    let count = head::record_count(head);
    if count == 0 {
        return Ok(());
    }
    let text = &mut desk[..count - 1];
    files.read_journal(HEAD, text)?;
    files.put_record(text)
}

// Closes the gate, once what stands behind it has been done.
fn close<F: Files>(files: &mut F, number: u64) -> Result<(), Fault>
    requires some { 1266 ≤ length (F.state files.old).seen.journal }
    requires pending { Known F.known (IsPending number (F.state files.old)) }
    requires done { Known F.known (let old = (F.state files.old).seen in
        recovered number old ≡ kept_of old) }
    ensures kept { OnOk result (Known F.known
        (kept_of (F.state files.new).seen ≡ kept_of (F.state files.old).seen)) }
    ensures settled { OnOk result (Known F.known (IsSettled (F.state files.new))) }
    ensures some { OnOk result (0 < length (F.state files.new).seen.journal) }
    ensures any_moment { Known F.known (LeavesOnly (F.state files.old) (F.state files.new)
        (EndsAs number (F.state files.old).seen)) }
    ensures keeps { Carries KeepsDraft (F.state files.old) (F.state files.new) }
    ensures cause { HasCause F.known (F.state files.old) (F.state files.new) result }
{
    write_gate(files, 0, 0)
}

// The copy, unless it is on the disk already.
fn bring_once<F: Files>(
    files: &mut F,
    number: u64,
    head: &[u8],
    desk: &mut [u8],
) -> Result<(), Fault>
    requires room { 4096 ≤ length desk.old }
    requires head { length head.now ≡ 1266 }
    requires fits { let old = (F.state files.old).seen in
        HeadFits head.now (length old.journal) (length old.image) }
    requires pending { Known F.known (IsPending number (F.state files.old)) }
    requires same { Known F.known (head.now ≡ take 1266 (F.state files.old).seen.journal) }
    ensures lens { OnOk result (SameLengths (F.state files.old).seen (F.state files.new).seen) }
    ensures rest { OnOk result (Known F.known (let new = (F.state files.new).seen in
        (steps_in head.now ≡ steps_in new.journal) × (record_count head.now ≡ record_count new.journal))) }
    ensures record_text { OnOk result (Known F.known
        ((F.state files.new).seen.record_text ≡ (F.state files.old).seen.record_text)) }
    ensures copied { OnOk result (Known F.known (is_copied (F.state files.new).seen.journal ≡ true)) }
    ensures pending { OnOk result (Known F.known (IsPending number (F.state files.new))) }
    ensures stays { OnOk result (Known F.known
        (ComesFrom number (F.state files.old).seen (F.state files.new).seen)) }
    ensures any_moment { Known F.known (LeavesOnly (F.state files.old) (F.state files.new)
        (ComesFrom number (F.state files.old).seen)) }
    ensures keeps { Carries KeepsDraft (F.state files.old) (F.state files.new) }
    ensures cause { HasCause F.known (F.state files.old) (F.state files.new) result }
{
    if head[1] == 1 {
        return Ok(());
    }
    copy_over(files, number, head, desk)?;
    mark(files, number)
}

// All that the journal says, and its gate closed.
fn finish<F: Files>(files: &mut F, number: u64, head: &[u8], desk: &mut [u8]) -> Result<(), Fault>
    requires room { 4096 ≤ length desk.old }
    requires head { length head.now ≡ 1266 }
    requires fits { let old = (F.state files.old).seen in
        HeadFits head.now (length old.journal) (length old.image) }
    requires pending { Known F.known (IsPending number (F.state files.old)) }
    requires same { Known F.known (head.now ≡ take 1266 (F.state files.old).seen.journal) }
    ensures done { OnOk result (Known F.known
        (kept_of (F.state files.new).seen ≡ recovered number (F.state files.old).seen)) }
    ensures settled { OnOk result (Known F.known (IsSettled (F.state files.new))) }
    ensures some { OnOk result (0 < length (F.state files.new).seen.journal) }
    ensures any_moment { Known F.known (LeavesOnly (F.state files.old) (F.state files.new)
        (ComesFrom number (F.state files.old).seen)) }
    ensures keeps { Carries KeepsDraft (F.state files.old) (F.state files.new) }
    ensures cause { HasCause F.known (F.state files.old) (F.state files.new) result }
{
    bring_once(files, number, head, desk)?;
    carry_out(files, number, head, desk)?;
    put_record(files, number, head, desk)?;
    close(files, number)
}

// A journal with a gate and nothing to finish. One that is torn before it has a head counts as closed, and is closed.
fn keep_closed<F: Files>(files: &mut F, gate: u8) -> Result<(), Fault>
    requires on_disk { Known F.known (IsOnDisk (F.state files.old)) }
    requires closed { Known F.known (is_open (F.state files.old).seen.journal ≡ false) }
    requires gate { Known F.known (let old = (F.state files.old).seen in
        0 < length old.journal → slice_index old.journal 0 ≡ gate) }
    ensures done { OnOk result (Known F.known ((number : ℕ) →
        kept_of (F.state files.new).seen ≡ recovered number (F.state files.old).seen)) }
    ensures settled { OnOk result (Known F.known (IsSettled (F.state files.new))) }
    ensures some { OnOk result (0 < length (F.state files.new).seen.journal) }
    ensures any_moment { Known F.known ((number : ℕ) → LeavesOnly (F.state files.old) (F.state files.new)
        (ComesFrom number (F.state files.old).seen)) }
    ensures keeps { Carries KeepsDraft (F.state files.old) (F.state files.new) }
    ensures cause { HasCause F.known (F.state files.old) (F.state files.new) result }
{
    if files.journal_len() > 0 && gate != 1 {
        return Ok(());
    }
    write_gate(files, 0, 0)
}

// The head of the journal, or as much of it as there is, and whether the gate is open.
fn read_head<F: Files>(files: &mut F, head: &mut [u8]) -> Result<bool, Fault>
    requires { length head.old ≡ 1266 }
    ensures gate_open { IfOk result (λ gate_open. Known F.known
        (gate_open ≡ is_open (F.state files.old).seen.journal)) }
    ensures gate { OnOk result (Known F.known (let journal = (F.state files.old).seen.journal in
        0 < length journal → slice_index journal 0 ≡ slice_index head.new 0)) }
    ensures whole { OnOk result (Known F.known (let journal = (F.state files.old).seen.journal in
        1266 ≤ length journal → head.new ≡ take 1266 journal)) }
    ensures looks { Looks (F.state files.old) (F.state files.new) }
    ensures cause { HasCause F.known (F.state files.old) (F.state files.new) result }
{
    let told = files.journal_len().min(HEAD);
    files.read_journal(0, &mut head[..told])?;
    Ok(told == HEAD && head[0] == 1)
}

// Whether the journal with this head, which is whole, can be carried out on the image.
fn is_ours<F: Files>(files: &mut F, number: u64, head: &[u8]) -> Result<bool, Fault>
    requires whole { Known F.known (is_whole (F.state files.old).seen.journal ≡ true) }
    requires head { length head.now ≡ 1266 }
    requires same { Known F.known (head.now ≡ take 1266 (F.state files.old).seen.journal) }
    ensures ours { IfOk result (λ ours. Known F.known (let old = (F.state files.old).seen in
        ours ≡ applies old.journal number old.image)) }
    ensures fits { IfOk result (λ ours. IsTrue ours → let old = (F.state files.old).seen in
        HeadFits head.now (length old.journal) (length old.image)) }
    ensures looks { Looks (F.state files.old) (F.state files.new) }
    ensures cause { HasCause F.known (F.state files.old) (F.state files.new) result }
{
    let mut header = [0; HEADER];
    let image_len = files.image_len();
    let shown = &mut header[..image_len.min(HEADER)];
    files.read_image(0, shown)?;
    Ok(head::applies(head, files.journal_len(), number, shown, image_len))
}

// What is in the journal finished, where all that is read is on the disk, and an open journal is whole.
fn recover<F: Files>(files: &mut F, number: u64, desk: &mut [u8]) -> Result<Found, Fault>
    requires room { 4096 ≤ length desk.old }
    requires whole { Known F.known (let journal = (F.state files.old).seen.journal in
        is_open journal ≡ true → is_whole journal ≡ true) }
    requires on_disk { Known F.known (IsOnDisk (F.state files.old)) }
    ensures found { IfOk result (λ found. Known F.known
        (found ≡ found_in number (F.state files.old).seen)) }
    ensures done { OnOk result (Known F.known
        (kept_of (F.state files.new).seen ≡ recovered number (F.state files.old).seen)) }
    ensures settled { IfOk result (λ found. found ≢ Another → Known F.known (IsSettled (F.state files.new))) }
    ensures some { IfOk result (λ found. found ≢ Another → 0 < length (F.state files.new).seen.journal) }
    ensures another { IfOk result (λ found. found ≡ Another → (F.state files.new).seen ≡ (F.state files.old).seen) }
    ensures any_moment { Known F.known (LeavesOnly (F.state files.old) (F.state files.new)
        (ComesFrom number (F.state files.old).seen)) }
    ensures keeps { Carries KeepsDraft (F.state files.old) (F.state files.new) }
    ensures cause { HasCause F.known (F.state files.old) (F.state files.new) result }
{
    let mut head = [0; HEAD];
    if !read_head(files, &mut head)? {
        keep_closed(files, head[0])?;
        return Ok(Found::Nothing);
    }
    if !is_ours(files, number, &head)? {
        return Ok(Found::Another);
    }
    finish(files, number, &head, desk)?;
    Ok(Found::Finished)
}

// Whether the journal is closed, or all of it is as it was noted.
fn is_sound<F: Files>(files: &mut F, desk: &mut [u8]) -> Result<bool, Fault>
    requires room { 4096 ≤ length desk.old }
    ensures sound { IfOk result (λ sound. Known F.known (let journal = (F.state files.old).seen.journal in
        sound ≡ (not (is_open journal) || is_whole journal))) }
    ensures looks { Looks (F.state files.old) (F.state files.new) }
    ensures cause { HasCause F.known (F.state files.old) (F.state files.new) result }
{
    let mut head = [0; HEAD];
    if !read_head(files, &mut head)? {
        return Ok(true);
    }
    sum::is_whole(files, &head, desk)
}

/// Finishes the edit that the journal holds, if it holds one, and leaves the journal closed. It may crash too, at any
/// moment, and the next one makes of what is left then what this one would have made. It begins with a sync of each
/// file: after a process that ended alone, the disk may have less than a read returns.
pub fn resume<F: Files>(files: &mut F, number: u64, desk: &mut [u8]) -> Result<Found, Fault>
    requires room { 4096 ≤ length desk.old }
    ensures found { IfOk result (λ found. Known F.known
        (found ≡ found_in number (F.state files.old).seen)) }
    ensures done { OnOk result (Known F.known
        (kept_of (F.state files.new).seen ≡ recovered number (F.state files.old).seen)) }
    ensures settled { IfOk result (λ found. found ≢ Another → Known F.known (IsSettled (F.state files.new))) }
    ensures some { IfOk result (λ found. found ≢ Another → 0 < length (F.state files.new).seen.journal) }
    ensures another { IfOk result (λ found. found ≡ Another → (F.state files.new).seen ≡ (F.state files.old).seen) }
    ensures any_moment { Known F.known (LeavesOnly (F.state files.old) (F.state files.new)
        (IsStillRecovered number (F.state files.old))) }
    ensures cause { HasCause F.known (F.state files.old) (F.state files.new) result }
{
    files.sync_image()?;
    files.sync_journal()?;
    files.sync_record()?;
    if !is_sound(files, desk)? {
        return Ok(Found::Another);
    }
    recover(files, number, desk)
}

/// Opens the gate before what stands behind it, and has it finished.
pub fn commit<F: Files>(files: &mut F, number: u64, desk: &mut [u8]) -> Result<Found, Fault>
    requires room { 4096 ≤ length desk.old }
    requires settled { Known F.known (IsSettled (F.state files.old)) }
    requires ready { Known F.known (will_apply number (F.state files.old).seen ≡ true) }
    ensures found { IfOk result (λ found. Known F.known (found ≡ Finished)) }
    ensures done { OnOk result (Known F.known
        (kept_of (F.state files.new).seen ≡ finished (opened_disk (F.state files.old).seen))) }
    ensures settled { OnOk result (Known F.known (IsSettled (F.state files.new))) }
    ensures some { OnOk result (0 < length (F.state files.new).seen.journal) }
    ensures any_moment { Known F.known (LeavesOnly (F.state files.old) (F.state files.new)
        (IsBeforeOrAfter number (kept_of (F.state files.old).seen) (finished (opened_disk (F.state files.old).seen)))) }
    ensures keeps { Carries KeepsDraft (F.state files.old) (F.state files.new) }
    ensures cause { HasCause F.known (F.state files.old) (F.state files.new) result }
{
    write_gate(files, 0, 1)?;
    recover(files, number, desk)
}
