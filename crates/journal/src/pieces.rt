// Bytes brought to a place a piece at a time, through bytes that are lent.
ghost use Rattle.std.specs.Prelude.{◌≡◌, ◌+◌, ◌<◌, ◌≤◌, ◌^◌, true, length, replicate, OnOk};
ghost use Rattle.endian.specs.Bytes.{put, span};
ghost use Rattle.journal.specs.Disk.{Known, TearsImage, TearsJournal, HasCause, with_image, with_journal};
ghost use Rattle.journal.specs.Journal.{copying_fits, copied, write_of, step_fits};
ghost use Rattle.journal.specs.Inner.Carried.{Carries};

use crate::files::{Fault, Files};
use crate::plan::{Copying, Step};

/// The copy, which goes to a place apart.
pub fn copy_image<F: Files>(files: &mut F, copy: Copying, desk: &mut [u8]) -> Result<(), Fault>
    requires room { 0 < length desk.old }
    requires fits { copying_fits (length (F.state files.old).seen.image) copy ≡ true }
    ensures done { OnOk result (Known F.known ((F.state files.new).seen
        ≡ with_image (F.state files.old).seen (copied copy (F.state files.old).seen.image))) }
    ensures carried { Carries (TearsImage copy.to copy.len) (F.state files.old) (F.state files.new) }
    ensures cause { HasCause F.known (F.state files.old) (F.state files.new) result }
{
    // A place in a file fits in a number, as the file's length does.
    let _end = files.image_len();
    let mut done = 0;
    while done < copy.len {
        let n = desk.len().min(copy.len - done);
        let piece = &mut desk[..n];
        files.read_image(copy.from + done, piece)?;
        files.write_image(copy.to + done, piece)?;
        done += n;
    }
    Ok(())
}

// Bytes of the journal to the image.
fn bring<F: Files>(
    files: &mut F,
    from: usize,
    at: usize,
    len: usize,
    desk: &mut [u8],
) -> Result<(), Fault>
    requires room { 0 < length desk.old }
    requires source { from + len ≤ length (F.state files.old).seen.journal }
    requires place { at + len ≤ length (F.state files.old).seen.image }
    ensures done { OnOk result (Known F.known ((F.state files.new).seen
        ≡ with_image (F.state files.old).seen
        (put (F.state files.old).seen.image at (span (F.state files.old).seen.journal from len)))) }
    ensures carried { Carries (TearsImage at len) (F.state files.old) (F.state files.new) }
    ensures cause { HasCause F.known (F.state files.old) (F.state files.new) result }
{
    // As in `copy_image`, of both files.
    let _source_end = files.journal_len();
    let _end = files.image_len();
    let mut done = 0;
    while done < len {
        let n = desk.len().min(len - done);
        let piece = &mut desk[..n];
        files.read_journal(from + done, piece)?;
        files.write_image(at + done, piece)?;
        done += n;
    }
    Ok(())
}

// Zeros over a part of the image.
fn zero<F: Files>(files: &mut F, at: usize, len: usize, desk: &mut [u8]) -> Result<(), Fault>
    requires room { 0 < length desk.old }
    requires place { at + len ≤ length (F.state files.old).seen.image }
    ensures done { OnOk result (Known F.known ((F.state files.new).seen
        ≡ with_image (F.state files.old).seen
        (put (F.state files.old).seen.image at (replicate len 0)))) }
    ensures carried { Carries (TearsImage at len) (F.state files.old) (F.state files.new) }
    ensures cause { HasCause F.known (F.state files.old) (F.state files.new) result }
{
    // As in `copy_image`.
    let _end = files.image_len();
    let most = desk.len().min(len);
    let zeros = &mut desk[..most];
    zeros.fill(0);
    let mut done = 0;
    while done < len {
        let n = zeros.len().min(len - done);
        files.write_image(at + done, &zeros[..n])?;
        done += n;
    }
    Ok(())
}

/// What a step of the journal writes.
pub fn write_step<F: Files>(files: &mut F, step: Step, desk: &mut [u8]) -> Result<(), Fault>
    requires room { 0 < length desk.old }
    requires fits { let old = (F.state files.old).seen in
        step_fits old.journal (length old.image) step ≡ true }
    ensures done { OnOk result (Known F.known (let old = (F.state files.old).seen in
        (F.state files.new).seen
        ≡ with_image old (put old.image step.at (write_of old.journal step).bytes))) }
    ensures carried { Carries (TearsImage step.at step.len) (F.state files.old) (F.state files.new) }
    ensures cause { HasCause F.known (F.state files.old) (F.state files.new) result }
{
    // An empty step may lie anywhere.
    if step.len == 0 {
        return Ok(());
    }
    if step.from == 0 {
        zero(files, step.at, step.len, desk)
    } else {
        bring(files, step.from, step.at, step.len, desk)
    }
}

/// The clip into the journal, behind what stands there.
pub fn note_clip<F: Files>(
    files: &mut F,
    at: usize,
    len: usize,
    desk: &mut [u8],
) -> Result<(), Fault>
    requires room { 0 < length desk.old }
    requires place { at ≤ length (F.state files.old).seen.journal }
    requires small { at + len < 2 ^ 63 }
    requires clip { len ≡ length (F.state files.old).clip }
    ensures done { OnOk result (Known F.known ((F.state files.new).seen
        ≡ with_journal (F.state files.old).seen
        (put (F.state files.old).seen.journal at (F.state files.old).clip))) }
    ensures long { OnOk result (at + len ≤ length (F.state files.new).seen.journal) }
    ensures carried { Carries (TearsJournal at len) (F.state files.old) (F.state files.new) }
    ensures cause { HasCause F.known (F.state files.old) (F.state files.new) result }
{
    let mut done = 0;
    while done < len {
        let n = desk.len().min(len - done);
        let piece = &mut desk[..n];
        files.read_clip(done, piece)?;
        files.write_journal(at + done, piece)?;
        done += n;
    }
    Ok(())
}
