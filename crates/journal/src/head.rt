// The head of a journal: what an edit copies and writes, and whose it is.
ghost use Rattle.std.specs.Prelude.{◌≡◌, ◌+◌, ◌-◌, ◌≤◌, ◌<◌, ◌&&◌, nat_le, false, List, ℕ, length, take, IsTrue};
ghost use Rattle.std.specs.Prelude.{IfSome, IfNone};
ghost use Rattle.journal.specs.Journal as journal_of;
ghost use Rattle.journal.specs.Journal.{number_at, copying_in, step_in, steps_in};
ghost use Rattle.journal.specs.Inner.Head.{HeadFits};

use crate::plan::{Copying, Step};

/// How many bytes the head of a journal has.
pub const HEAD: usize = 1266;

/// How many bytes the header of an image has.
pub const HEADER: usize = 0x440;

/// No record has more bytes.
pub const MOST_RECORD: usize = 0x1000;

/// The number in the 8 bytes at `at`.
pub fn number(head: &[u8], at: usize) -> usize
    requires { at + 8 ≤ length head.now }
    ensures { result ≡ number_at head.now at }
{
    (endian::read_u32(head, at) as usize) * 0x1_0000_0000 + endian::read_u32(head, at + 4) as usize
}

pub fn copying(head: &[u8]) -> Copying
    requires { length head.now ≡ 1266 }
    ensures { result ≡ copying_in head.now }
{
    Copying {
        from: number(head, 34),
        to: number(head, 42),
        len: number(head, 50),
    }
}

fn step(head: &[u8], k: usize) -> Step
    requires head { length head.now ≡ 1266 }
    requires few { k < 5 }
    ensures { result ≡ step_in head.now k }
{
    Step {
        at: number(head, 58 + 24 * k),
        len: number(head, 66 + 24 * k),
        from: number(head, 74 + 24 * k),
    }
}

pub fn steps(head: &[u8]) -> [Step; 5]
    requires { length head.now ≡ 1266 }
    ensures { result ≡ steps_in head.now }
{
    [
        step(head, 0),
        step(head, 1),
        step(head, 2),
        step(head, 3),
        step(head, 4),
    ]
}

/// Where what is noted ends, if the sum behind it lies in a journal of that length.
pub fn noted_end(head: &[u8], journal_len: usize) -> Option<usize>
    requires { length head.now ≡ 1266 }
    ensures inside { IfSome result (λ end.
        (end ≡ journal_of.noted_end head.now) × (1266 ≤ end) × (end + 8 ≤ journal_len)) }
    ensures outside { IfNone result (let end = journal_of.noted_end head.now in
        (nat_le 1266 end && nat_le (end + 8) journal_len) ≡ false) }
{
    let clip = step(head, 0);
    let end = clip.from.checked_add(clip.len)?;
    let after = end.checked_add(8)?;
    if end < HEAD || after > journal_len {
        return None;
    }
    Some(end)
}

/// One more than the bytes of the record that goes with the edit; 0 where none does.
pub fn record_count(head: &[u8]) -> usize
    requires { length head.now ≡ 1266 }
    ensures { result ≡ journal_of.record_count head.now }
{
    number(head, 18)
}

fn can_write(image_len: usize, at: usize, len: usize) -> bool
    ensures { result ≡ journal_of.can_write image_len at len }
{
    let Some(end) = at.checked_add(len) else {
        return false;
    };
    end <= image_len && (at >= HEADER || (at >= 0x428 && end <= 0x430))
}

pub fn copying_fits(image_len: usize, copy: Copying) -> bool
    ensures { result ≡ journal_of.copying_fits image_len copy }
{
    if copy.len == 0 {
        return true;
    }
    if !can_write(image_len, copy.to, copy.len) {
        return false;
    }
    let Some(end) = copy.from.checked_add(copy.len) else {
        return false;
    };
    end <= image_len && (end <= copy.to || copy.to + copy.len <= copy.from)
}

fn has_source(journal_len: usize, step: Step) -> bool
    ensures { (journal : List ℕ) → length journal ≡ journal_len →
        result ≡ journal_of.has_source journal step }
{
    if step.from == 0 {
        return true;
    }
    let Some(end) = step.from.checked_add(step.len) else {
        return false;
    };
    step.from >= HEAD && end <= journal_len
}

fn step_fits(journal_len: usize, image_len: usize, step: Step) -> bool
    ensures { (journal : List ℕ) → length journal ≡ journal_len →
        result ≡ journal_of.step_fits journal image_len step }
{
    step.len == 0 || (can_write(image_len, step.at, step.len) && has_source(journal_len, step))
}

fn steps_fit(journal_len: usize, image_len: usize, steps: &[Step]) -> bool
    ensures { (journal : List ℕ) → length journal ≡ journal_len →
        result ≡ journal_of.steps_fit journal image_len steps.now }
{
    for step in steps {
        if !step_fits(journal_len, image_len, *step) {
            return false;
        }
    }
    true
}

fn record_fits(journal_len: usize, count: usize) -> bool
    ensures { result ≡ (nat_le count (journal_of.most_record + 1)
        && nat_le (journal_of.head_len + (count - 1)) journal_len) }
{
    count <= MOST_RECORD + 1 && HEAD + count.saturating_sub(1) <= journal_len
}

// Whether the journal is that of the image which begins with this header, in the file of that number.
fn is_owner(head: &[u8], number: u64, header: &[u8], image_len: usize) -> bool
    requires { length head.now ≡ 1266 }
    ensures { (image : List ℕ) → length image ≡ image_len → header.now ≡ take 0x440 image →
        result ≡ journal_of.is_owner head.now number image }
{
    if header.len() < HEADER {
        return false;
    }
    self::number(head, 2) == image_len
        && self::number(head, 10) == number as usize
        && endian::same(header, 0, head, 178, 0x428)
        && endian::same(header, 0x430, head, 1250, 0x10)
}

/// Whether a journal of that length, which begins with this head, can be carried out on an image of that length, which
/// begins with this header, in the file of that number, if it is whole.
pub fn applies(
    head: &[u8],
    journal_len: usize,
    number: u64,
    header: &[u8],
    image_len: usize,
) -> bool
    requires { length head.now ≡ 1266 }
    ensures same { (journal image : List ℕ) →
        length journal ≡ journal_len → head.now ≡ take 1266 journal →
        length image ≡ image_len → header.now ≡ take 0x440 image →
        result ≡ journal_of.head_applies journal number image }
    ensures fits { IsTrue result → HeadFits head.now journal_len image_len }
{
    is_owner(head, number, header, image_len)
        && copying_fits(image_len, copying(head))
        && steps_fit(journal_len, image_len, &steps(head))
        && record_fits(journal_len, record_count(head))
}
