// An edit and recoveries with files in memory, and each crash of them.
ghost use Rattle.std.specs.Prelude.{◌≡◌, [], ◌∷◌, length, take};
ghost use Rattle.journal.specs.Draft.{DraftFits};

use crate::Contents;
use crate::left::{Left, NUMBER, Trial, has, resumed};
use crate::memory::{Memory, copy};
use journal::{Bytes, Copying, Draft, Found, HEADER, Span, Stopped, edit, resume};
use std::alloc::Global;
use std::process::Abort;

const OLD_RECORD: &[u8] = b"before";

const NEW_RECORD: &[u8] = b"counter record after";

const CLIP: &[u8] = b"abc";

const TABLE: &[u8] = &[1, 2, 3, 4, 5];

const WORD: &[u8] = &[0, 0, 0, 5, 0, 0, 0, 8];

const NOTE: &[u8] = b"line 3";

// What stands behind the gates, up to the header: the image's length and its file's number, one more than the bytes of
// the record, the bytes of the note; the copy; then the clip, the table, its tail, the word and what is lost, each with
// where it goes, its bytes, and where they stand.
const NUMBERS: &[u8] = b"\
    \x00\x00\x00\x00\x00\x00\x05\x00\x01\x02\x03\x04\x05\x06\x07\x08\
    \x00\x00\x00\x00\x00\x00\x00\x15\x00\x00\x00\x00\x00\x00\x00\x06\
    \x00\x00\x00\x00\x00\x00\x04\x40\x00\x00\x00\x00\x00\x00\x04\xa0\x00\x00\x00\x00\x00\x00\x00\x10\
    \x00\x00\x00\x00\x00\x00\x04\xf0\x00\x00\x00\x00\x00\x00\x00\x03\x00\x00\x00\x00\x00\x00\x05\x19\
    \x00\x00\x00\x00\x00\x00\x04\x80\x00\x00\x00\x00\x00\x00\x00\x05\x00\x00\x00\x00\x00\x00\x05\x14\
    \x00\x00\x00\x00\x00\x00\x04\x85\x00\x00\x00\x00\x00\x00\x00\x03\x00\x00\x00\x00\x00\x00\x00\x00\
    \x00\x00\x00\x00\x00\x00\x04\x28\x00\x00\x00\x00\x00\x00\x00\x08\x00\x00\x00\x00\x00\x00\x05\x0c\
    \x00\x00\x00\x00\x00\x00\x04\x40\x00\x00\x00\x00\x00\x00\x00\x10\x00\x00\x00\x00\x00\x00\x00\x00";

// The record, the note, the word, the table, the clip.
const PARTS: &[u8] = b"counter record after\
    line 3\
    \x00\x00\x00\x05\x00\x00\x00\x08\
    \x01\x02\x03\x04\x05\
    abc";

// The sum of numbers, header and parts.
const SUM: &[u8] = b"\x65\x01\x9b\x57\xc8\x9a\xcb\x22";

fn joined(rt: &impl Abort, alloc: Global, parts: &[&[u8]]) -> Vec<u8> {
    let mut joined = Vec::new(alloc);
    for part in parts {
        joined.extend_from_slice(part).expect(rt, "memory");
    }
    joined
}

// The same of a journal, with the sum of all behind the gates.
fn summed(rt: &impl Abort, alloc: Global, parts: &[&[u8]]) -> Vec<u8> {
    let mut journal = joined(rt, alloc, parts);
    let mut sum = 0u64;
    for byte in journal.iter().skip(2) {
        sum = sum
            .wrapping_mul(0x9e37_79b9_7f4a_7c15)
            .wrapping_add(*byte as u64 + 1);
    }
    journal
        .extend_from_slice(&sum.to_be_bytes())
        .expect(rt, "memory");
    journal
}

// An image of 1280 bytes, a closed journal, and a record.
fn before(rt: &impl Abort, alloc: Global) -> Contents
    ensures image { length result.image.items ≡ 1280 }
    ensures journal { result.journal.items ≡ 0 ∷ [] }
{
    let mut image = vec![in alloc; 0u8; 1280].expect(rt, "memory");
    for i in 0..image.len() {
        image[i] = (i % 251) as u8;
    }
    Contents {
        image,
        journal: copy(rt, alloc, &[0]),
        record_text: copy(rt, alloc, OLD_RECORD),
    }
}

fn header(image: &[u8]) -> &[u8]
    requires { length image.now ≡ 1280 }
    ensures bytes { result.now ≡ take 0x440 image.now }
    ensures long { length result.now ≡ 0x440 }
{
    &image[..HEADER]
}

// What each edit of these tests makes of it, but for the copy and the record.
fn written_over(rt: &impl Abort, alloc: Global, image: &[u8]) -> Vec<u8>
    requires { length image.now ≡ 1280 }
{
    let mut image = copy(rt, alloc, image);
    image[0x4f0..0x4f3].copy_from_slice(CLIP);
    image[0x480..0x485].copy_from_slice(TABLE);
    image[0x485..0x488].fill(0);
    image[0x428..0x430].copy_from_slice(WORD);
    image[0x440..0x450].fill(0);
    image
}

fn with_copy(rt: &impl Abort, alloc: Global, image: &[u8]) -> Vec<u8>
    requires { length image.now ≡ 1280 }
    ensures { length result.items ≡ 1280 }
{
    let mut copied = copy(rt, alloc, image);
    copied[0x4a0..0x4b0].copy_from_slice(&image[0x440..0x450]);
    copied
}

// Image and record after the move.
fn moved(rt: &impl Abort, alloc: Global, before: &Contents) -> Contents
    requires { length before.now.image.items ≡ 1280 }
{
    Contents {
        image: written_over(rt, alloc, &with_copy(rt, alloc, &before.image)),
        journal: Vec::new(alloc),
        record_text: copy(rt, alloc, NEW_RECORD),
    }
}

// Bytes are moved, others are written in their place, and a record goes with it.
fn move_draft(header: &[u8]) -> Draft<'_>
    requires { length header.now ≡ 0x440 }
    ensures fits { DraftFits result 1280 3 }
    ensures header { result.header.now ≡ header.now }
{
    Draft {
        image_len: 1280,
        number: NUMBER,
        header,
        copy: Copying {
            from: 0x440,
            to: 0x4a0,
            len: 0x10,
        },
        clip: Span { at: 0x4f0, len: 3 },
        table: Bytes {
            at: 0x480,
            bytes: TABLE,
        },
        tail: Span { at: 0x485, len: 3 },
        word: Bytes {
            at: 0x428,
            bytes: WORD,
        },
        lost: Span {
            at: 0x440,
            len: 0x10,
        },
        has_record: true,
        record_text: NEW_RECORD,
        note: NOTE,
    }
}

// The same without a copy, a record and a note.
fn plain_draft(header: &[u8]) -> Draft<'_>
    requires { length header.now ≡ 0x440 }
    ensures fits { DraftFits result 1280 3 }
    ensures header { result.header.now ≡ header.now }
{
    Draft {
        copy: Copying {
            from: 0,
            to: 0,
            len: 0,
        },
        has_record: false,
        note: &[],
        ..move_draft(header)
    }
}

// The edit, of which the call after so many fails.
fn edited<'a, R: Abort>(
    rt: &'a R,
    alloc: Global,
    before: &Contents,
    draft: &Draft<'_>,
    calls_left: usize,
) -> (Memory<'a, R>, Result<Found, Stopped>)
    requires fits { DraftFits draft.now (length before.now.image.items) 3 }
    requires header { draft.now.header.now ≡ take 0x440 before.now.image.items }
    requires closed { before.now.journal.items ≡ 0 ∷ [] }
{
    let mut files = Memory::new(rt, alloc, before, CLIP, calls_left);
    let mut desk = [0; 4096];
    let done = edit(&mut files, draft, &mut desk);
    (files, done)
}

// The edit, each crash of it, and each call of it failing. The journal that it leaves.
fn try_edit(
    rt: &impl Abort,
    alloc: Global,
    before: &Contents,
    draft: &Draft<'_>,
    after: &Contents,
) -> Vec<u8>
    requires fits { DraftFits draft.now (length before.now.image.items) 3 }
    requires header { draft.now.header.now ≡ take 0x440 before.now.image.items }
    requires closed { before.now.journal.items ≡ 0 ∷ [] }
{
    let mut trial = Trial {
        before,
        after,
        made_before: 0,
        made_after: 0,
    };
    for calls_left in 0..1000 {
        let (mut files, done) = edited(rt, alloc, before, draft, calls_left);
        match done {
            Ok(found) => {
                assert_eq!(rt; found, Found::Finished);
                assert!(rt; has(&files.seen, after), "the edit is made");
                trial.recover_all(&files);
                assert!(rt;
                    trial.made_before > 0 && trial.made_after > 0,
                    "there are both"
                );
                return copy(rt, alloc, &files.seen.journal);
            }
            Err(stopped) => {
                let left = Left::behind(&files);
                let made_after = trial.made_after;
                trial.recover_each(rt, alloc, &left);
                assert!(rt;
                    stopped.begun || trial.made_after == made_after,
                    "nothing is begun"
                );
                let mut desk = [0; 4096];
                resume(&mut files, NUMBER, &mut desk).expect(rt, "no other call fails");
                assert!(rt;
                    has(&files.seen, before) || has(&files.seen, after),
                    "all or nothing"
                );
            }
        }
    }
    panic!(rt; "a call fails each time");
}

#[test]
fn a_move_with_a_record(rt: HostRuntime) {
    let alloc = rt.alloc();
    let before = before(&rt, alloc);
    let header = header(&before.image);
    let after = moved(&rt, alloc, &before);
    let journal = try_edit(&rt, alloc, &before, &move_draft(header), &after);
    assert_eq!(rt;
        journal,
        joined(&rt, alloc, &[&[0, 1], NUMBERS, header, PARTS, SUM])
    );
}

#[test]
fn no_copy_and_no_record(rt: HostRuntime) {
    let alloc = rt.alloc();
    let before = before(&rt, alloc);
    let header = header(&before.image);
    let after = Contents {
        image: written_over(&rt, alloc, &before.image),
        journal: Vec::new(alloc),
        record_text: copy(&rt, alloc, OLD_RECORD),
    };
    try_edit(&rt, alloc, &before, &plain_draft(header), &after);
}

// A crash of the recovery, too, leaves what is made the image after the edit.
fn assert_finished(rt: &impl Abort, alloc: Global, crashed: &Contents, after: &Contents) {
    let (found, files) = resumed(rt, alloc, crashed, NUMBER);
    assert_eq!(rt; found, Found::Finished);
    let mut trial = Trial {
        before: crashed,
        after,
        made_before: 0,
        made_after: 0,
    };
    trial.recover_all(&files);
    assert_eq!(rt; trial.made_before, 0);
}

#[test]
fn a_cut_edit_is_finished(rt: HostRuntime) {
    let alloc = rt.alloc();
    let before = before(&rt, alloc);
    let header = header(&before.image);
    let after = moved(&rt, alloc, &before);

    // behind its gate, where the copy may be torn
    let mut copying = copy(&rt, alloc, &before.image);
    copying[0x4a0..0x4a8].fill(9);
    let crashed = Contents {
        image: copying,
        journal: summed(&rt, alloc, &[&[1, 0], NUMBERS, header, PARTS]),
        record_text: copy(&rt, alloc, OLD_RECORD),
    };
    assert_finished(&rt, alloc, &crashed, &after);

    // behind its second gate, where what was copied is zeros already
    let mut writing = with_copy(&rt, alloc, &before.image);
    writing[0x428..0x42c].fill(9);
    writing[0x440..0x450].fill(0);
    let crashed = Contents {
        image: writing,
        journal: summed(&rt, alloc, &[&[1, 1], NUMBERS, header, PARTS]),
        record_text: copy(&rt, alloc, OLD_RECORD),
    };
    assert_finished(&rt, alloc, &crashed, &after);
}

#[test]
fn a_closed_journal_is_nothing(rt: HostRuntime) {
    let alloc = rt.alloc();
    let before = before(&rt, alloc);
    let header = header(&before.image);
    let closed = summed(&rt, alloc, &[&[0, 1], NUMBERS, header, PARTS]);
    let torn = summed(&rt, alloc, &[&[255, 1], NUMBERS, header, PARTS]);
    let short = joined(&rt, alloc, &[&[1, 1], NUMBERS, &header[1..]]);
    for journal in [&closed, &torn, &short, &Vec::new(alloc)] {
        let crashed = Contents {
            image: copy(&rt, alloc, &before.image),
            journal: copy(&rt, alloc, journal),
            record_text: copy(&rt, alloc, OLD_RECORD),
        };
        let (found, files) = resumed(&rt, alloc, &crashed, NUMBER);
        assert_eq!(rt; found, Found::Nothing);
        assert!(rt;
            has(&files.seen, &before),
            "image and record are as they were"
        );
        assert_ne!(rt; files.seen.journal.first(), Some(&1), "the gate is closed");
    }
}

fn assert_left_alone(rt: &impl Abort, alloc: Global, number: u64, image: &[u8], journal: &[u8]) {
    let crashed = Contents {
        image: copy(rt, alloc, image),
        journal: copy(rt, alloc, journal),
        record_text: copy(rt, alloc, OLD_RECORD),
    };
    let (found, files) = resumed(rt, alloc, &crashed, number);
    assert_eq!(rt; found, Found::Another);
    assert!(rt; has(&files.seen, &crashed) && files.seen.journal == crashed.journal);
    assert_eq!(rt; files.log.len(), 3, "three syncs and no write");
}

#[test]
fn another_journal_is_left_alone(rt: HostRuntime) {
    let alloc = rt.alloc();
    let before = before(&rt, alloc);
    let image = &before.image;
    let journal = summed(&rt, alloc, &[&[1, 0], NUMBERS, header(image), PARTS]);
    assert_left_alone(&rt, alloc, NUMBER + 1, image, &journal);
    assert_left_alone(
        &rt,
        alloc,
        NUMBER,
        &joined(&rt, alloc, &[image, &[0]]),
        &journal,
    );

    let mut other_header = copy(&rt, alloc, image);
    other_header[0x427] = 0;
    assert_left_alone(&rt, alloc, NUMBER, &other_header, &journal);

    // the table would go into the header
    let mut numbers = copy(&rt, alloc, NUMBERS);
    assert!(rt; numbers.len() > 86);
    numbers[86] = 0;
    let other_step = summed(&rt, alloc, &[&[1, 0], &numbers, header(image), PARTS]);
    assert_left_alone(&rt, alloc, NUMBER, image, &other_step);
}

#[test]
fn a_changed_byte_is_noticed(rt: HostRuntime) {
    let alloc = rt.alloc();
    let before = before(&rt, alloc);
    let image = &before.image;
    let journal = summed(&rt, alloc, &[&[1, 0], NUMBERS, header(image), PARTS]);
    for at in 2..journal.len() {
        for change in [1, 0x80, 0xff] {
            let mut changed = copy(&rt, alloc, &journal);
            assert!(rt; at < changed.len());
            changed[at] ^= change;
            assert_left_alone(&rt, alloc, NUMBER, image, &changed);
        }
    }
    let mut cut = copy(&rt, alloc, &journal);
    cut.pop();
    assert_left_alone(&rt, alloc, NUMBER, image, &cut);
}

#[test]
fn bytes_of_an_older_journal_do_not_count(rt: HostRuntime) {
    let alloc = rt.alloc();
    let before = before(&rt, alloc);
    let header = header(&before.image);
    let after = moved(&rt, alloc, &before);
    let journal = summed(&rt, alloc, &[&[1, 0], NUMBERS, header, PARTS]);
    let crashed = Contents {
        image: copy(&rt, alloc, &before.image),
        journal: joined(&rt, alloc, &[&journal, b"older"]),
        record_text: copy(&rt, alloc, OLD_RECORD),
    };
    assert_finished(&rt, alloc, &crashed, &after);
}
