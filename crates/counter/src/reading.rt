// The calls that read an image, or tell of it what opening refuses or a rewrite would write.
ghost use Rattle.std.specs.Prelude.{◌≡◌, length};
ghost use Rattle.disc.specs.Calls.{open_answer, totals_answer, record_answer, program_answer};
ghost use Rattle.disc.specs.Files.{entry_answer, lookup_answer, entries_answer, entries_list};
ghost use Rattle.edit.specs.TableAnew.{anew_answer, anew_buffer};
ghost use Rattle.opened.specs.Opening.{zeros};
ghost use Rattle.opened.specs.Faults.{fault_of};
ghost use Rattle.counter.specs.Replies.{reply, reply_of, disc_words, disc_totals_words, totals_words};
ghost use Rattle.counter.specs.Replies.{found_reply, program_reply, one_word, accepted_reply};
ghost use Rattle.counter.specs.Replies as replies;

use crate::answer::give;
use crate::slots;
use opened::{About, Fault, Owner};
use totals::TEAMS;
use tree::{Entry, Found};

// ---- an answer that two calls give

// Kept: four words, since what the last two mean goes by the second, which C reads as a number (C).
#[tactic(auto, unfolding(crate::specs::Replies::found_reply))]
fn give_found(answer: &mut [u32; 4], found: Found) -> u32
    ensures { reply result answer.new ≡ found_reply answer.old found }
{
    match found {
        Found::At(number, Entry::File(file)) => give(
            answer,
            Ok([number, 0, file.offset, file.size]),
        ),
        Found::At(number, Entry::Directory(directory)) => {
            give(answer, Ok([number, 1, directory.parent, directory.next]))
        }
        Found::Refused(cause) => give(answer, Err(cause)),
    }
}

// ---- what a refusal is about, in words

fn owner_number(owner: Owner) -> u32
    ensures { result ≡ replies.owner_number owner }
{
    match owner {
        Owner::Table => 0,
        Owner::Program => u32::MAX,
        Owner::Entry(number) => number,
    }
}

fn about_words(about: About) -> [u32; 3]
    ensures { result ≡ replies.about_words about }
{
    match about {
        About::Image => [0, 0, 0],
        About::Entry(number) => [1, number, 0],
        About::Shared(first, second) => [2, owner_number(first), owner_number(second)],
        About::PastEnd(owner) => [3, owner_number(owner), 0],
        About::Section(section) => [4, section, 0],
    }
}

fn fault_words(fault: Option<Fault>) -> [u32; 4]
    ensures { result ≡ replies.fault_words fault }
{
    match fault {
        None => [0; 4],
        Some(fault) => {
            let [kind, first, second] = about_words(fault.about);
            [fault.cause.into(), kind, first, second]
        }
    }
}

// ---- the calls

#[unsafe(no_mangle)]
pub extern "C" fn counter_open(image: &[u8], words: &mut [u32], answer: &mut [u32; 5]) -> u32
    ensures answer { reply result answer.new
        ≡ reply_of disc_words answer.old (open_answer image.now (length words.old)) }
    ensures words_zero { words.new ≡ zeros words.old }
{
    give(answer, disc::open(image, words).map(slots::disc_words))
}

#[unsafe(no_mangle)]
pub extern "C" fn counter_totals(image: &[u8], words: &mut [u32], answer: &mut [u32; 2]) -> u32
    ensures answer { reply result answer.new
        ≡ reply_of disc_totals_words answer.old (totals_answer image.now (length words.old)) }
    ensures words_zero { words.new ≡ zeros words.old }
{
    give(
        answer,
        disc::totals(image, words).map(slots::disc_totals_words),
    )
}

// A totals record of the image: used bytes, the largest free region's size, and teams of these
// limits and shares, in the order of their numbers, that have taken nothing.
#[unsafe(no_mangle)]
pub extern "C" fn counter_make_record(
    image: &[u8],
    words: &mut [u32],
    limits: &[u32; TEAMS],
    shares: &[u32; TEAMS],
    totals: &mut [u32; 66],
) -> u32
    ensures answer { reply result totals.new
        ≡ reply_of totals_words totals.old
        (record_answer image.now (length words.old) limits.now shares.now) }
    ensures words_zero { words.new ≡ zeros words.old }
{
    match disc::make_record(image, words, limits, shares) {
        Ok(record) => give(totals, Ok(slots::totals_words(&record))),
        Err(cause) => give(totals, Err(cause)),
    }
}

// Where the program lies; 0 and 0 where there is none.
// Kept: 0 and 0 for none, since the two slots of counter.h say so (C).
#[tactic(auto, unfolding(crate::specs::Replies::program_reply))]
#[unsafe(no_mangle)]
pub extern "C" fn counter_program(image: &[u8], words: &mut [u32], answer: &mut [u32; 2]) -> u32
    ensures answer { reply result answer.new
        ≡ program_reply answer.old (program_answer image.now (length words.old)) }
    ensures words_zero { words.new ≡ zeros words.old }
{
    match disc::program(image, words) {
        Ok(Some(region)) => give(answer, Ok(slots::region_words(region))),
        Ok(None) => give(answer, Ok([0, 0])),
        Err(cause) => give(answer, Err(cause)),
    }
}

#[unsafe(no_mangle)]
pub extern "C" fn counter_entry(
    image: &[u8],
    words: &mut [u32],
    number: u32,
    answer: &mut [u32; 4],
) -> u32
    ensures answer { reply result answer.new
        ≡ found_reply answer.old (entry_answer image.now (length words.old) number) }
    ensures words_zero { words.new ≡ zeros words.old }
{
    give_found(answer, disc::entry(image, words, number))
}

#[unsafe(no_mangle)]
pub extern "C" fn counter_lookup(
    image: &[u8],
    words: &mut [u32],
    start: u32,
    path: &[u8],
    answer: &mut [u32; 4],
) -> u32
    ensures answer { reply result answer.new
        ≡ found_reply answer.old (lookup_answer image.now (length words.old) start path.now) }
    ensures words_zero { words.new ≡ zeros words.old }
{
    give_found(answer, disc::lookup(image, words, start, path))
}

#[unsafe(no_mangle)]
pub extern "C" fn counter_entries(
    image: &[u8],
    words: &mut [u32],
    list: &mut [u32],
    answer: &mut [u32; 5],
) -> u32
    ensures answer { reply result answer.new
        ≡ reply_of disc_words answer.old
        (entries_answer image.now (length words.old) (length list.old)) }
    ensures list_after { list.new ≡ entries_list image.now (length words.old) list.old }
    ensures words_zero { words.new ≡ zeros words.old }
{
    give(
        answer,
        disc::entries(image, words, list).map(slots::disc_words),
    )
}

// The table that a rewrite would write; the image stays.
#[unsafe(no_mangle)]
pub extern "C" fn counter_table_anew(
    image: &[u8],
    words: &mut [u32],
    table: &mut [u8],
    answer: &mut u32,
) -> u32
    ensures answer { reply result (one_word answer.new)
        ≡ reply_of one_word (one_word answer.old)
        (anew_answer image.now (length words.old) (length table.old)) }
    ensures table_after { table.new ≡ anew_buffer image.now (length words.old) table.old }
    ensures words_zero { words.new ≡ zeros words.old }
{
    give(answer, edit::table_anew(image, words, table))
}

// What opening refuses the image for. It refuses nothing itself.
// Kept: four words, as for an entry (C).
#[unsafe(no_mangle)]
pub extern "C" fn counter_fault(image: &[u8], words: &mut [u32], answer: &mut [u32; 4]) -> u32
    ensures answer { reply result answer.new
        ≡ accepted_reply (replies.fault_words (fault_of image.now (length words.old))) }
    ensures words_zero { words.new ≡ zeros words.old }
{
    *answer = fault_words(disc::fault(image, words));
    0
}
