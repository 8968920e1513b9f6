// The texts of a table, unit by unit: bytes up to a zero byte, or up to the table's end.
ghost use Rattle.std.specs.Prelude.{◌≡◌, false, ◌+◌};
ghost use Rattle.tree.specs.Table as table_of;
ghost use Rattle.table.specs.Inner.Texts as texts_of;
ghost use Rattle.table.specs.Inner.Texts.{HasNoLead, CleanTo, is_nameless};

use crate::units::Units;
use crate::{name_tests, passing, units};

/// The text that starts at `at`, up to its zero byte or the table's end.
pub fn text_at(table: &[u8], at: usize) -> &[u8]
    ensures { result.now ≡ texts_of.text_at table.now at }
{
    let rest = &table[at.min(table.len())..];
    match rest.iter().position(|byte| *byte == 0) {
        Some(len) => &rest[..len],
        None => rest,
    }
}

// The bytes, 16 to a line: `c` for those that are clean. Opening has every byte of the texts passed, so each
// is looked up.
// Kept: of a fixed size (N): a byte has 256 values.
const CHART: [u8; 256] = *b"\
    c---------------\
    ----------------\
    ccccccccccccccc-\
    cccccccccc-ccccc\
    cccccccccccccccc\
    cccccccccccc-ccc\
    cccccccccccccccc\
    ccccccccccccccc-\
    ----------------\
    ----------------\
    -ccccccccccccccc\
    cccccccccccccccc\
    cccccccccccccccc\
    cccccccccccccccc\
    ----------------\
    ----------------\
    ";

// Passes clean bytes from `from` on, two at a time. Where it stops costs only time.
// Kept: two bytes a turn, by index (S): a `for` over one at a time took a fifth longer for a table of ASCII
// names of 40 bytes.
fn pass_clean(table: &[u8], from: usize) -> usize
    ensures no_lead { HasNoLead table.now from result }
    ensures clean { texts_of.is_clean_from table.now from
        ≡ texts_of.is_clean_from table.now result }
{
    if table.len() == 0 {
        return from;
    }
    let chart = CHART;
    let last = table.len() - 1;
    let mut end = from;
    while end < last {
        if chart[table[end] as usize] != b'c' {
            return end;
        }
        if chart[table[end + 1] as usize] != b'c' {
            return end;
        }
        end += 2;
    }
    end
}

// The first byte from `from` on that is not clean by itself, or the table's end.
// Kept: over places (N): the answer is a place of the table. Over a slice from `from` on, its start would be
// added to the answer, and a start past the table's end told apart first.
fn clean_to(table: &[u8], from: usize) -> usize
    ensures { CleanTo table.now from result }
{
    for end in from..table.len() {
        if !units::is_clean(table[end]) {
            return end;
        }
    }
    from.max(table.len())
}

// The same where many clean bytes are to be expected: the texts of an ASCII disc have no other.
pub fn clean_end(table: &[u8], from: usize) -> usize
    ensures { CleanTo table.now from result }
{
    clean_to(table, pass_clean(table, from))
}

// Whether each unit from `from` on is 0, or plain and safe: then so are those of each text that does not
// start inside a pair.
pub fn is_clean_from(table: &[u8], from: usize) -> bool
    ensures { result ≡ texts_of.is_clean_from table.now from }
{
    let from = passing::pass_clean_units(table, from);
    Units::new(&table[from.min(table.len())..]).all(|unit| unit.is_clean())
}

/// Whether the text at `at` is `.` or `..`: three bytes tell. No text is where nothing is.
#[cold]
pub fn is_dots(table: &[u8], at: usize) -> bool
    ensures { result ≡ table_of.is_dots (texts_of.text_at table.now at) }
{
    let end = at.saturating_add(3).min(table.len());
    name_tests::is_dots(text_at(&table[..end], at))
}

/// Whether the text at `at` is empty, `.` or `..`. A byte tells most texts.
pub fn is_nameless_at(table: &[u8], at: usize) -> bool
    ensures { result ≡ is_nameless (texts_of.text_at table.now at) }
{
    match units::byte_at(table, at) {
        0 => true,
        b'.' => is_dots(table, at),
        _ => false,
    }
}
