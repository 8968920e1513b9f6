// Whether a table is accepted: its root, then each entry's place and kind, then the limits, and then a walk
// over the names and over what nests in what. And of one that is not, which entry it is refused for.
ghost use Rattle.std.specs.Prelude.{◌≡◌, [], ◌∷◌, ◌-◌, ◌*◌, ◌≤◌, ◌<◌, length};
ghost use Rattle.tree.specs.Table as table_of;
ghost use Rattle.tree.specs.Faults as faults;
ghost use Rattle.tree.specs.Table.{name_offset, name_at, node_at, nodes_from, name_verdict, next_verdict};
ghost use Rattle.table.specs.Inner.Reading.{IsInside, node_verdict, texts_verdict};
ghost use Rattle.table.specs.Inner.Texts.{text_at};
ghost use Rattle.table.specs.Inner.Blocks.{IsFit};

use crate::marks::Survey;
use crate::stack::Stack;
use crate::{fields, name_tests, text};
use refusal::{Refusal, Verdict};
use tree::{DEPTH_LIMIT, ENTRIES_LIMIT, TEXTS_LIMIT};

/// The count of entries: the root's "next", where a count of 0 reads the root only.
pub fn count(table: &[u8]) -> usize
    requires { 12 ≤ length table.now }
    ensures { result ≡ table_of.count table.now }
{
    (endian::read_u32(table, 8) as usize).max(1)
}

// Entry k: past the table, or of an unknown kind.
fn entry_verdict(table: &[u8], k: usize) -> Verdict
    requires { k ≤ 16384 }
    ensures { result ≡ table_of.entry_verdict table.now k }
{
    if table.len() < 12 * k + 12 {
        return Err(Refusal::EntryPastTable);
    }
    if 1 < table[12 * k] {
        return Err(Refusal::UnrecognizedKind);
    }
    Ok(())
}

// Each entry after the root in turn.
// Kept: the loop goes over the entries' numbers, which place their records in the bytes; `chunks_exact` would
// hide the entry that is cut off.
fn entries_verdict(table: &[u8], count: usize) -> Verdict
    requires root { 1 ≤ count }
    requires few { count ≤ 16384 }
    ensures { result ≡ table_of.entries_verdict table.now 1 (count - 1) }
{
    for k in 1..count {
        entry_verdict(table, k)?;
    }
    Ok(())
}

// The tests of the name at `at` by itself, unit by unit.
#[cold]
fn text_verdict(table: &[u8], at: usize) -> Verdict
    ensures { result ≡ table_of.units_verdict (text_at table.now at) }
{
    name_tests::units_verdict(text::text_at(table, at))
}

// The same where the text is fit: the first bytes decide.
fn clean_verdict(table: &[u8], at: usize) -> Verdict
    requires { IsFit table.now at }
    ensures { result ≡ table_of.units_verdict (text_at table.now at) }
{
    if text::is_nameless_at(table, at) {
        return Err(Refusal::UnsafeName);
    }
    Ok(())
}

// Shuts the directories that end at entry k or before it.
// Kept: `while`, which counts no index; an iterator that takes off what it gives would also take off the
// directory that stays open.
fn shut(dirs: &mut Stack, k: usize)
    ensures { dirs.new ≡ table_of.dirs_open_at k dirs.old }
{
    while !dirs.is_empty() {
        if k < dirs.top() as usize {
            return;
        }
        dirs.pop();
    }
}

// A table in which `count` entries stand.
#[derive(Drop)]
struct Entries<'a> {
    table: &'a [u8],
    count: usize,
    ghost inside: { IsInside table.now count },
}

impl<'a> Entries<'a> {
    // The name of entry k: its offset, whether its units are a name's, whether they are safe. Where its text
    // is fit, it is not looked at unit by unit. Elsewhere only a name that is refused, and so ends the walk,
    // is looked at to its end.
    // Always inlined, as the two below: two walks call them, and a call for each entry is felt at opening.
    #[inline(always)]
    fn name_verdict(&self, texts: &mut Survey<'_>, k: usize) -> Verdict
        requires within { k < self.now.count }
        requires same_table { texts.old.table ≡ self.now.table.now }
        requires behind_entries { texts.old.base ≡ 12 * self.now.count }
        ensures verdict { let table = self.now.table.now in let count = self.now.count in
            result ≡ name_verdict table count k (name_at table count (name_offset table k)) }
        ensures same { texts.new ≡ texts.old }
    {
        let offset = fields::name_offset(self.table, k) as usize;
        if self.table.len() - 12 * self.count <= offset {
            return Err(Refusal::InvalidNameOffset);
        }
        let at = 12 * self.count + offset;
        if texts.is_fit(at) {
            return clean_verdict(self.table, at);
        }
        text_verdict(self.table, at)
    }

    // The next of entry k, if it is a directory, and then its depth.
    #[inline(always)]
    fn next_verdict(&self, dirs: &Stack, k: usize) -> Verdict
        requires { k < self.now.count }
        ensures { let node = node_at self.now.table.now self.now.count k in
            result ≡ next_verdict self.now.count dirs.now k node }
    {
        if self.table[12 * k] == 0 {
            return Ok(());
        }
        let next = fields::size_or_next(self.table, k) as usize;
        if next <= k {
            return Err(Refusal::InvalidNextIndex);
        }
        if self.count < next {
            return Err(Refusal::InvalidNextIndex);
        }
        if (dirs.top() as usize) < next {
            return Err(Refusal::InvalidNextIndex);
        }
        if DEPTH_LIMIT < dirs.len() {
            return Err(Refusal::LimitOrMemory);
        }
        Ok(())
    }

    // Entry k of the walk: its name, then its next.
    #[inline(always)]
    fn node_verdict(&self, texts: &mut Survey<'_>, dirs: &Stack, k: usize) -> Verdict
        requires within { k < self.now.count }
        requires same_table { texts.old.table ≡ self.now.table.now }
        requires behind_entries { texts.old.base ≡ 12 * self.now.count }
        ensures verdict { result ≡ node_verdict self.now.table.now self.now.count dirs.now k }
        ensures same { texts.new ≡ texts.old }
    {
        self.name_verdict(texts, k)?;
        self.next_verdict(dirs, k)
    }

    // Opens entry k, if it is a directory.
    fn enter(&self, dirs: &mut Stack, k: usize)
        requires within { k < self.now.count }
        requires passed { let node = node_at self.now.table.now self.now.count k in
            next_verdict self.now.count dirs.old k node ≡ (Ok tt) }
        ensures { dirs.new
            ≡ table_of.dirs_with dirs.old (node_at self.now.table.now self.now.count k) }
    {
        if self.table[12 * k] != 0 {
            dirs.push(fields::size_or_next(self.table, k));
        }
    }

    // The walk over the entries after the root.
    // Kept: the number of an entry is what the directories that end are told by, and what its record is read
    // at.
    fn walk(&self) -> Verdict
        ensures { let table = self.now.table.now in let count = self.now.count in
            let nodes = nodes_from table count 1 (count - 1) in
            result ≡ table_of.walk table count (count ∷ []) 1 nodes }
    {
        let mut texts = Survey::new(self.table, 12 * self.count);
        let mut dirs = Stack::new();
        dirs.push(self.count as u32);
        for k in 1..self.count {
            shut(&mut dirs, k);
            self.node_verdict(&mut texts, &dirs, k)?;
            self.enter(&mut dirs, k);
        }
        Ok(())
    }

    // The first entry after the root that the walk refuses.
    // Kept: the loop of `walk` once more, which tells the cause and is run on every image; this one is run
    // after a refusal alone.
    fn walk_refused(&self) -> Option<u32>
        ensures { let table = self.now.table.now in let count = self.now.count in
            let nodes = nodes_from table count 1 (count - 1) in
            result ≡ faults.walk_refused table count (count ∷ []) 1 nodes }
    {
        let mut texts = Survey::new(self.table, 12 * self.count);
        let mut dirs = Stack::new();
        dirs.push(self.count as u32);
        for k in 1..self.count {
            shut(&mut dirs, k);
            if self.node_verdict(&mut texts, &dirs, k).is_err() {
                return Some(k as u32);
            }
            self.enter(&mut dirs, k);
        }
        None
    }

    // Whether texts stand after the entries, and the last has no zero byte at its end.
    // Kept: it answers a question that the one test asks; the refusal stands there, in the order of the
    // tests.
    fn is_unended(&self) -> bool
        ensures { result ≡ table_of.is_unended self.now.table.now self.now.count }
    {
        12 * self.count < self.table.len() && self.table[self.table.len() - 1] != 0
    }

    // The tests after those of the entries.
    fn texts_verdict(&self, words: usize) -> Verdict
        ensures { result ≡ texts_verdict self.now.table.now self.now.count words }
    {
        if self.is_unended() {
            return Err(Refusal::MissingNullTerminator);
        }
        if TEXTS_LIMIT < self.table.len() - 12 * self.count {
            return Err(Refusal::LimitOrMemory);
        }
        if words < 4 * (self.count + 2) {
            return Err(Refusal::LimitOrMemory);
        }
        if endian::read_u32(self.table, 8) == 0 {
            return Err(Refusal::InvalidNextIndex);
        }
        self.walk()
    }

    // Whether one of those before the walk refuses the table: its texts as a whole, the working words, a count
    // of 0.
    // Kept: a question that one test asks, as `is_unended`.
    fn is_refused_behind_entries(&self, words: usize) -> bool
        ensures { let table = self.now.table.now in
            result ≡ faults.is_refused_behind_entries table self.now.count words }
    {
        self.is_unended()
            || TEXTS_LIMIT < self.table.len() - 12 * self.count
            || words < 4 * (self.count + 2)
            || endian::read_u32(self.table, 8) == 0
    }
}

/// Whether a table is accepted where so many working words are lent. No word is written: the walk needs none.
pub fn check(table: &[u8], words: usize) -> Verdict
    ensures { result ≡ table_of.check table.now words }
{
    if table.len() < 12 {
        return Err(Refusal::EntryPastTable);
    }
    if 1 < table[0] {
        return Err(Refusal::UnrecognizedKind);
    }
    if table[0] == 0 {
        return Err(Refusal::RootIsNotDirectory);
    }
    let count = count(table);
    if ENTRIES_LIMIT < count {
        return Err(Refusal::LimitOrMemory);
    }
    entries_verdict(table, count)?;
    Entries { table, count }.texts_verdict(words)
}

// The first entry after the root that is refused for its place or its kind.
// Kept: over the entries' numbers, as `entries_verdict`.
fn first_refused(table: &[u8], count: usize) -> Option<u32>
    requires root { 1 ≤ count }
    requires few { count ≤ 16384 }
    ensures { result ≡ faults.first_refused table.now 1 (count - 1) }
{
    for k in 1..count {
        if entry_verdict(table, k).is_err() {
            return Some(k as u32);
        }
    }
    None
}

/// The entry that a table is refused for where so many working words are lent: `None` where it is its root, a
/// limit of the whole table or its texts, and where the table is accepted.
pub fn refused_entry(table: &[u8], words: usize) -> Option<u32>
    ensures { result ≡ faults.refused_entry table.now words }
{
    if table.len() < 12 {
        return None;
    }
    if table[0] != 1 {
        return None;
    }
    let count = count(table);
    if ENTRIES_LIMIT < count {
        return None;
    }
    if entries_verdict(table, count).is_err() {
        return first_refused(table, count);
    }
    let entries = Entries { table, count };
    if entries.is_refused_behind_entries(words) {
        return None;
    }
    entries.walk_refused()
}
