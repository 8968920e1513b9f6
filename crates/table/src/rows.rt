// All entries of an accepted table at once.
ghost use Rattle.std.specs.Prelude.{◌≡◌, ◌+◌, ◌-◌, ◌*◌, ◌≤◌, ◌<◌, ◌^◌, ◌==◌, length, take, slice_index_or};
ghost use Rattle.std.specs.Bool.{OnTrue};
ghost use Rattle.std.specs.List.{position};
ghost use Rattle.endian.specs.Bytes.{put};
ghost use Rattle.tree.specs.Table as table_of;
ghost use Rattle.tree.specs.Table.{empty_root, nodes_of, name_of, parent_of};
ghost use Rattle.table.specs.Rows.{image_place, entry_row, list_verdict, list_with_rows};
ghost use Rattle.table.specs.Inner.Texts.{text_at};
ghost use Rattle.table.specs.Inner.ParentsIn.{HasParents};
ghost use Rattle.table.specs.Inner.Ends.{EndsIn};

use crate::entries::Table;
use crate::name;
use refusal::{Refusal, Verdict};

// Where the first zero byte is, if it is one of so many bytes.
fn zero_within(text: &[u8], most: usize) -> Option<usize>
    ensures { result ≡ position (λ byte. (byte == 0)) (take most text.now) }
{
    text.iter().take(most).position(|&byte| byte == 0)
}

// How many bytes of a text are looked at together.
const PART: usize = 64;

// Whether no zero byte is among so many bytes from `at` on: their least one tells, so that the compiler
// compares 16 at once.
fn is_without_zero(table: &[u8], at: usize) -> bool
    requires { at + 64 ≤ length table.now }
    ensures { OnTrue result (
        length (text_at table.now at) ≡ 64 + length (text_at table.now (at + 64))) }
{
    let mut least = 255;
    for i in 0..PART {
        least = table[at + i].min(least);
    }
    least != 0
}

// Passes bytes of the text at `from` that stand before `stop`. Where it stops costs only time.
// Kept: `while`, which counts no index; a search of byte after byte by `position` took 12 times as long.
fn pass_text(table: &[u8], from: usize, stop: usize) -> usize
    requires before { from ≤ stop }
    requires inside { stop ≤ length table.now }
    ensures further { from ≤ result }
    ensures before { result ≤ stop }
    ensures passed { let left = length (text_at table.now result) in
        length (text_at table.now from) ≡ (result - from) + left }
{
    let mut at = from;
    while PART <= stop - at {
        if !is_without_zero(table, at) {
            return at;
        }
        at += PART;
    }
    at
}

// The length of the text at `at`, where the text at `stop` behind it ends at `end`.
#[cold]
fn length_before(table: &[u8], at: usize, stop: usize, end: usize) -> usize
    requires inside { at + length (text_at table.now at) < length table.now }
    requires before { at ≤ stop }
    requires ends { end ≡ stop + length (text_at table.now stop) }
    ensures { result ≡ length (text_at table.now at) }
{
    let near = pass_text(table, at, stop.min(table.len()));
    near - at + zero_within(&table[near..], stop - near).unwrap_or(end - near)
}

// Where long texts of a table end. Of each 4,096 bytes `ends` has where the text that stands at their start
// ends, if it is known; a text longer than that tells it of the next ones. So many names that share a long
// text cost 4,096 bytes each, and the text a few times.
#[derive(Drop)]
struct Ends<'a> {
    table: &'a Table<'a>,
    // Kept: nothing allocates, so that there is a number for each 4,096 bytes of the longest table.
    ends: [Option<u32>; 320],
    ghost small: { length table.now < 2 ^ 32 },
    ghost ends_in: { EndsIn table.now ends },
}

impl<'a> Ends<'a> {
    fn new(table: &'a Table<'a>) -> Self
        requires { length table.now < 2 ^ 32 }
        ensures { result.table.now ≡ table.now }
    {
        Ends {
            table,
            ends: [None; 320],
        }
    }

    // The length of the text at `at`.
    fn text_length(&mut self, at: usize) -> usize
        requires { at + length (text_at self.old.table.now at) < length self.old.table.now }
        ensures value { result ≡ length (text_at self.old.table.now at) }
        ensures table { self.new.table ≡ self.old.table }
    {
        let bytes = self.table.bytes();
        let next = at / 4096 + 1;
        if 320 <= next {
            return name::text_length(bytes, at);
        }
        if let Some(end) = self.ends[next] {
            return length_before(bytes, at, 4096 * next, end as usize);
        }
        let size = name::text_length(bytes, at);
        if 4096 < size {
            self.ends[next] = Some((at + size) as u32);
        }
        size
    }

    // The length of the name of entry k; the root has none.
    fn name_length(&mut self, k: usize) -> usize
        requires { k < table_of.count self.old.table.now }
        ensures value { let node = slice_index_or (nodes_of self.old.table.now) k empty_root in
            result ≡ length (name_of node) }
        ensures short { result ≤ 2 ^ 20 }
        ensures table { self.new.table ≡ self.old.table }
    {
        if k == 0 {
            return 0;
        }
        self.text_length(self.table.name_place(k))
    }
}

// What the list has of an entry, in the order of its six words.
// Kept: the kind is a number: these are the six words as the list has them, and C reads them so.
#[derive(Clone, Copy)]
struct Row {
    kind: u32,
    parent: u32,
    offset: u32,
    last: u32,
    place: u32,
    size: u32,
}

impl Row {
    ghost use Rattle.table.specs.Inner.Words.{row_words};

    // The six words of entry k.
    fn write(self, list: &mut [u32], k: usize)
        requires { 6 * k + 6 ≤ length list.old }
        ensures { list.new ≡ put list.old (6 * k) (row_words self) }
    {
        list[6 * k] = self.kind;
        list[6 * k + 1] = self.parent;
        list[6 * k + 2] = self.offset;
        list[6 * k + 3] = self.last;
        list[6 * k + 4] = self.place;
        list[6 * k + 5] = self.size;
    }
}

// The rows of a table that stands at `base` in an image.
#[derive(Drop)]
struct Rows<'a> {
    table: &'a Table<'a>,
    base: u32,
    ghost fits: { base + length table.now < 2 ^ 32 },
}

impl Rows<'_> {
    ghost use Rattle.table.specs.Inner.Words.{row_words};

    // Where the name of entry k stands in the image; the root has none.
    fn image_place(&self, k: usize) -> u32
        requires { k < table_of.count self.now.table.now }
        ensures { result ≡ image_place self.now.base self.now.table.now k }
    {
        if k == 0 {
            return 0;
        }
        self.base + self.table.name_place(k) as u32
    }

    // The directory that entry k is nested in: the entry before it, or one of those that this one is nested
    // in, which the list has.
    // Kept: `while`, which counts no index: it climbs from parent to parent; `successors` would have the same
    // step, as a closure.
    fn parent_in(&self, list: &[u32], k: usize) -> usize
        requires within { k < table_of.count self.now.table.now }
        requires room { 6 * table_of.count self.now.table.now ≤ length list.now }
        requires parents_in { HasParents self.now.table.now k list.now }
        ensures parent { result ≡ parent_of (nodes_of self.now.table.now) k }
        ensures before { result ≤ k }
    {
        if k == 0 {
            return 0;
        }
        let mut p = k - 1;
        while 0 < p {
            if k < self.table.next(p) {
                return p;
            }
            p = list[6 * p + 1] as usize;
        }
        0
    }

    // The row of entry k, which is nested in `parent` and whose name has `size` bytes.
    fn read(&self, k: usize, parent: u32, size: u32) -> Row
        requires within { k < table_of.count self.now.table.now }
        requires parent { parent ≡ parent_of (nodes_of self.now.table.now) k }
        requires size { let node = slice_index_or (nodes_of self.now.table.now) k empty_root in
            size ≡ length (name_of node) }
        ensures { row_words result ≡ entry_row self.now.base self.now.table.now k }
    {
        Row {
            kind: u32::from(self.table.is_directory(k)),
            parent,
            offset: self.table.offset(k),
            last: self.table.last(k),
            place: self.image_place(k),
            size,
        }
    }

    // Adds entry k, whose name has `size` bytes, to the entries below it.
    fn add(&self, list: &mut [u32], k: usize, size: u32)
        requires within { k < table_of.count self.now.table.now }
        requires few { k < 2 ^ 32 }
        requires room { 6 * table_of.count self.now.table.now ≤ length list.old }
        requires parents_in { HasParents self.now.table.now k list.old }
        requires size { let node = slice_index_or (nodes_of self.now.table.now) k empty_root in
            size ≡ length (name_of node) }
        ensures { list.new ≡ put list.old (6 * k) (entry_row self.now.base self.now.table.now k) }
    {
        let parent = self.parent_in(list, k) as u32;
        self.read(k, parent, size).write(list, k);
    }
}

/// All entries, six words each: kind (0 file, 1 directory), the directory it is nested in, offset (0 for a
/// directory), size or next, and where its name stands in the image, which has the table at `base`, and how
/// long it is. A list that is too short stays as it is: `LimitOrMemory`.
// Kept: the loop goes over the entries' numbers, by which table and list are asked.
pub fn list_entries(table: &Table<'_>, base: u32, list: &mut [u32]) -> Verdict
    requires { base + length table.now < 2 ^ 32 }
    ensures value { result ≡ list_verdict table.now (length list.old) }
    ensures list_after { list.new ≡ list_with_rows base table.now list.old }
{
    let count = table.len();
    if list.len() < 6 * count {
        return Err(Refusal::LimitOrMemory);
    }
    let rows = Rows { table, base };
    let mut ends = Ends::new(table);
    for k in 0..count {
        let size = ends.name_length(k);
        rows.add(list, k, size as u32);
    }
    Ok(())
}
