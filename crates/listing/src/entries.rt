// The lines of the entries of an accepted table. The directories around an entry are kept, so that
// a line costs no more than its path: 65 at most, since no directory is deeper than 64.
ghost use Rattle.std.specs.Prelude.{◌≡◌, ◌∷◌, ◌++◌, ◌+◌, ◌<◌, ◌≤◌, ◌^◌, length, replicate, slice_index_or};
ghost use Rattle.tree.specs.Table as table_of;
ghost use Rattle.tree.specs.Table.{empty_root, nodes_of, name_of, parent_of};
ghost use Rattle.listing.specs.Lines.{ending, entry_fields, path_of, entry_line, lines_below};
ghost use Rattle.listing.specs.Inner.Around.{IsBefore, IsAround};
ghost use Rattle.listing.specs.Inner.Writing.{Appends};

use crate::buffer::TextBuffer;
use crate::lines;
use table::Table;

// The directories around an entry, the root first.
#[derive(Drop)]
struct Directories<'a> {
    // Kept: nothing allocates, so that there is room for as many as can be. `table`'s `Stack`
    // shows its top alone, and a path is put from the root on.
    numbers: [usize; 65],
    // Their names, so that a path looks for the end of none.
    names: [&'a [u8]; 65],
    depth: usize,
}

impl<'a> Directories<'a> {
    // The root alone.
    fn root() -> Self
        ensures numbers { result.numbers ≡ replicate 65 0 }
        ensures names { length result.names ≡ 65 }
        ensures depth { result.depth ≡ 1 }
    {
        Directories {
            numbers: [0; 65],
            names: [&[]; 65],
            depth: 1,
        }
    }

    // Leaves those around entry k: those at the end that are done go.
    // Kept: `while`, which counts no index: it takes off the last of them, as long as that is done.
    fn shut(&mut self, table: &Table<'_>, k: usize)
        requires within { k < table_of.count table.now }
        requires before { IsBefore (nodes_of table.now) self.old k }
        ensures { IsAround (nodes_of table.now) self.new k }
    {
        while 1 < self.depth && table.next(self.numbers[self.depth - 1]) <= k {
            self.depth -= 1;
        }
    }

    // Adds entry k, if it is a directory.
    fn enter(&mut self, table: &Table<'a>, k: usize)
        requires not_root { 0 < k }
        requires within { k < table_of.count table.now }
        requires nested { IsAround (nodes_of table.now) self.old k }
        ensures { IsBefore (nodes_of table.now) self.new (k + 1) }
    {
        // So that it is known of the table that no directory is deeper.
        let _ = table.len();
        if table.is_directory(k) {
            self.numbers[self.depth] = k;
            self.names[self.depth] = table.name(k);
            self.depth += 1;
        }
    }
}

// An entry after the root, and the directories around it.
#[derive(Clone, Copy)]
struct Entry<'a> {
    table: &'a Table<'a>,
    number: usize,
    around: &'a Directories<'a>,
    ghost not_root: { 0 < number },
    ghost within: { number < table_of.count table.now },
    ghost few: { number < 2 ^ 32 },
    ghost nested: { IsAround (nodes_of table.now) around.now number },
}

impl Entry<'_> {
    // The directory that it is nested in.
    fn parent(&self) -> usize
        ensures parent { result ≡ parent_of (nodes_of self.now.table.now) self.now.number }
        ensures before { result ≤ self.now.number }
    {
        self.around.numbers[self.around.depth - 1]
    }

    // A space, and the path of that directory.
    fn put_path(&self, text: &mut TextBuffer<'_>)
        ensures { let nodes = nodes_of self.now.table.now in
            Appends text.old text.new (0x20 ∷ path_of nodes (parent_of nodes self.now.number)) }
    {
        text.push_text(b" /");
        let names = &self.around.names[..];
        for name in &names[1..self.around.depth] {
            text.push_bytes(name);
            text.push(b'/');
        }
    }

    // Its line.
    fn put_line(&self, text: &mut TextBuffer<'_>)
        ensures { Appends text.old text.new
            (entry_line (nodes_of self.now.table.now) self.now.number) }
    {
        put_fields(self.table, self.number, self.parent(), text);
        self.put_path(text);
        put_name(self.table, self.number, text);
        text.push(b'\n');
    }
}

// The first byte of entry k's line and its three numbers.
fn put_fields(table: &Table<'_>, k: usize, parent: usize, text: &mut TextBuffer<'_>)
    requires within { k < table_of.count table.now }
    requires few { k < 2 ^ 32 }
    requires before { parent ≤ k }
    ensures { let node = slice_index_or (nodes_of table.now) k empty_root in
        Appends text.old text.new (entry_fields k parent node) }
{
    let last = table.last(k);
    if table.is_directory(k) {
        lines::put_pair(text, b'd', k as u32, parent as u32);
        text.push_field(last);
        return;
    }
    let offset = table.offset(k);
    lines::put_pair(text, b'f', k as u32, offset);
    text.push_field(last);
}

// The last part of entry k's path: its name, and `/` if it is a directory.
fn put_name(table: &Table<'_>, k: usize, text: &mut TextBuffer<'_>)
    requires { k < table_of.count table.now }
    ensures { let node = slice_index_or (nodes_of table.now) k empty_root in
        Appends text.old text.new (name_of node ++ ending node) }
{
    text.push_bytes(table.name(k));
    if table.is_directory(k) {
        text.push(b'/');
    }
}

fn put_root(table: &Table<'_>, text: &mut TextBuffer<'_>)
    requires { 0 < table_of.count table.now }
    ensures { Appends text.old text.new (entry_line (nodes_of table.now) 0) }
{
    put_fields(table, 0, 0, text);
    text.push_text(b" /\n");
}

// All entries, in table order.
// Kept: the loop goes over the entries' numbers, by which the table is asked.
pub fn put_entries(table: &Table<'_>, text: &mut TextBuffer<'_>)
    ensures { Appends text.old text.new
        (lines_below (nodes_of table.now) (table_of.count table.now)) }
{
    let count = table.len();
    let mut around = Directories::root();
    put_root(table, text);
    for k in 1..count {
        around.shut(table, k);
        let entry = Entry {
            table: &*table,
            number: k,
            around: &around,
        };
        entry.put_line(text);
        around.enter(table, k);
    }
}
