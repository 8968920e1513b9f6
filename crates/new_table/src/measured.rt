// The table of a new master, measured and within the limits.
ghost use Rattle.std.specs.Prelude.{◌≡◌, ◌+◌, ◌*◌, ◌^◌, ◌<◌, ◌≤◌, ℕ, [], length, take, slice_index};
ghost use Rattle.std.specs.Prelude.{Ok, Err, IsTrue, is_ok, IfOk, IfErr};
ghost use Rattle.endian.specs.Bytes.{put};
ghost use Rattle.tree.specs.Table.{encode, limits};
ghost use Rattle.wish_list.specs.Paths.{list_verdict};
ghost use Rattle.new_table.specs.Inner.Drafts.{draft_bytes};
ghost use Rattle.wish_list.specs.Tree.{tree_of};

use crate::draft::{self, Place};
use crate::path;
use crate::size::Size;
use refusal::Refusal;
use table_writing::{Kind, Record};
use tree::{DEPTH_LIMIT, FileEntry};
use wish_list::WishList;

/// The file table of a wish list, measured: it is within the limits, wherever the files lie.
// Kept: no derived equality, which would compare all paths (N).
#[derive(Drop)]
pub struct NewTable<'a> {
    /// The paths, each with its zero byte.
    pub paths: &'a [u8],
    /// The sizes in bytes.
    pub sizes: &'a [u32],
    entries: usize,
    size: usize,
    /// No test refuses the paths.
    pub ghost accepted: { IsTrue (is_ok (list_verdict paths.now (length sizes.now))) },
    /// How many entries the tree has.
    pub ghost counted: { entries ≡ length (tree_of paths.now sizes.now []) },
    /// How many bytes its table is.
    pub ghost measured: { size ≡ length (encode (tree_of paths.now sizes.now [])) },
    /// The tree is within the limits, with as many words as it needs.
    pub ghost within: { let nodes = tree_of paths.now sizes.now [] in
        IsTrue (is_ok (limits nodes (4 * (entries + 2)))) },
}

// Does nothing.
// Kept: that each number fits 4 bytes the proof knows of a slice that is a parameter, not of a field (P).
fn bound(numbers: &[u32])
    ensures { (i : ℕ) → slice_index numbers.now i < 2 ^ 32 }
{}

impl<'a> NewTable<'a> {
    /// Measures the table of a wish list; 9 if its tree passes a limit, or if `words`, how many working
    /// words are lent, are too few for it.
    pub fn measure(list: &WishList<'a>, words: usize) -> Result<NewTable<'a>, Refusal>
        ensures ok { IfOk result (λ _. let list = list.now in
            limits (tree_of list.paths.now list.sizes.now []) words ≡ Ok tt) }
        ensures err { IfErr result (λ cause. let list = list.now in
            limits (tree_of list.paths.now list.sizes.now []) words ≡ Err cause) }
        ensures list { IfOk result (λ table. table.paths ≡ list.now.paths) }
        ensures sizes { IfOk result (λ table. table.sizes ≡ list.now.sizes) }
    {
        match Size::of(list.paths) {
            Some(size) if size.entries + 2 <= words / 4 => Ok(NewTable {
                paths: list.paths,
                sizes: list.sizes,
                entries: size.entries,
                size: 12 * size.entries + size.texts,
            }),
            _ => Err(Refusal::LimitOrMemory),
        }
    }

    /// How many bytes the table is.
    pub fn size(&self) -> usize
        ensures { result ≡ length (encode (tree_of self.now.paths.now self.now.sizes.now [])) }
    {
        self.size
    }

    /// Writes the table with the files at these offsets, one for each size. What is in `bytes` is lost.
    pub fn write(&self, offsets: &[u32], bytes: &mut [u8], out: &mut [u8])
        requires offsets { length offsets.now ≡ length self.now.sizes.now }
        requires bytes { let list = self.now in
            length (encode (tree_of list.paths.now list.sizes.now [])) ≤ length bytes.old }
        requires out { let list = self.now in
            length (encode (tree_of list.paths.now list.sizes.now [])) ≤ length out.old }
        ensures { let list = self.now in
            out.new ≡ put out.old 0 (encode (tree_of list.paths.now list.sizes.now offsets.now)) }
    {
        bound(self.sizes);
        self.write_draft(offsets, bytes);
        table_writing::write_table(&bytes[..self.size], out);
    }

    // Writes the table into `bytes`, each record with the parent 0: from the last path to the first, since
    // there it is known where each directory ends.
    fn write_draft(&self, offsets: &[u32], bytes: &mut [u8])
        requires offsets { length offsets.now ≡ length self.now.sizes.now }
        requires room { self.now.size ≤ length bytes.old }
        ensures { take self.now.size bytes.new
            ≡ draft_bytes (tree_of self.now.paths.now self.now.sizes.now offsets.now) }
    {
        let texts = 12 * self.entries;
        let mut place = Place {
            entry: self.entries,
            text: self.size,
        };
        let mut ends = [self.entries as u32; DEPTH_LIMIT + 1];
        let mut i = self.sizes.len();
        let mut end = self.paths.len();
        let mut path = path::path_before(self.paths, end);
        // Kept: from the last path on, each known by where it ends (N).
        while i > 0 {
            i -= 1;
            end -= path.len() + 1;
            let before = path::path_before(self.paths, end);
            let shared = path::shared_bytes(before, path);
            let entry = FileEntry {
                offset: offsets[i],
                size: self.sizes[i],
            };
            place = place.write_path(bytes, texts, path, shared, entry, &ends);
            let depth = path::slashes(&path[..shared]);
            draft::close(
                &mut ends,
                depth + 1,
                path::slashes(before),
                place.entry as u32,
            );
            path = before;
        }
        let root = Record {
            kind: Kind::Directory,
            name: 0,
            place: 0,
            next: self.entries as u32,
        };
        root.write(bytes, 0);
    }
}
