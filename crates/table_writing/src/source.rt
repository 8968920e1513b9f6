// A table that can be written anew.
ghost use Rattle.std.specs.Prelude.{◌≡◌, ◌+◌, ◌*◌, ◌≤◌, ◌<◌, ◌==◌, length};
ghost use Rattle.std.specs.Option.{IfSome};
ghost use Rattle.std.specs.List.{count_by};
ghost use mathlib.Core.List.{tail};
ghost use Rattle.tree.specs.Table as table_of;
ghost use Rattle.tree.specs.Table.{name_offset, offset_or_parent, size_or_next, name_at, nodes_of, texts_of};
ghost use Rattle.table_writing.specs.Inner.Kind.{kind_number};
ghost use Rattle.table_writing.specs.Inner.Measure.{measure_of};
ghost use Rattle.table_writing.specs.Inner.Valid.{IsValid};

use crate::kind::Kind;
use refusal::Refusal;
use std::marker::Model;
use table::fields;
use tree::TEXTS_LIMIT;

// How many bytes are looked at together: as many as a byte can count.
const PART: usize = 255;

// How many of a part's bytes are zero.
fn zeros_in(part: &[u8]) -> u8
    requires { length part.now ≤ 255 }
    ensures { result ≡ count_by (λ byte. (byte == 0)) part.now }
{
    let mut zeros = 0;
    for byte in part {
        if *byte == 0 {
            zeros += 1;
        }
    }
    zeros
}

// How many of the bytes are zero.
// Kept: a part's are counted in a byte (S), so that the compiler compares 16 at once: `filter` and `count`
// over all took 11 times as long.
fn zero_bytes(bytes: &[u8]) -> usize
    ensures { result ≡ count_by (λ byte. (byte == 0)) bytes.now }
{
    let mut zeros = 0;
    for part in bytes.chunks(PART) {
        zeros += usize::from(zeros_in(part));
    }
    zeros
}

/// A table that can be written anew: its directories nest, and its names end within it. Contracts see its
/// bytes.
// Kept: beside `table::Table`, which asks that opening accepts the table: what is measured and written is any
// `IsValid` one.
// No derived equality, which would ask for an `inverse`: the view is the bytes, and forgets where they lie
// and the count.
#[derive(Drop)]
pub struct Source<'a> {
    bytes: &'a [u8],
    count: usize,
}

impl<'a> Model for Source<'a> {
    ghost use Rattle.std.specs.Prelude.{ℕ, List};
    ghost use Rattle.table_writing.specs.Inner.Valid.{IsValid};

    ghost Value = { List ℕ };

    ghost view = { λ s. s.bytes.now };

    ghost invariant = { λ s. IsValid s.bytes.now s.count };
}

impl<'a> Source<'a> {
    /// A table that the checks accepted, or any other that is `IsValid`.
    // Kept: `IsValid` in three contracts: here bytes become a `Source`, and the two public calls take bytes.
    pub fn new(bytes: &'a [u8]) -> Self
        requires { IsValid bytes.now (table_of.count bytes.now) }
        ensures { result ≡ bytes.now }
    {
        let count = endian::read_u32(bytes, 8) as usize;
        Source { bytes, count }
    }

    /// The same table again. A loop that writes holds one of its own, which no write can change.
    pub fn reborrow(&self) -> Self
        ensures { result ≡ self.now }
    {
        Source {
            bytes: self.bytes,
            count: self.count,
        }
    }

    /// Its bytes, the names with them.
    pub fn bytes(&self) -> &'a [u8]
        ensures bytes { result.now ≡ self.now }
        ensures valid { IsValid self.now (table_of.count self.now) }
    {
        self.bytes
    }

    /// How many entries it has.
    pub fn count(&self) -> usize
        ensures value { result ≡ table_of.count self.now }
        ensures valid { IsValid self.now (table_of.count self.now) }
    {
        self.count
    }

    /// What entry k is.
    pub fn kind(&self, k: usize) -> Kind
        requires { k < table_of.count self.now }
        ensures value { kind_number result ≡ table_of.kind self.now k }
        ensures valid { IsValid self.now (table_of.count self.now) }
    {
        Kind::of(self.bytes, k)
    }

    /// The third field of entry k: the offset of a file, the parent that a directory stores.
    pub fn place(&self, k: usize) -> u32
        requires { k < table_of.count self.now }
        ensures { result ≡ offset_or_parent self.now k }
    {
        fields::offset_or_parent(self.bytes, k)
    }

    /// The fourth field of entry k: the size of a file, the entry after all those in a directory.
    pub fn next(&self, k: usize) -> u32
        requires { k < table_of.count self.now }
        ensures value { result ≡ size_or_next self.now k }
        ensures valid { IsValid self.now (table_of.count self.now) }
    {
        fields::size_or_next(self.bytes, k)
    }

    /// The name of entry k, which is not the root, without its zero byte.
    pub fn name(&self, k: usize) -> &'a [u8]
        requires further { 0 < k }
        requires within { k < table_of.count self.now }
        ensures { result.now ≡ name_at self.now (table_of.count self.now) (name_offset self.now k) }
    {
        let from = 12 * self.count + fields::name_offset(self.bytes, k) as usize;
        let len = table::text_length(self.bytes, from);
        &self.bytes[from..from + len]
    }

    // The size of the texts where they stand as they would be written: in the order of the entries, each
    // behind the zero byte of the one before it; else none.
    // A zero byte stands before each name but the first. So where no more of them are between the first name
    // and the last, each ends the name before it, and only the last name's end is searched for.
    fn packed_texts(&self) -> Option<usize>
        ensures { IfSome result (λ size. size ≡ length (texts_of (tail (nodes_of self.now)))) }
    {
        let bytes = self.bytes();
        let count = self.count();
        if count < 2 {
            return None;
        }
        let first = 12 * count + fields::name_offset(bytes, 1) as usize;
        let mut last = first;
        // Kept: a range of numbers, as in `measure`.
        for k in 2..count {
            let next = 12 * count + fields::name_offset(bytes, k) as usize;
            if next <= last || bytes[next - 1] != 0 {
                return None;
            }
            last = next;
        }
        if zero_bytes(&bytes[first..last]) != count - 2 {
            return None;
        }
        Some(last - first + self.name(count - 1).len() + 1)
    }

    /// The size in bytes of the table written anew; 9 if its texts pass the limit.
    pub fn measure(&self) -> Result<usize, Refusal>
        ensures { result ≡ measure_of self.now }
    {
        let count = self.count();
        // Nearly every table is packed. To search for each name's end took a quarter of an edit's time.
        if let Some(texts) = self.packed_texts() {
            if TEXTS_LIMIT < texts {
                return Err(Refusal::LimitOrMemory);
            }
            return Ok(12 * count + texts);
        }
        let mut size = 12;
        // Kept: a range of numbers: an entry is known by its number, and there is no slice of entries.
        for k in 1..count {
            let name = self.name(k).len();
            // The texts so far are what is measured but for k records.
            if TEXTS_LIMIT - (size - 12 * k) <= name {
                return Err(Refusal::LimitOrMemory);
            }
            size += 12 + name + 1;
        }
        Ok(size)
    }
}
