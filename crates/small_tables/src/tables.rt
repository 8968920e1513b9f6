// All small tables into a result list.
ghost use Rattle.std.specs.Prelude.{◌≡◌, ◌+◌, ◌≤◌, ◌↔◌, length, take, IfSome, IsSome, IsTrue};
ghost use Rattle.endian.specs.Bytes.{put};
ghost use Rattle.small_tables.specs.Shapes.{shapes};
ghost use Rattle.small_tables.specs.Tables.{is_small, small_tables_answer, small_tables_list};
ghost use Rattle.small_tables.specs.Inner.Begun.{IsBegun, tables_with};

use crate::shape::{self, Entry};
use refusal::Refusal;

// How many shapes of so many entries there are, where these are 1 to 8.
fn number_of_shapes(entries: u32) -> Option<u32>
    ensures small { IsSome result ↔ IsTrue (is_small entries) }
    ensures number { IfSome result (λ number. number ≡ length (shapes entries)) }
{
    match entries {
        1 => Some(1),
        2 => Some(2),
        3 => Some(6),
        4 => Some(22),
        5 => Some(90),
        6 => Some(394),
        7 => Some(1806),
        8 => Some(8558),
        _ => None,
    }
}

// Writes the table of each shape that begins with the first k entries of `shape`, one behind the other from
// `at` on, and returns where the last one ends.
fn write_each(shape: &mut [Entry], k: usize, list: &mut [u8], at: usize) -> usize
    requires begun { IsBegun (length shape.old) (take k shape.old) }
    requires within { k ≤ length shape.old }
    requires few { length shape.old ≤ 8 }
    requires room { at + length (tables_with (length shape.old) (take k shape.old))
        ≤ length list.old }
    ensures end { result ≡ at + length (tables_with (length shape.old) (take k shape.old)) }
    ensures list { list.new ≡ put list.old at (tables_with (length shape.old) (take k shape.old)) }
    ensures first { take k shape.new ≡ take k shape.old }
{
    if k == shape.len() {
        let end = at + shape::table_size(k);
        shape::write_table(shape, &mut list[at..end]);
        return end;
    }
    shape[k] = Entry::File;
    let mut at = write_each(shape, k + 1, list, at);
    for next in k as u32 + 1..shape::largest_next(shape, k) + 1 {
        shape[k] = Entry::Directory { next };
        at = write_each(shape, k + 1, list, at);
    }
    at
}

/// Writes the table of each shape of so many entries into `list`, one behind the other, in the order of
/// their shapes, and returns how many there are. Refuses 9, with nothing written, if it is not 1 to 8
/// entries, or if the list is short.
pub fn small_tables(entries: u32, list: &mut [u8]) -> Result<u32, Refusal>
    ensures answer { result ≡ small_tables_answer entries (length list.old) }
    ensures list_after { list.new ≡ small_tables_list entries list.old }
{
    let Some(number) = number_of_shapes(entries) else {
        return Err(Refusal::LimitOrMemory);
    };
    let count = entries as usize;
    if list.len() < number as usize * shape::table_size(count) {
        return Err(Refusal::LimitOrMemory);
    }
    let mut shape = [Entry::File; 8];
    shape[0] = Entry::Directory { next: entries };
    write_each(&mut shape[..count], 1, list, 0);
    Ok(number)
}
