// Whether the files of a new master fit below the disc end, and the place of each.
ghost use Rattle.std.specs.Prelude.{◌≡◌, ◌^◌, ◌<◌, ◌≤◌, ◌++◌, length, drop};
ghost use Rattle.placement.specs.Placement as placement_of;
ghost use Rattle.placement.specs.Placement.{least_end, offsets_of};

use crate::need::{need_of, whole_size};

/// Header and table, which end at byte `table_end`, and files of these sizes in bytes can be placed below
/// `disc_end`.
pub fn is_placeable(table_end: u32, disc_end: u32, sizes: &[u32]) -> bool
    requires { length sizes.now ≤ 16384 }
    ensures { result ≡ placement_of.is_placeable table_end disc_end sizes.now }
{
    let need = need_of(sizes);
    // Without a byte of a file, the disc may end with the table.
    let least_end = if need.whole == 0 {
        u64::from(table_end)
    } else {
        whole_size(table_end) + need.whole - need.rest
    };
    least_end <= u64::from(disc_end)
}

// Where a file of that size in bytes begins that is to lie at `at`: an empty one at 0.
fn offset_at(at: u64, size: u32) -> u32
    requires { 0 < size → at < 2 ^ 32 }
    ensures { result ≡ placement_of.offset_at at size }
{
    if size == 0 { 0 } else { at as u32 }
}

/// Places files of these sizes in bytes behind a table that ends at byte `table_end`: the offset of each, in
/// bytes from the start of the disc. Further words of `offsets` stay.
pub fn place(table_end: u32, sizes: &[u32], offsets: &mut [u32])
    requires files { length sizes.now ≤ 16384 }
    requires room { length sizes.now ≤ length offsets.old }
    requires disc_end { least_end table_end sizes.now < 2 ^ 32 }
    ensures { offsets.new ≡ offsets_of table_end sizes.now ++ drop (length sizes.now) offsets.old }
{
    let need = need_of(sizes);
    let mut next = whole_size(table_end);
    let end = next + need.whole;
    for (i, &size) in sizes.iter().enumerate() {
        let whole = whole_size(size);
        let at = if i == need.last { end - whole } else { next };
        offsets[i] = offset_at(at, size);
        if i != need.last {
            next += whole;
        }
    }
}
