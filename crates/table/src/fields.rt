// The fields of an entry's record, 12 bytes from 12 * k on. Their places stand here, and nowhere else but
// where a whole record is written.
ghost use Rattle.std.specs.Prelude.{◌≡◌, ◌+◌, ◌*◌, ◌≤◌, ◌<◌, ◌^◌, length};
ghost use Rattle.endian.specs.Bytes.{be32_bytes, put};
ghost use Rattle.tree.specs.Table as table_of;

/// Where the name of entry k starts among the texts.
#[inline]
pub fn name_offset(table: &[u8], k: usize) -> u32
    requires { 12 * k + 12 ≤ length table.now }
    ensures value { result ≡ table_of.name_offset table.now k }
    ensures small { result < 2 ^ 24 }
{
    endian::read_u24(table, 12 * k + 1)
}

/// The third field of entry k: a file's offset, the parent that a directory stores.
#[inline]
pub fn offset_or_parent(table: &[u8], k: usize) -> u32
    requires { 12 * k + 12 ≤ length table.now }
    ensures { result ≡ table_of.offset_or_parent table.now k }
{
    endian::read_u32(table, 12 * k + 4)
}

/// The fourth field of entry k: a file's size, a directory's next.
#[inline]
pub fn size_or_next(table: &[u8], k: usize) -> u32
    requires { 12 * k + 12 ≤ length table.now }
    ensures { result ≡ table_of.size_or_next table.now k }
{
    endian::read_u32(table, 12 * k + 8)
}

/// Sets the third field of entry k.
#[inline]
pub fn set_offset_or_parent(table: &mut [u8], k: usize, value: u32)
    requires { 12 * k + 12 ≤ length table.old }
    ensures { table.new ≡ put table.old (12 * k + 4) (be32_bytes value) }
{
    endian::write_u32(table, 12 * k + 4, value);
}

/// Sets the fourth field of entry k.
#[inline]
pub fn set_size_or_next(table: &mut [u8], k: usize, value: u32)
    requires { 12 * k + 12 ≤ length table.old }
    ensures { table.new ≡ put table.old (12 * k + 8) (be32_bytes value) }
{
    endian::write_u32(table, 12 * k + 8, value);
}
