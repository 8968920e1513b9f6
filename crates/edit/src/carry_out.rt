// What a decision does to the image.
ghost use Rattle.std.specs.Prelude.{◌≡◌, ◌+◌, length, replicate};
ghost use Rattle.endian.specs.Bytes.{put, span};
ghost use Rattle.header.specs.Verdicts.{fst_offset, fst_size};
ghost use Rattle.edit_rules.specs.Change.{image_with_table};
ghost use Rattle.edit.specs.Inner.Decision.{CopyFits, ZeroFits, TableFits, Fits, written_with};
ghost use Rattle.edit.specs.Inner.Decision.{Into, clipped_image};

use crate::decision::Writing;
use header::Field;

// unplug's `commit_file_tree`: the table, zeros over the lost tail of the old one, and the new size in the
// header.
fn commit(image: &mut [u8], bytes: &[u8], fst_offset: usize, fst_size: usize, size: usize)
    requires { TableFits (length image.old) (length bytes.now) fst_offset fst_size size }
    ensures { image.new ≡ image_with_table fst_offset fst_size (span bytes.now 0 size) image.old }
{
    endian::copy(bytes, 0, image, fst_offset, size);
    let tail = fst_size.saturating_sub(size);
    endian::fill(image, fst_offset + size, tail, 0);
    endian::write_u32(image, Field::FST_SIZE.at, size as u32);
}

// The table over the one that the image has.
pub(crate) fn write_table(image: &mut [u8], bytes: &[u8], size: usize)
    requires { let start = fst_offset image.old in
        TableFits (length image.old) (length bytes.now) start (fst_size image.old) size }
    ensures { let start = fst_offset image.old in
        image.new ≡ image_with_table start (fst_size image.old) (span bytes.now 0 size) image.old }
{
    let fst_offset = header::fst_offset(image) as usize;
    let fst_size = header::fst_size(image) as usize;
    commit(image, bytes, fst_offset, fst_size, size);
}

// The bytes of a file to its new place. No byte may be asked for at a place past the image: an empty file may
// go anywhere.
pub(crate) fn copy_kept(image: &mut [u8], source: usize, to: usize, n: usize)
    requires { CopyFits (length image.old) source to n }
    ensures { image.new ≡ put image.old to (span image.old source n) }
{
    if n == 0 {
        return;
    }
    endian::copy_within(image, source, to, n);
}

// Zeros over bytes that no file has any more.
fn zero_lost(image: &mut [u8], at: usize, n: usize)
    requires { ZeroFits (length image.old) at n }
    ensures { image.new ≡ put image.old at (replicate n 0) }
{
    if n == 0 {
        return;
    }
    endian::fill(image, at, n, 0);
}

// Copy, table, zeros: in this order.
pub(crate) fn write_change(image: &mut [u8], bytes: &[u8], size: usize, writing: Writing)
    requires { Fits image.old (length bytes.now) size writing }
    ensures { image.new ≡ written_with writing (span bytes.now 0 size) image.old }
{
    let Writing {
        old,
        place,
        kept,
        lost,
    } = writing;
    let fst_offset = header::fst_offset(image) as usize;
    let fst_size = header::fst_size(image) as usize;
    copy_kept(image, old.offset as usize, place.offset as usize, kept);
    commit(image, bytes, fst_offset, fst_size, size);
    zero_lost(image, lost.offset, lost.size);
}

// No byte may be asked for at a place past the image: an empty file may lie anywhere.
pub(crate) fn put_clip(image: &mut [u8], at: usize, clip: &[u8])
    requires { Into (length image.old) at (length clip.now) }
    ensures { image.new ≡ clipped_image image.old at clip.now }
{
    let n = clip.len();
    if n == 0 {
        return;
    }
    endian::copy(clip, 0, image, at, n);
}
