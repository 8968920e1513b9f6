// Fields of 1, 3 and 4 bytes, highest byte first, at an offset of a slice;
// and spans of bytes: copied, filled, compared.
#![tactic(auto)]

ghost use Rattle.std.specs.Prelude.{◌≡◌, [], ◌∷◌, ◌+◌, ◌-◌, ◌*◌, ◌≤◌, ◌<◌, ◌^◌, ◌==◌, slice_index};
ghost use Rattle.std.specs.Prelude.{min, length, replicate};
ghost use Rattle.endian.specs.Bytes.{be24, be32, be24_bytes, be32_bytes, put, span, are_same_bytes};

/// The byte at `at`.
pub fn read_u8(s: &[u8], at: usize) -> u8
    requires { at < length s.now }
    ensures { result ≡ slice_index s.now at }
{
    s[at]
}

/// The number in the 3 bytes at `at`, highest byte first.
#[tactic(auto, unfolding(crate::specs::Bytes::be24))]
pub fn read_u24(s: &[u8], at: usize) -> u32
    requires { at + 3 ≤ length s.now }
    ensures value { result ≡ be24 s.now at }
    ensures small { result < 2 ^ 24 }
{
    u32::from_be_bytes([0, s[at], s[at + 1], s[at + 2]])
}

/// The number in the 4 bytes at `at`, highest byte first.
#[tactic(auto, unfolding(crate::specs::Bytes::be32))]
pub fn read_u32(s: &[u8], at: usize) -> u32
    requires { at + 4 ≤ length s.now }
    ensures { result ≡ be32 s.now at }
{
    u32::from_be_bytes([s[at], s[at + 1], s[at + 2], s[at + 3]])
}

/// Writes the byte at `at`.
pub fn write_u8(s: &mut [u8], at: usize, v: u8)
    requires { at < length s.old }
    ensures { s.new ≡ put s.old at (v ∷ []) }
{
    s[at] = v;
}

/// Writes the number into the 3 bytes at `at`, highest byte first.
pub fn write_u24(s: &mut [u8], at: usize, v: u32)
    requires inside { at + 3 ≤ length s.old }
    requires small { v < 2 ^ 24 }
    ensures { s.new ≡ put s.old at (be24_bytes v) }
{
    let [_, high, middle, low] = v.to_be_bytes();
    s[at..at + 3].copy_from_slice(&[high, middle, low]);
}

/// Writes the number into the 4 bytes at `at`, highest byte first.
pub fn write_u32(s: &mut [u8], at: usize, v: u32)
    requires { at + 4 ≤ length s.old }
    ensures { s.new ≡ put s.old at (be32_bytes v) }
{
    s[at..at + 4].copy_from_slice(&v.to_be_bytes());
}

/// Copies n bytes from `from` of one slice to `to` of another.
// Kept: here and below two places and a length; a struct of them would be made for one call each.
pub fn copy(source: &[u8], from: usize, s: &mut [u8], to: usize, n: usize)
    requires source { from + n ≤ length source.now }
    requires target { to + n ≤ length s.old }
    ensures { s.new ≡ put s.old to (span source.now from n) }
{
    s[to..to + n].copy_from_slice(&source[from..from + n]);
}

// How many bytes go at once where a span of one slice is copied within it.
const PART: usize = 65536;

// Part k of the n bytes, by way of an array, so it does not matter where the two spans lie.
// Kept: parts of a fixed size by way of an array, and a loop over them: the compiler makes one memmove of
// each part. Std's `copy_within` is a loop over elements; it took 1.04 to 1.7 times as long for 1 MiB, 0.86
// to 1.15 for 64.
fn copy_part(s: &mut [u8], from: usize, to: usize, n: usize, k: usize)
    requires source { from + n ≤ length s.old }
    requires target { to + n ≤ length s.old }
    requires part { PART * k < n }
    ensures { let start = PART * k in
        s.new ≡ put s.old (to + start) (span s.old (from + start) (min (n - start) PART)) }
{
    let start = PART * k;
    let len = (n - start).min(PART);
    let mut part = [0; PART];
    copy(s, from + start, &mut part, 0, len);
    copy(&part, 0, s, to + start, len);
}

/// Copies n bytes from `from` to `to` of the same slice, whether or not the two spans overlap.
pub fn copy_within(s: &mut [u8], from: usize, to: usize, n: usize)
    requires source { from + n ≤ length s.old }
    requires target { to + n ≤ length s.old }
    ensures { s.new ≡ put s.old to (span s.old from n) }
{
    let parts = n.div_ceil(PART);
    if to <= from || n <= to - from {
        // The lowest part first: right where the bytes go down, or the two spans are apart.
        for k in 0..parts {
            copy_part(s, from, to, n, k);
        }
    } else {
        // The highest part first, where the bytes go up.
        for k in (0..parts).rev() {
            copy_part(s, from, to, n, k);
        }
    }
}

/// Writes n times the byte b from `at` on.
pub fn fill(s: &mut [u8], at: usize, n: usize, b: u8)
    requires { at + n ≤ length s.old }
    ensures { s.new ≡ put s.old at (replicate n b) }
{
    s[at..at + n].fill(b);
}

/// Whether the n bytes from `at` of one slice are those from `start` of another.
pub fn same(a: &[u8], at: usize, b: &[u8], start: usize, n: usize) -> bool
    requires first { at + n ≤ length a.now }
    requires second { start + n ≤ length b.now }
    ensures { result ≡ are_same_bytes (span a.now at n) (span b.now start n) }
{
    a[at..at + n] == b[start..start + n]
}
