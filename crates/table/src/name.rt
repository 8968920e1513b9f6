// A text of a table compared with a name, and measured.
ghost use Rattle.std.specs.Prelude.{◌≡◌, false, ◌+◌, ◌≤◌, ◌<◌, length, ◌==◌};
ghost use Rattle.std.specs.List.{list_any};
ghost use Rattle.endian.specs.Bytes.{are_same_bytes};
ghost use Rattle.table.specs.Inner.Texts.{text_at};

use crate::units;

// Whether the text at `at` has the bytes of `name`. One byte tells a text of another length apart.
// Kept: it answers a question that stands in a condition, and refuses nothing.
pub fn text_is(table: &[u8], at: usize, name: &[u8]) -> bool
    requires inside { at ≤ length table.now }
    requires no_zero { list_any (λ b. b == 0) name.now ≡ false }
    ensures { result ≡ are_same_bytes (text_at table.now at) name.now }
{
    let n = name.len();
    if table.len() - at < n {
        return false;
    }
    if units::byte_at(table, at + n) != 0 {
        return false;
    }
    endian::same(table, at, name, 0, n)
}

/// The length of the text at `at`, whose zero byte is in the table.
// Kept: the loop by index tests no bound, so that the compiler makes strlen of it; for 12 bytes it took 2.9
// ns, `position` 7.1 and a `for` 7.8. The bar that the two miss: a call with ASCII names takes at most 10
// percent more (docs/SPEED.md).
pub fn text_length(table: &[u8], at: usize) -> usize
    requires { at + length (text_at table.now at) < length table.now }
    ensures { result ≡ length (text_at table.now at) }
{
    let mut i = at;
    while table[i] != 0 {
        i += 1;
    }
    i - at
}
