// The tests of a name.
ghost use Rattle.std.specs.Prelude.{◌≡◌};
ghost use Rattle.tree.specs.Table as table_of;
ghost use Rattle.table.specs.Inner.Texts as texts_of;

use crate::units::Units;
use refusal::{Refusal, Verdict};

/// Whether the name is `.` or `..`.
pub fn is_dots(name: &[u8]) -> bool
    ensures { result ≡ table_of.is_dots name.now }
{
    matches!(name, b"." | b"..")
}

// Whether the name is empty, `.` or `..`.
fn is_nameless(name: &[u8]) -> bool
    ensures { result ≡ texts_of.is_nameless name.now }
{
    name.is_empty() || is_dots(name)
}

/// Whether each unit of the name is a pair, or a byte 0x20 to 0x7E or 0xA1 to 0xDF.
pub fn is_plain(name: &[u8]) -> bool
    ensures { result ≡ table_of.is_plain name.now }
{
    Units::new(name).all(|unit| unit.is_plain())
}

/// Whether the name is not empty, not `.` or `..`, and without `/`, `\` and `:` as units.
pub fn is_safe(name: &[u8]) -> bool
    ensures { result ≡ table_of.is_safe name.now }
{
    !is_nameless(name) && Units::new(name).all(|unit| unit.is_safe())
}

/// What a name by itself is refused for: 12 where it is not plain, then 13 where it is not safe.
pub fn units_verdict(name: &[u8]) -> Verdict
    ensures { result ≡ table_of.units_verdict name.now }
{
    if !is_plain(name) {
        return Err(Refusal::InvalidNameByte);
    }
    if !is_safe(name) {
        return Err(Refusal::UnsafeName);
    }
    Ok(())
}
