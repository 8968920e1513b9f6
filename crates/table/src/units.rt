// The units of a text: a lead byte with its trail byte is one, and so is any other byte.
// A name is judged, and a path is cut, by units.
ghost use Rattle.std.specs.Prelude.{◌≡◌, ◌==◌, slice_index};
ghost use Rattle.std.specs.Iterator.{YieldsFirstBy, item_count};
ghost use Rattle.tree.specs.Units.{is_lead_byte, is_trail_byte, units};
ghost use Rattle.tree.specs.Table.{is_plain_byte, is_safe_byte, is_plain_unit, is_safe_unit};
ghost use Rattle.tree.specs.Inner.Pairs.{is_pair_at};
ghost use Rattle.table.specs.Inner.Texts.{is_clean_byte, is_clean_unit};
ghost use Rattle.table.specs.Inner.Read.{unit_of};

use std::marker::Model;

/// The byte at `at`; a text ends at the slice's end as it does at a zero byte.
pub fn byte_at(text: &[u8], at: usize) -> u8
    ensures { result ≡ slice_index text.now at }
{
    if at < text.len() { text[at] } else { 0 }
}

/// Whether a pair may start with this byte.
pub fn is_lead(b: u8) -> bool
    ensures { result ≡ is_lead_byte b }
{
    matches!(b, 0x81..=0x9F | 0xE0..=0xFC)
}

// Whether a pair may end with this byte.
fn is_trail(b: u8) -> bool
    ensures { result ≡ is_trail_byte b }
{
    matches!(b, 0x40..=0x7E | 0x80..=0xFC)
}

/// Whether the unit at `at` is a pair.
pub fn is_pair(text: &[u8], at: usize) -> bool
    ensures { result ≡ is_pair_at text.now at }
{
    is_lead(byte_at(text, at)) && is_trail(byte_at(text, at + 1))
}

// Whether a name may have this byte as a unit.
fn is_plain(b: u8) -> bool
    ensures { result ≡ is_plain_byte b }
{
    matches!(b, 0x20..=0x7E | 0xA1..=0xDF)
}

// Whether this byte as a unit is safe in a name.
fn is_safe(b: u8) -> bool
    ensures { result ≡ is_safe_byte b }
{
    !matches!(b, b'/' | b'\\' | b':')
}

/// Whether no name is refused for this byte where it is a unit: the end of a text, or plain and
/// safe. Most are below 0x7F, and are looked at first.
pub fn is_clean(b: u8) -> bool
    ensures { result ≡ is_clean_byte b }
{
    match b {
        0x20..=0x7E => is_safe(b),
        _ => b == 0 || is_plain(b),
    }
}

/// A byte of its own, or a lead byte with its trail byte.
#[derive(Clone, Copy, PartialEq, Eq, Debug)]
pub enum Unit {
    Single(u8),
    Pair(u8, u8),
}

impl Unit {
    /// Whether a name may have this unit: a pair, or a byte 0x20 to 0x7E or 0xA1 to 0xDF.
    pub fn is_plain(self) -> bool
        ensures { result ≡ is_plain_unit (unit_of self) }
    {
        match self {
            Unit::Single(b) => is_plain(b),
            Unit::Pair(_, _) => true,
        }
    }

    /// Whether this unit is safe in a name: not `/`, `\` or `:`.
    pub fn is_safe(self) -> bool
        ensures { result ≡ is_safe_unit (unit_of self) }
    {
        match self {
            Unit::Single(b) => is_safe(b),
            Unit::Pair(_, _) => true,
        }
    }

    /// Whether no name is refused for this unit, nor a text's end.
    pub fn is_clean(self) -> bool
        ensures { result ≡ is_clean_unit (unit_of self) }
    {
        match self {
            Unit::Single(b) => is_clean(b),
            Unit::Pair(_, _) => true,
        }
    }
}

/// A text unit by unit, from its start. Contracts see the list of those that are left.
// Kept: no derived equality (N): it would compare the units passed too, and contracts see the list.
#[derive(Drop)]
pub struct Units<'a> {
    text: &'a [u8],
    at: usize,
}

impl<'a> Model for Units<'a> {
    ghost use Rattle.std.specs.Prelude.{List, ◌≤◌, length, drop};
    ghost use Rattle.tree.specs.Units.{TextUnit, units};

    ghost Value = { List TextUnit };

    ghost view = { λ u. units (drop u.at u.text.now) };

    ghost invariant = { λ u. u.at ≤ length u.text.now };
}

impl<'a> Units<'a> {
    /// The units of `text`.
    pub fn new(text: &'a [u8]) -> Self
        ensures { result ≡ units text.now }
    {
        Units { text, at: 0 }
    }

    /// The bytes of the units that are left.
    pub fn rest(&self) -> &'a [u8]
        ensures { units result.now ≡ self.now }
    {
        &self.text[self.at..]
    }
}

impl<'a> Iterator for Units<'a> {
    type Item = Unit;

    ghost next_gives = { YieldsFirstBy unit_of (λ rest. rest) };

    ghost remaining = { item_count (λ rest. rest) };

    fn next(&mut self) -> Option<Unit> {
        let text = self.text;
        let at = self.at;
        if text.len() <= at {
            return None;
        }
        if is_pair(text, at) {
            self.at = at + 2;
            return Some(Unit::Pair(text[at], text[at + 1]));
        }
        self.at = at + 1;
        Some(Unit::Single(text[at]))
    }
}
