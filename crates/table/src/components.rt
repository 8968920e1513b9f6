// A path cut into components: at `/` and `\` that are units of their own.
ghost use Rattle.std.specs.Prelude.{◌≡◌, ◌∷◌, ◌-◌, ◌≤◌, length, drop};
ghost use Rattle.std.specs.Iterator.{YieldsFirstBy, item_count};
ghost use Rattle.endian.specs.Bytes.{span};
ghost use Rattle.tree.specs.Lookup.{is_separator_unit, components};
ghost use Rattle.table.specs.Inner.Read.{unit_of};
ghost use Rattle.table.specs.Inner.Steps.{components_after};

use crate::units::{Unit, Units};
use std::marker::Model;

fn is_separator(unit: Unit) -> bool
    ensures { result ≡ is_separator_unit (unit_of unit) }
{
    matches!(unit, Unit::Single(b'/' | b'\\'))
}

/// The end of the component that starts at `at`: the next separator that is a unit of its own, or the path's
/// end.
pub fn component_end(path: &[u8], at: usize) -> usize
    requires { at ≤ length path.now }
    ensures further { at ≤ result }
    ensures within { result ≤ length path.now }
    ensures first { let name = span path.now at (result - at) in
        components (drop at path.now) ≡ name ∷ components_after path.now result }
{
    let mut units = Units::new(&path[at..]);
    match units.find(|unit| is_separator(*unit)) {
        // A separator is one byte.
        Some(_) => path.len() - units.rest().len() - 1,
        None => path.len(),
    }
}

/// The components of a path in turn; an empty path has one empty component. Contracts see the list of those
/// that are left.
// Kept: no derived equality (N): it would compare where the bytes lie too, and what contracts see is the
// list.
#[derive(Drop)]
pub struct Components<'a> {
    rest: Option<&'a [u8]>,
}

impl<'a> Model for Components<'a> {
    ghost use Rattle.std.specs.Prelude.{ℕ, List};
    ghost use Rattle.table.specs.Inner.Steps.{left_of};

    ghost Value = { List (List ℕ) };

    ghost view = { λ c. left_of c.rest };
}

impl<'a> Components<'a> {
    /// Those of `path`.
    pub fn new(path: &'a [u8]) -> Self
        ensures { result ≡ components path.now }
    {
        Components { rest: Some(path) }
    }
}

impl<'a> Iterator for Components<'a> {
    type Item = &'a [u8];

    ghost next_gives = { YieldsFirstBy (λ name. name.now) (λ rest. rest) };

    ghost remaining = { item_count (λ rest. rest) };

    fn next(&mut self) -> Option<&'a [u8]> {
        let path = self.rest?;
        let end = component_end(path, 0);
        self.rest = if end < path.len() {
            Some(&path[end + 1..])
        } else {
            None
        };
        Some(&path[..end])
    }
}
