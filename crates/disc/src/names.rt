// What a text alone tells, with no image: its first unit, a path's first component, whether a name is
// refused.
ghost use Rattle.std.specs.Prelude.{◌≡◌};
ghost use Rattle.table.specs.Inner.Read.{unit_of};
ghost use Rattle.disc.specs.Texts as texts_of;
ghost use Rattle.disc.specs.Texts.{unit_judged, unit_told};
ghost use Rattle.tree.specs.Table.{units_verdict};

use crate::answers::FirstUnit;
use refusal::{Refusal, Verdict};
use table::{Components, Unit, Units};

// What a unit is refused for in a name: 12, then 13.
fn judge_unit(unit: Unit) -> Verdict
    ensures { result ≡ unit_judged (unit_of unit) }
{
    if !unit.is_plain() {
        return Err(Refusal::InvalidNameByte);
    }
    if !unit.is_safe() {
        return Err(Refusal::UnsafeName);
    }
    Ok(())
}

fn tell(unit: Unit) -> FirstUnit
    ensures { result ≡ unit_told (unit_of unit) }
{
    let len = match unit {
        Unit::Single(_) => 1,
        Unit::Pair(_, _) => 2,
    };
    FirstUnit {
        len,
        verdict: judge_unit(unit),
    }
}

/// The first unit of a text: its bytes, 0 for an empty text, and what it is refused for in a name.
#[tactic(auto, unfolding(crate::specs::Texts::first_unit))]
pub fn first_unit(text: &[u8]) -> FirstUnit
    ensures { result ≡ texts_of.first_unit text.now }
{
    match Units::new(text).next() {
        Some(unit) => tell(unit),
        None => FirstUnit {
            len: 0,
            verdict: Ok(()),
        },
    }
}

/// The bytes of a path's first component: up to the first `/` or `\` that is a unit of its own, or to
/// the end.
#[tactic(auto, unfolding(crate::specs::Texts::component_length))]
pub fn component_length(path: &[u8]) -> usize
    ensures { result ≡ texts_of.component_length path.now }
{
    match Components::new(path).next() {
        Some(name) => name.len(),
        None => 0,
    }
}

/// What opening refuses an entry's name for: 12, then 13.
pub fn judge_name(name: &[u8]) -> Verdict
    ensures { result ≡ units_verdict name.now }
{
    table::units_verdict(name)
}
