// The calls on a text alone: its first unit, a path's first component, whether a name is refused.
ghost use Rattle.std.specs.Prelude.{◌≡◌};
ghost use Rattle.disc.specs.Texts.{first_unit, component_length};
ghost use Rattle.tree.specs.Table.{units_verdict};
ghost use Rattle.counter.specs.Replies.{reply, accepted_reply, number_told, one_word, unit_words};

use crate::answer::give;
use refusal::Verdict;

fn number(verdict: Verdict) -> u32
    ensures { result ≡ number_told verdict }
{
    give(&mut (), verdict)
}

// Never refused, nor is the next: the answer has what the unit is refused for in a name.
// Kept: two words, of which the second is a number, as C reads it (C).
#[unsafe(no_mangle)]
pub extern "C" fn counter_unit(text: &[u8], answer: &mut [u32; 2]) -> u32
    ensures { reply result answer.new ≡ accepted_reply (unit_words (first_unit text.now)) }
{
    let unit = disc::first_unit(text);
    give(answer, Ok([unit.len, number(unit.verdict)]))
}

#[unsafe(no_mangle)]
pub extern "C" fn counter_component(path: &[u8], answer: &mut u64) -> u32
    ensures { reply result (one_word answer.new)
        ≡ accepted_reply (one_word (component_length path.now)) }
{
    let length = disc::component_length(path);
    give(answer, Ok(length as u64))
}

#[unsafe(no_mangle)]
pub extern "C" fn counter_name(name: &[u8]) -> u32
    ensures { result ≡ number_told (units_verdict name.now) }
{
    number(disc::judge_name(name))
}
