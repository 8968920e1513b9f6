// A value or a refusal in C: 0 and the value in the memory that the caller lends, or the refusal's
// number and that memory as it was.
ghost use Rattle.std.specs.Prelude.{◌≡◌, ℕ, List, []};
ghost use Rattle.counter.specs.Replies.{number_told, slots_told, one_word};

use refusal::Refusal;

/// What C is lent: slots in a row, with their words. C reads slots, so which word stands where is written in
/// `slots`, and not left to how a struct lies in memory.
pub trait Value: Copy {
    ghost words: { Self → List ℕ };
}

pub fn give<T: Value>(slot: &mut T, answer: Result<T, Refusal>) -> u32
    ensures number { result ≡ number_told answer }
    ensures slot_after { T.words slot.new ≡ slots_told T.words (T.words slot.old) answer }
{
    match answer {
        Ok(value) => {
            *slot = value;
            0
        }
        Err(cause) => cause.into(),
    }
}

// ---- the values

// Where there is no value.
impl Value for () {
    ghost words = { λ _. [] };
}

// A size, an entry's number, how many regions or tables, or the length of a table.
impl Value for u32 {
    ghost words = { one_word };
}

// The length of a text, or of a part of a path.
impl Value for u64 {
    ghost words = { one_word };
}

impl<const N: usize> Value for [u32; N] {
    ghost words = { λ ws. ws };
}

impl<const N: usize> Value for [u64; N] {
    ghost words = { λ ws. ws };
}
