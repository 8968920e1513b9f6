// Working memory that a caller lends, and finds zero afterwards.
ghost use Rattle.std.specs.Prelude.{◌≡◌, length, replicate};

/// What working memory is made of: words or bytes.
pub trait Zero: Copy {
    ghost zero: { Self };

    /// Zeroes them all.
    fn zero_all(memory: &mut [Self])
        ensures { memory.new ≡ replicate (length memory.old) zero };
}

impl Zero for u8 {
    ghost zero = { 0 };

    fn zero_all(memory: &mut [u8]) {
        memory.fill(0);
    }
}

impl Zero for u32 {
    ghost zero = { 0 };

    fn zero_all(memory: &mut [u32]) {
        memory.fill(0);
    }
}

/// Words or bytes that are zero again when this is dropped, on every way out.
// Kept: no derived equality, which would ask whether two callers' memory holds the same.
pub struct Lent<'a, T: Zero> {
    pub memory: &'a mut [T],
}

impl<'a, T: Zero> Lent<'a, T> {
    pub fn new(memory: &'a mut [T]) -> Self
        ensures same_reference { result.memory.ghost_name ≡ memory.entry.ghost_name }
        ensures memory { result.memory.now ≡ memory.old }
    {
        Lent { memory }
    }
}

impl<T: Zero> Drop for Lent<'_, T> {
    fn drop(self)
        ensures { self.exit.0.now ≡ replicate (length self.entry.memory.now) T.zero }
    {
        let Lent { memory } = self;
        T::zero_all(memory);
    }
}
