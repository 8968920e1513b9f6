// Texts by blocks of 1,024 bytes. The two marks of a block say whether the text that starts with it, and the
// one that starts a byte later, is fit; the units of a text leave the block before at the one place or the
// other. So a name costs at most 1,024 bytes, even where 16,384 names share one text of 1 MiB.
ghost use Rattle.std.specs.Prelude.{◌≡◌, true, ◌≤◌};
ghost use Rattle.table.specs.Inner.Blocks.{IsFit};

use crate::{passing, text, units};
use std::marker::Model;

// The marks of the texts of a table that stand in it from `base` on. Contracts see the table, and where they
// start.
#[derive(Drop)]
struct Marks<'a> {
    table: &'a [u8],
    base: usize,
    // Kept: of a fixed size (C): nothing allocates, and the texts of 1 MiB have 1,024 blocks.
    set: [bool; 2048],
}

impl<'a> Model for Marks<'a> {
    ghost use Rattle.table.specs.Inner.Blocks.{TextsFrom, HasMarks};

    ghost Value = { TextsFrom };

    ghost view = { λ m. record { table = m.table.now; base = m.base } };

    ghost invariant = { λ m. HasMarks m.table.now m.base m.set };
}

impl<'a> Marks<'a> {
    // Marks the blocks, the last first, since each asks the next.
    #[cold]
    fn new(table: &'a [u8], base: usize) -> Self
        requires { base ≤ 196608 }
        ensures table { result.table ≡ table.now }
        ensures base { result.base ≡ base }
    {
        let mut marks = Marks {
            table,
            base,
            set: [false; 2048],
        };
        // The blocks that start in the table or where it ends: no text leaves a block for one behind. Too few
        // would cost only time.
        let blocks = table.len().saturating_sub(base) / 1024 + 1;
        // Kept: by number (N): each turn asks the marks behind, so that they cannot be lent one by one, and
        // the place that a mark is about is reckoned from its number.
        for mark in (0..(2 * blocks).min(2048)).rev() {
            let fit = marks.is_fit(base + (1024 * (mark / 2) + mark % 2));
            marks.set[mark] = fit;
        }
        marks
    }

    // Whether the text at `at` is fit: its units in this block, then a mark of the next. Where false is wrong
    // it costs only time, so that is not proved. In a function of its own: inlined, it made the walk over names
    // slower where nothing is marked.
    #[inline(never)]
    fn is_fit(&self, at: usize) -> bool
        requires from { self.now.base ≤ at }
        requires near { at ≤ 33554432 }
        ensures { (result ≡ true) → IsFit self.now.table at }
    {
        let next = (at - self.base) / 1024 + 1;
        let end = self.base + 1024 * next;
        let place = passing::pass_units(self.table, at, end);
        if end <= place {
            let mark = 2 * next + (place - end);
            return mark < 2048 && self.set[mark];
        }
        units::byte_at(self.table, place) == 0
    }
}

/// The texts of a table, which stand in it from `base` on, with what is known of them: that all their units
/// are clean, or else the marks. Contracts see the table, and where they start.
// Kept: no derived equality (N): it would compare what is known so far, and contracts see only the texts.
#[derive(Drop)]
pub struct Survey<'a> {
    table: &'a [u8],
    base: usize,
    // No lead byte stands from `base` up to here.
    first: usize,
    // None while all units are clean, and each text that was asked for starts with one.
    marks: Option<Marks<'a>>,
}

impl<'a> Model for Survey<'a> {
    ghost use Rattle.table.specs.Inner.Blocks.{TextsFrom, IsSurveyed};

    ghost Value = { TextsFrom };

    ghost view = { λ t. record { table = t.table.now; base = t.base } };

    ghost invariant = { λ t. IsSurveyed t.table.now t.base t.first t.marks };
}

impl<'a> Survey<'a> {
    /// Looks at the texts once; the blocks are marked only where some unit is not clean.
    pub fn new(table: &'a [u8], base: usize) -> Self
        requires { base ≤ 196608 }
        ensures table { result.table ≡ table.now }
        ensures base { result.base ≡ base }
    {
        let first = text::clean_end(table, base);
        let marks = if text::is_clean_from(table, first) {
            None
        } else {
            Some(Marks::new(table, base))
        };
        Survey {
            table,
            base,
            first,
            marks,
        }
    }

    // The blocks are marked: until then all texts were clean. In a function of its own, since the marks are
    // zeroed where a function that makes them begins.
    #[cold]
    #[inline(never)]
    fn mark(&mut self, at: usize) -> bool
        requires from { self.old.base ≤ at }
        requires near { at ≤ 33554432 }
        ensures same { self.new ≡ self.old }
        ensures fit { (result ≡ true) → IsFit self.old.table at }
    {
        let marks = Marks::new(self.table, self.base);
        let fit = marks.is_fit(at);
        self.marks = Some(marks);
        fit
    }

    /// Whether no unit of the text at `at` is one that a name is refused for. Where all texts are clean, only
    /// one that may start inside a pair is looked at; the blocks are marked at the first such one, and from
    /// then on no text is taken as clean. False may be wrong.
    pub fn is_fit(&mut self, at: usize) -> bool
        requires from { self.old.base ≤ at }
        requires near { at ≤ 33554432 }
        ensures same { self.new ≡ self.old }
        ensures fit { (result ≡ true) → IsFit self.old.table at }
    {
        if let Some(marks) = &self.marks {
            return marks.is_fit(at);
        }
        if at <= self.first {
            return true;
        }
        if !units::is_lead(units::byte_at(self.table, at - 1)) {
            return true;
        }
        self.mark(at)
    }
}
