// The lines, and parts of them, by the numbers that stand in them.
ghost use Rattle.std.specs.Prelude.{◌∷◌, ◌++◌};
ghost use Rattle.listing.specs.Lines.{totals_line};
ghost use Rattle.listing.specs.Decimal.{number_field};
ghost use Rattle.listing.specs.Inner.Writing.{Appends};

use crate::buffer::TextBuffer;

/// The letter that begins a line, and two numbers.
pub fn put_pair(text: &mut TextBuffer<'_>, letter: u8, a: u32, b: u32)
    ensures { Appends text.old text.new (letter ∷ (number_field a ++ number_field b)) }
{
    text.push(letter);
    text.push_field(a);
    text.push_field(b);
}

/// The disc end and the used total.
pub fn put_totals(text: &mut TextBuffer<'_>, disc_end: u32, used: u32)
    ensures { Appends text.old text.new (totals_line disc_end used) }
{
    text.push_text(b"total");
    text.push_field(disc_end);
    text.push_text(b" used");
    text.push_field(used);
    text.push(b'\n');
}
