// What a refusal of opening is about.
ghost use Rattle.std.specs.Prelude.{◌≡◌};
ghost use Rattle.opened.specs.Faults.{about_of};

use crate::conflicts::Layout;
use crate::cut::table_of;
use refusal::Refusal;
use table::Table;

/// Whose a used region is.
#[derive(Clone, Copy, PartialEq, Eq, Debug)]
pub enum Owner {
    /// The bytes from 0 up to the table's end.
    Table,
    /// The program, where it is a region of its own.
    Program,
    /// The file with this number.
    Entry(u32),
}

/// What of an image a refusal is about.
#[derive(Clone, Copy, PartialEq, Eq, Debug)]
pub enum About {
    /// Nothing more is told than the cause.
    Image,
    /// The first entry behind the root that is refused: 5, 6, 9 for the depth, 10 to 13.
    Entry(u32),
    /// Two used regions that share a byte, in the order table, program, files: 14.
    Shared(Owner, Owner),
    /// A used region that passes the disc end: 14.
    PastEnd(Owner),
    /// The first section, 0 to 6 of text and 7 to 17 of data, whose offset + size passes 2^32 - 1: 24.
    Section(u32),
}

/// What opening refuses an image for, and what of it that is about.
#[derive(Clone, Copy, PartialEq, Eq, Debug)]
pub struct Fault {
    pub cause: Refusal,
    pub about: About,
}

/// What the refusal of an image is about where so many working words are lent.
// Kept: the tests once more, in their order, and not by the cause: which of them refused says where to look.
pub fn subject(image: &[u8], words: usize) -> About
    ensures { result ≡ about_of image.now words }
{
    if header::check_bounds(image).is_err() {
        return About::Image;
    }
    let table = table_of(image);
    if table::check(table, words).is_err() {
        return match table::refused_entry(table, words) {
            Some(k) => About::Entry(k),
            None => About::Image,
        };
    }
    let program = executable::program::read(image);
    if program.is_err() {
        return match executable::refused_section(image, header::dol_offset(image) as usize) {
            Some(i) => About::Section(i),
            None => About::Image,
        };
    }
    let layout = Layout {
        table: Table::new(table),
        table_end: header::table_end(image) as u32,
        own: executable::own_region(program, header::fst_offset(image)),
    };
    layout
        .first_conflict(header::disc_end(image) as u32)
        .unwrap_or(About::Image)
}
