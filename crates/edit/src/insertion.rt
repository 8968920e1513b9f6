// What an insert of a file or a directory decides on.

ghost use Rattle.std.specs.Prelude.{length};
ghost use Rattle.edit_rules.specs.Edits.{plan_of};
ghost use Rattle.edit.specs.Inner.Decision.{Decides};
ghost use Rattle.edit.specs.Asked.{insertion};

use crate::decision::Decision;
use crate::new_entry::NewEntry;
use crate::table_only;
use opened::OpenDisc;
use refusal::Refusal;
use table::Table;
use table_writing::Growing;

/// An empty file or an empty directory as the last child of a directory: 15, 13, 17, 19, 12, then the tests
/// of the new table, which stands in the bytes where it is decided on.
pub fn insert(disc: &OpenDisc<'_>, bytes: &mut [u8], new: NewEntry<'_>) -> Result<Decision, Refusal>
    ensures { let asked = insertion new.entry.kind new.entry.parent new.entry.name.now in
        Decides (plan_of asked disc.now.disc) disc.now (length bytes.old) bytes.new result }
{
    new.check(&Table::new(disc.table()))?;
    let size = table_only::start_table(disc, bytes)?;
    let mut table = Growing::new(bytes, size, table_only::lent_words(disc));
    let number = table.grow(new.parent as usize, new.kind, new.name)?;
    table_only::place_table(disc, &table, number as u32)
}
