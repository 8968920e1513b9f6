// A file, found by the number of its entry.
ghost use Rattle.std.specs.Prelude.{◌≡◌, IfOk};
ghost use Rattle.tree.specs.Table.{nodes_of};
ghost use Rattle.edit_rules.specs.Edits.{file_verdict};
ghost use Rattle.edit.specs.Inner.Decision.{value_behind};
ghost use Rattle.edit.specs.Inner.Files as files_of;
ghost use Rattle.edit.specs.Inner.Files.{file_with_number, IsFileOf};

use crate::file::File;
use opened::OpenDisc;
use refusal::Refusal;
use space::DiscRegion;
use table::Table;
use tree::{Entry, Found};

fn file_of(number: u32, entry: Entry) -> Result<File, Refusal>
    ensures { result ≡ files_of.file_from_entry number entry }
{
    match entry {
        Entry::File(file) => Ok(File {
            number,
            place: DiscRegion {
                offset: file.offset,
                size: file.size,
            },
        }),
        Entry::Directory(_) => Err(Refusal::ExpectedFile),
    }
}

/// The file of that number: 15 if there is no such entry, 16 if it is a directory.
pub fn file_at(table: &Table<'_>, number: u32) -> Result<File, Refusal>
    ensures { let nodes = nodes_of table.now in
        result ≡ value_behind (file_verdict nodes number) (file_with_number nodes number) }
{
    match table.entry(number) {
        Found::Refused(cause) => Err(cause),
        Found::At(_, entry) => file_of(number, entry),
    }
}

/// The file of that number on an open disc: 15 and 16, as `file_at`.
pub fn file_on_disc(disc: &OpenDisc<'_>, number: u32) -> Result<File, Refusal>
    ensures answer { let nodes = disc.now.disc.nodes in
        result ≡ value_behind (file_verdict nodes number) (file_with_number nodes number) }
    ensures file { IfOk result (IsFileOf disc.now) }
{
    file_at(&Table::new(disc.table()), number)
}
