// The edits of an image, each a line over the one way through every edit.
ghost use Rattle.edit_rules.specs.Edits as edits;
ghost use Rattle.edit_rules.specs.Edits.{number_behind};
ghost use Rattle.edit_rules.specs.Promise.{loan, only_verdict, IsEdited};

use crate::new_entry::NewEntry;
use crate::pipeline;
use crate::pipeline::Edit;
use refusal::{Refusal, Verdict};
use table_writing::Kind;
use totals::Totals;

// Kept: `image`, `words`, `bytes`, `totals` in each call (C): the memory that a call of the library is lent.
/// A bare table rewrite.
pub fn rewrite(
    image: &mut [u8],
    words: &mut [u32],
    bytes: &mut [u8],
    totals: &mut Totals,
    team: u32,
) -> Verdict
    ensures { let before = loan image.old words.old bytes.old totals.old in
        let after = loan image.new words.new bytes.new totals.new in
        IsEdited only_verdict edits.rewrite team before after result }
{
    pipeline::done(image, words, bytes, totals, team, Edit::Rewrite)
}

/// The file goes to another offset.
pub fn move_file(
    image: &mut [u8],
    words: &mut [u32],
    bytes: &mut [u8],
    totals: &mut Totals,
    team: u32,
    file: u32,
    offset: u32,
) -> Verdict
    ensures { let before = loan image.old words.old bytes.old totals.old in
        let after = loan image.new words.new bytes.new totals.new in
        IsEdited only_verdict (edits.move_file file offset) team before after result }
{
    pipeline::done(
        image,
        words,
        bytes,
        totals,
        team,
        Edit::Move { file, offset },
    )
}

/// The file gets another size, and another place where it cannot grow where it is.
pub fn resize_file(
    image: &mut [u8],
    words: &mut [u32],
    bytes: &mut [u8],
    totals: &mut Totals,
    team: u32,
    file: u32,
    size: u32,
) -> Verdict
    ensures { let before = loan image.old words.old bytes.old totals.old in
        let after = loan image.new words.new bytes.new totals.new in
        IsEdited only_verdict (edits.resize_file file size) team before after result }
{
    pipeline::done(
        image,
        words,
        bytes,
        totals,
        team,
        Edit::Resize { file, size },
    )
}

/// Afterwards the file is the clip.
pub fn fill_file(
    image: &mut [u8],
    words: &mut [u32],
    bytes: &mut [u8],
    totals: &mut Totals,
    team: u32,
    file: u32,
    clip: &[u8],
) -> Verdict
    ensures { let before = loan image.old words.old bytes.old totals.old in
        let after = loan image.new words.new bytes.new totals.new in
        IsEdited only_verdict (edits.fill_file file clip.now) team before after result }
{
    pipeline::done(image, words, bytes, totals, team, Edit::Fill { file, clip })
}

// Kept: two inserts of one shape (C): each is a call of the library, with a promise of its own.
/// An empty file, with offset 0, as last child of a directory; its number.
pub fn insert_file(
    image: &mut [u8],
    words: &mut [u32],
    bytes: &mut [u8],
    totals: &mut Totals,
    team: u32,
    parent: u32,
    name: &[u8],
) -> Result<u32, Refusal>
    ensures { let before = loan image.old words.old bytes.old totals.old in
        let after = loan image.new words.new bytes.new totals.new in
        IsEdited number_behind (edits.insert_file parent name.now) team before after result }
{
    let kind = Kind::File;
    let new = NewEntry { parent, kind, name };
    pipeline::run(image, words, bytes, totals, team, Edit::Insert(new))
}

/// An empty directory as last child of a directory; its number.
pub fn insert_directory(
    image: &mut [u8],
    words: &mut [u32],
    bytes: &mut [u8],
    totals: &mut Totals,
    team: u32,
    parent: u32,
    name: &[u8],
) -> Result<u32, Refusal>
    ensures { let before = loan image.old words.old bytes.old totals.old in
        let after = loan image.new words.new bytes.new totals.new in
        IsEdited number_behind (edits.insert_directory parent name.now) team before after result }
{
    let kind = Kind::Directory;
    let new = NewEntry { parent, kind, name };
    pipeline::run(image, words, bytes, totals, team, Edit::Insert(new))
}

/// Makes each directory of the path that is missing, from the entry `start`: all of them or none. The number,
/// in the new table, of the entry where the path leads.
pub fn make_directories(
    image: &mut [u8],
    words: &mut [u32],
    bytes: &mut [u8],
    totals: &mut Totals,
    team: u32,
    start: u32,
    path: &[u8],
) -> Result<u32, Refusal>
    ensures { let before = loan image.old words.old bytes.old totals.old in
        let after = loan image.new words.new bytes.new totals.new in
        IsEdited number_behind (edits.make_directories start path.now) team before after result }
{
    pipeline::run(
        image,
        words,
        bytes,
        totals,
        team,
        Edit::MakeDirectories { start, path },
    )
}
