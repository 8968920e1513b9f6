// The edit that a line comes to on an open disc.
ghost use Rattle.std.specs.Prelude.{◌≡◌, [], IfOk};
ghost use Rattle.tree.specs.Table.{nodes_of};
ghost use Rattle.tree.specs.Lookup.{lookup};
ghost use Rattle.edit.specs.Asked as asked;
ghost use Rattle.edit.specs.Inner.Decides.{clip_of};
ghost use Rattle.sheet.specs.Inner.Read.{line_of};
ghost use Rattle.sheet_run.specs.Lines as lines;
ghost use Rattle.sheet_run.specs.Inner.Asked.{edit_told};

use edit::{Edit, Kind, NewEntry};
use opened::OpenDisc;
use refusal::Refusal;
use sheet::{Asked, Line};
use table::Table;

// The parent's path and the name in it: what is before the last `/` and what is behind it; without one the
// parent's path is empty.
fn cut(path: &[u8]) -> (&[u8], &[u8])
    ensures parent { result.0.now ≡ lines.parent_path path.now }
    ensures name { result.1.now ≡ lines.name_in path.now }
{
    match path.iter().rposition(|b| *b == b'/') {
        Some(slash) => (&path[..slash], &path[slash + 1..]),
        None => (b"", path),
    }
}

// The insert of a new entry at a path: 17 and 18 where the way to its parent ends.
fn insertion<'a>(table: &Table<'_>, path: &'a [u8], kind: Kind) -> Result<Edit<'a>, Refusal>
    ensures edit { let parent = lookup (nodes_of table.now) 0 (lines.parent_path path.now) in
        edit_told result
        ≡ lines.edit_on parent (λ p. asked.insertion kind p (lines.name_in path.now)) }
    ensures no_clip { IfOk result (λ edit. clip_of edit ≡ []) }
{
    let (parent, name) = cut(path);
    let parent = table::lookup(table, 0, parent)?;
    Ok(Edit::Insert(NewEntry { parent, kind, name }))
}

/// The edit that a line comes to on this disc: 9 for a path over 1,024 bytes, then lookup's 17 and 18.
#[tactic(auto, unfolding(crate::specs::Lines::line_edit))]
pub fn line_edit<'a>(disc: &OpenDisc<'_>, line: Line<'a>) -> Result<Edit<'a>, Refusal>
    ensures edit { edit_told result ≡ lines.line_edit disc.now.disc.nodes (line_of line.entry) }
    ensures no_clip { IfOk result (λ edit. clip_of edit ≡ []) }
{
    let path = line.path()?;
    let table = Table::new(disc.table());
    match line.asked {
        Asked::MakeDirectory => insertion(&table, path, Kind::Directory),
        Asked::MakeFile => insertion(&table, path, Kind::File),
        Asked::Move { offset } => {
            let file = table::lookup(&table, 0, path)?;
            Ok(Edit::Move { file, offset })
        }
        Asked::Resize { size } => {
            let file = table::lookup(&table, 0, path)?;
            Ok(Edit::Resize { file, size })
        }
    }
}
