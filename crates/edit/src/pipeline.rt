// One way through every edit: opened, decided, entered in the record that is lent, carried out.
ghost use Rattle.std.specs.Prelude.{◌≡◌, length};
ghost use Rattle.endian.specs.Bytes.{AllBytes};
ghost use Rattle.opened.specs.Opening.{opening, disc_of};
ghost use Rattle.refusal.specs.Refusal.{first};
ghost use Rattle.totals.specs.Totals.{team_verdict};
ghost use Rattle.edit_rules.specs.Edits as edits;
ghost use Rattle.edit_rules.specs.Edits.{account, plan_behind, plan_of, number_behind};
ghost use Rattle.edit_rules.specs.Promise.{loan, only_verdict, IsEdited};
ghost use Rattle.ledger.specs.Runs.{IsPassable};
ghost use Rattle.edit.specs.Inner.Accounting.{account_with, IsAccountedFor, IsEntered};
ghost use Rattle.edit.specs.Inner.Accounting.{IsForeseen, IsCopied, IsTabled};
ghost use Rattle.edit.specs.Inner.Decision.{Judges};
ghost use Rattle.edit.specs.Asked.{edit_of, place_edit_of, IsPlaceEdit};
ghost use Rattle.edit.specs.Inner.Decides.{IsEditDecided, clip_of};
ghost use Rattle.edit.specs.Inner.Filling.{EachClip};

use crate::decision::{Decision, Span};
use crate::new_entry::NewEntry;
use crate::place_edit::PlaceEdit;
use crate::{account, decision, directories, filling, insertion, moving, resizing};
use opened::{Lent, OpenDisc};
use refusal::{Refusal, Verdict};
use totals::Totals;

/// An edit, with all that it needs besides the image, the working memory and the record. Entries go by their
/// numbers; offsets and sizes are in bytes.
#[derive(Clone, Copy, Debug, PartialEq, Eq)]
pub enum Edit<'a> {
    /// The table is written anew, with no name shared.
    Rewrite,
    /// The file goes to another offset.
    Move { file: u32, offset: u32 },
    /// The file gets another size, and another place where it cannot grow where it is.
    Resize { file: u32, size: u32 },
    /// Afterwards the file is the clip.
    Fill { file: u32, clip: &'a [u8] },
    /// An empty file, with offset 0, or an empty directory as last child of a directory.
    Insert(NewEntry<'a>),
    /// Each directory of the path that is missing, from the entry `start` on.
    MakeDirectories { start: u32, path: &'a [u8] },
}

impl<'a> Edit<'a> {
    // The clip that fills a file; none for the other edits.
    fn clip(self) -> &'a [u8]
        ensures { result.now ≡ clip_of self.entry }
    {
        match self {
            Edit::Fill { clip, .. } => clip,
            _ => b"",
        }
    }

    // Its numbers have 32 bits, and its clip is of bytes: known whatever becomes of the edit.
    fn passable(self)
        ensures { IsPassable (edit_of self.entry) }
    {
        if let Edit::Fill { clip, .. } = self {
            of_bytes(clip);
        }
    }
}

// What the bytes of a clip are is known of a parameter, and not of a reference in an enum.
fn of_bytes(clip: &[u8])
    ensures { AllBytes clip.now }
{}

/// What an edit decides on, on an open disc: all its own tests, neither the team's nor the record's, and the new
/// table in the working bytes. No image is read, so that the disc may have been opened from the parts of one.
pub fn decide(disc: &OpenDisc<'_>, bytes: &mut [u8], edit: Edit<'_>) -> Result<Decision, Refusal>
    ensures { let clip = clip_of edit.entry in
        IsEditDecided (edit_of edit.entry) disc.now (length bytes.old) bytes.new clip result }
{
    edit.passable();
    match edit {
        Edit::Rewrite => moving::rewrite(disc, bytes),
        Edit::Move { file, offset } => moving::move_file(disc, bytes, file, offset),
        Edit::Resize { file, size } => resizing::resize_file(disc, bytes, file, size),
        Edit::Fill { file, clip } => filling::fill(disc, bytes, file, clip.len()),
        Edit::Insert(new) => insertion::insert(disc, bytes, new),
        Edit::MakeDirectories { start, path } => {
            directories::make_directories(disc, bytes, start, path)
        }
    }
}

/// What an edit decides on, on an open disc, once the team and the record are tested too, and the record
/// moved on by it. The team is the first test, the record's tests are the last.
pub fn enter(
    disc: &OpenDisc<'_>,
    bytes: &mut [u8],
    totals: &mut Totals,
    team: u32,
    edit: Edit<'_>,
) -> Result<Decision, Refusal>
    ensures entered { let plan = plan_of (edit_of edit.entry) disc.now.disc in
        let clip = clip_of edit.entry in
        IsEntered (plan_behind (team_verdict team) plan) disc.now (length bytes.old) bytes.new clip
        (account totals.old team) (account_with result totals.new) }
    ensures passable { IsPassable (edit_of edit.entry) }
{
    // Some image means an open disc.
    let _ = &disc.table;
    edit.passable();
    let team = totals::team_number(team)?;
    let decided = decide(disc, bytes, edit);
    account::account(disc, decided, totals, team)
}

/// As `enter`, of a fill by a clip of so many bytes, whichever they are: so the clip need not be in memory.
pub fn enter_fill(
    disc: &OpenDisc<'_>,
    bytes: &mut [u8],
    totals: &mut Totals,
    team: u32,
    file: u32,
    clip_len: usize,
) -> Result<Decision, Refusal>
    ensures { EachClip clip_len (λ clip.
        let plan = plan_of (edits.fill_file file clip) disc.now.disc in
        IsEntered (plan_behind (team_verdict team) plan) disc.now (length bytes.old) bytes.new clip
        (account totals.old team) (account_with result totals.new)) }
{
    // Some image means an open disc.
    let _ = &disc.table;
    let charged = totals::team_number(team)?;
    let decided = filling::fill(disc, bytes, file, clip_len);
    account::account(disc, decided, totals, charged)
}

/// What is decided on, once opening is tested too.
// Kept: `image`, `words`, `bytes`, `totals` one by one, here and below (N): each is written or zeroed apart
// from the others, and a struct of four `&mut` would have each contract name the loan of each field.
fn decide_image(
    image: &[u8],
    words: &mut [u32],
    bytes: &mut [u8],
    totals: &mut Totals,
    team: u32,
    edit: Edit<'_>,
) -> Result<Decision, Refusal>
    ensures { let opened = opening image.now (length words.old) in
        let admitted = first opened (team_verdict team) in
        let plan = plan_behind admitted (plan_of (edit_of edit.entry) (disc_of image.now)) in
        let clip = clip_of edit.entry in
        IsAccountedFor plan image.now (length words.old) (length bytes.old) bytes.new clip
        (account totals.old team) (account_with result totals.new) }
{
    let disc = OpenDisc::of_image(image, words)?;
    enter(&disc, bytes, totals, team, edit)
}

/// A move or a resize judged on an open disc, where `room` working bytes are lent: as `decide`, but that no
/// table is drafted.
pub fn judge(disc: &OpenDisc<'_>, room: usize, edit: PlaceEdit) -> Result<Decision, Refusal>
    ensures { let asked = place_edit_of edit in
        Judges (plan_of asked disc.now.disc) disc.now room result }
{
    match edit {
        PlaceEdit::Move { file, offset } => moving::judge_move(disc, room, file, offset),
        PlaceEdit::Resize { file, size } => resizing::judge_resize(disc, room, file, size),
    }
}

/// What `decide_image` decides on for a move or a resize, with no table drafted and the record as it was.
pub fn judge_image(
    image: &[u8],
    words: &mut [u32],
    room: usize,
    totals: &Totals,
    team: u32,
    edit: PlaceEdit,
) -> Result<Decision, Refusal>
    ensures foreseen { let opened = opening image.now (length words.old) in
        let admitted = first opened (team_verdict team) in
        let plan = plan_behind admitted (plan_of (place_edit_of edit) (disc_of image.now)) in
        IsForeseen plan image.now (length words.old) room (account totals.now team) result }
    ensures place_edit { IsPlaceEdit (place_edit_of edit) }
{
    edit.passable();
    let disc = OpenDisc::of_image(image, words)?;
    let charged = totals::team_number(team)?;
    let judged = judge(&disc, room, edit);
    // The record is tested, and only its copy moves on.
    let mut tried = *totals;
    account::account(&disc, judged, &mut tried, charged)
}

/// The copy of a move or a resize, and nothing else: refused as `judge_image` is, with the image as it was.
pub fn copy_part(
    image: &mut [u8],
    words: &mut [u32],
    room: usize,
    totals: &Totals,
    team: u32,
    edit: PlaceEdit,
) -> Verdict
    ensures copied { let opened = opening image.old (length words.old) in
        let admitted = first opened (team_verdict team) in
        let plan = plan_behind admitted (plan_of (place_edit_of edit) (disc_of image.old)) in
        let account = account totals.now team in
        IsCopied plan image.old image.new (length words.old) room account result }
    ensures place_edit { IsPlaceEdit (place_edit_of edit) }
{
    let decided = judge_image(image, words, room, totals, team, edit);
    decision::finish_copy(image, decided)
}

/// The table of a move or a resize, and nothing else, with the record moved on: refused as `decide_image` is,
/// with image and record as they were. Gives what is left to be zeroed.
pub fn table_part(
    image: &mut [u8],
    words: &mut [u32],
    bytes: &mut [u8],
    totals: &mut Totals,
    team: u32,
    edit: PlaceEdit,
) -> Result<Span, Refusal>
    ensures written { let opened = opening image.old (length words.old) in
        let admitted = first opened (team_verdict team) in
        let plan = plan_behind admitted (plan_of (place_edit_of edit) (disc_of image.old)) in
        let account = account totals.old team in
        IsTabled plan image.old image.new (length words.old) (length bytes.old) bytes.new
        account totals.new result }
    ensures place_edit { IsPlaceEdit (place_edit_of edit) }
{
    let edit = edit.whole();
    let decided = decide_image(image, words, bytes, totals, team, edit);
    decision::finish_table(image, bytes, decided)
}

/// The whole edit: opens the image, makes every test, builds the new table in the working bytes, and only
/// then writes the image. Gives the number of the entry that it makes, moves, resizes or fills, 0 where there
/// is none; or why it is refused, with image and record as they were.
pub fn run(
    image: &mut [u8],
    words: &mut [u32],
    bytes: &mut [u8],
    totals: &mut Totals,
    team: u32,
    edit: Edit<'_>,
) -> Result<u32, Refusal>
    ensures edited { let before = loan image.old words.old bytes.old totals.old in
        let after = loan image.new words.new bytes.new totals.new in
        IsEdited number_behind (edit_of edit.entry) team before after result }
    ensures passable { IsPassable (edit_of edit.entry) }
{
    edit.passable();
    let words = Lent::new(words);
    let bytes = Lent::new(bytes);
    let decided = decide_image(image, words.memory, bytes.memory, totals, team, edit);
    decision::finish(image, bytes.memory, edit.clip(), decided)
}

/// The whole edit, of one that gives only that it is done.
pub fn done(
    image: &mut [u8],
    words: &mut [u32],
    bytes: &mut [u8],
    totals: &mut Totals,
    team: u32,
    edit: Edit<'_>,
) -> Verdict
    ensures { let before = loan image.old words.old bytes.old totals.old in
        let after = loan image.new words.new bytes.new totals.new in
        IsEdited only_verdict (edit_of edit.entry) team before after result }
{
    run(image, words, bytes, totals, team, edit)?;
    Ok(())
}
