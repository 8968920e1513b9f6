// What an edit decides on, from the parts of the image that were read.
ghost use Rattle.std.specs.Prelude.{◌≡◌, List, ℕ, length};
ghost use Rattle.refusal.specs.Refusal.{first};
ghost use Rattle.totals.specs.Totals.{team_verdict};
ghost use Rattle.opened.specs.Opening.{opening, disc_of};
ghost use Rattle.opened.specs.Inner.Disc.{OpensAs};
ghost use Rattle.opened.specs.Inner.Parts.{ArePartsOf};
ghost use Rattle.edit_rules.specs.Edits.{account, plan_behind, plan_of};
ghost use Rattle.edit.specs.Inner.Accounting.{account_with, IsAccountedFor};
ghost use Rattle.journaled.specs.Edited.{edit_asked};
ghost use Rattle.journaled.specs.Inner.Behind.{image_behind};
ghost use Rattle.journaled.specs.Inner.Clip.{ClipIs};

use crate::request::{Order, Request};
use edit::Decision;
use journal::Files;
use opened::{OpenDisc, Parts};
use refusal::Refusal;
use totals::Totals;

// The files are passed for what is seen of them, in the contract alone.
fn open_shown<'a, F: Files>(
    _files: &F,
    parts: Parts<'a>,
    words: &'a mut [u32],
) -> Result<OpenDisc<'a>, Refusal>
    ghost shown: { List ℕ }
    requires same { shown ≡ image_behind F.known (F.state _files.now).seen.image parts }
    requires parts_of { ArePartsOf shown parts }
    ensures { OpensAs shown (length words.old) result }
{
    OpenDisc::open(parts, words)
}

/// Opens the image behind the parts, or says why not.
pub fn open_behind<'a, F: Files>(
    files: &F,
    parts: Parts<'a>,
    words: &'a mut [u32],
) -> Result<OpenDisc<'a>, Refusal>
    requires { ArePartsOf (image_behind F.known (F.state files.now).seen.image parts) parts }
    ensures { OpensAs (image_behind F.known (F.state files.now).seen.image parts.entry)
        (length words.old) result }
{
    open_shown(files, parts, words)
}

/// What is decided on, once opening, the team, the edit's own tests and the record's are passed, and the record moved on by
/// it; the new table stands in the working bytes.
pub fn decide<F: Files>(
    files: &F,
    parts: Parts<'_>,
    words: &mut [u32],
    bytes: &mut [u8],
    totals: &mut Totals,
    order: &Order<'_>,
) -> Result<Decision, Refusal>
    requires parts { ArePartsOf (image_behind F.known (F.state files.now).seen.image parts) parts }
    requires clip { ClipIs order.now.request (F.state files.now).clip }
    ensures { let image = image_behind F.known (F.state files.now).seen.image parts.entry in
        let opened = opening image (length words.old) in
        let admitted = first opened (team_verdict order.now.team) in
        let clip = (F.state files.now).clip in
        let plan = plan_behind admitted (plan_of (edit_asked order.now.request clip) (disc_of image)) in
        IsAccountedFor plan image (length words.old) (length bytes.old) bytes.new clip
        (account totals.old order.now.team) (account_with result totals.new) }
{
    let disc = open_behind(files, parts, words)?;
    match order.request {
        Request::Edit(edit) => edit::enter(&disc, bytes, totals, order.team, edit),
        Request::Fill { file } => {
            edit::enter_fill(&disc, bytes, totals, order.team, file, files.clip_len())
        }
    }
}
