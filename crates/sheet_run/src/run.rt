// A sheet run: checked whole, then line by line.
ghost use Rattle.std.specs.Prelude.{◌≡◌, ◌≤◌, Ok, length};
ghost use Rattle.refusal.specs.Refusal.{first};
ghost use Rattle.totals.specs.Totals.{team_verdict};
ghost use Rattle.opened.specs.Opening.{opening};
ghost use Rattle.edit_rules.specs.Edits.{account};
ghost use Rattle.edit_rules.specs.Promise.{loan};
ghost use Rattle.ledger.specs.Lists.{LedgerHoldsAfter, TellsAfter, SharesHoldAfter};
ghost use Rattle.edit.specs.Inner.Accounting.{account_with};
ghost use Rattle.sheet.specs.Layout.{sheet_lines};
ghost use Rattle.sheet.specs.Inner.Read.{line_of};
ghost use Rattle.sheet_run.specs.Run as running;
ghost use Rattle.sheet_run.specs.Run.{sheet_run, own_answer, RunsSheet};
ghost use Rattle.sheet_run.specs.Inner.Running.{edit_in, lines_behind};
ghost use Rattle.sheet_run.specs.Inner.Running.{IsLineDecided, IsLineRun, IsRun};

use crate::line_edit::line_edit;
use edit::Decision;
use opened::{Lent, OpenDisc};
use refusal::{Refusal, Verdict};
use sheet::{Line, Lines};
use totals::Totals;

/// Where a sheet is refused, and why.
#[derive(Clone, Copy, Debug, PartialEq, Eq)]
pub struct Refused {
    /// The line's number, from 1; 0 before the first line.
    pub line: u32,
    pub cause: Refusal,
}

// What comes before the first line: the sheet is read and judged whole, then opening, then the team.
fn start<'a>(
    image: &[u8],
    words: &mut [u32],
    team: u32,
    sheet: &'a [u8],
) -> Result<Lines<'a>, Refusal>
    ensures { let opened = opening image.now (length words.old) in
        result ≡ lines_behind (first opened (team_verdict team)) (sheet_lines sheet.now) }
{
    let lines = Lines::of_sheet(sheet)?;
    OpenDisc::of_image(image, words)?;
    totals::team_number(team)?;
    Ok(lines)
}

// What a line decides on, on the image as it is: one opening serves its lookup and its edit.
// Kept: `image`, `words`, `bytes`, `totals` one by one, here and below (N): each is written or zeroed apart
// from the others, and a struct of four `&mut` would have each contract name the loan of each field.
fn decide_line(
    image: &[u8],
    words: &mut [u32],
    bytes: &mut [u8],
    totals: &mut Totals,
    team: u32,
    line: Line<'_>,
) -> Result<Decision, Refusal>
    ensures { let found = edit_in image.now (length words.old) (line_of line.entry) in
        IsLineDecided image.now (length words.old) (length bytes.old) bytes.new
        (account totals.old team) (account_with result totals.new) found }
{
    let disc = OpenDisc::of_image(image, words)?;
    let edit = line_edit(&disc, line)?;
    edit::enter(&disc, bytes, totals, team, edit)
}

// One line: its edit made, or the image and the record as they were.
fn run_line(
    image: &mut [u8],
    words: &mut [u32],
    bytes: &mut [u8],
    totals: &mut Totals,
    team: u32,
    line: Line<'_>,
) -> Verdict
    ensures { let before = loan image.old words.old bytes.old totals.old in
        let after = loan image.new words.new bytes.new totals.new in
        let found = edit_in image.old (length words.old) (line_of line.entry) in
        IsLineRun team before after result found }
{
    let decided = decide_line(image, words, bytes, totals, team, line);
    edit::finish(image, bytes, b"", decided)?;
    Ok(())
}

// Lines in order up to the first that is refused, on an image that opens.
fn run_lines(
    image: &mut [u8],
    words: &mut [u32],
    bytes: &mut [u8],
    totals: &mut Totals,
    team: u32,
    lines: Lines<'_>,
) -> Result<(), Refused>
    requires opens { opening image.old (length words.old) ≡ Ok tt }
    requires few { length lines ≤ 1024 }
    ensures { let run = running.run_lines 1 lines.entry team totals.old image.old
        (length words.old) (length bytes.old) in
        IsRun run image.old image.new totals.old totals.new result }
{
    let mut number = 0;
    for line in lines {
        number += 1;
        if let Err(cause) = run_line(image, words, bytes, totals, team, line) {
            return Err(Refused {
                line: number,
                cause,
            });
        }
    }
    Ok(())
}

/// Runs a sheet: its lines in order, each on the image and with the record that the one before left, up to
/// the first that is refused. With line 0 it is refused before any: 30, then opening, then 15 for the team.
/// Where a line is refused, image and record are those after the lines before it.
pub fn run_sheet(
    image: &mut [u8],
    words: &mut [u32],
    bytes: &mut [u8],
    totals: &mut Totals,
    team: u32,
    sheet: &[u8],
) -> Result<(), Refused>
    ensures run { let before = loan image.old words.old bytes.old totals.old in
        let after = loan image.new words.new bytes.new totals.new in
        RunsSheet own_answer sheet.now team before after result }
    ensures ledger_holds { let before = loan image.old words.old bytes.old totals.old in
        let after = loan image.new words.new bytes.new totals.new in
        LedgerHoldsAfter (sheet_run sheet.now team before).calls before after }
    ensures record_tells { let before = loan image.old words.old bytes.old totals.old in
        let after = loan image.new words.new bytes.new totals.new in
        TellsAfter (sheet_run sheet.now team before).calls before after }
    ensures shares_hold { let before = loan image.old words.old bytes.old totals.old in
        let after = loan image.new words.new bytes.new totals.new in
        SharesHoldAfter (sheet_run sheet.now team before).calls before after }
{
    let words = Lent::new(words);
    let bytes = Lent::new(bytes);
    match start(image, words.memory, team, sheet) {
        Ok(lines) => run_lines(image, words.memory, bytes.memory, totals, team, lines),
        Err(cause) => Err(Refused { line: 0, cause }),
    }
}
