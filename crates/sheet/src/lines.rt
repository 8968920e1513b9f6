// The lines of a sheet: its layout read and judged whole, then one line after another.
ghost use Rattle.std.specs.Prelude.{◌≡◌, ◌≢◌, ◌≤◌, ◌<◌, ◌+◌, ℕ, List, length, take, slice_index};
ghost use Rattle.std.specs.Prelude.{Ok, Err, IfOk, IfErr};
ghost use Rattle.std.specs.Result.{result_err};
ghost use Rattle.std.specs.Iterator.{YieldsFirstBy, item_count};
ghost use Rattle.endian.specs.Bytes.{span};
ghost use Rattle.refusal.specs.declared.Refusal.TheVariants.{InvalidSheet};
ghost use Rattle.sheet.specs.Layout.{sheet_lines, line_at, line_with};
ghost use Rattle.sheet.specs.Inner.Left.{lines_in, IsEnded};
ghost use Rattle.sheet.specs.Inner.Read.{line_by, line_of};

use crate::line::{Asked, Line};
use endian::read_u32;
use refusal::{Refusal, Verdict};
use std::marker::Model;

// The most lines that a sheet may have.
const LINE_LIMIT: u32 = 1024;

// How many bytes the header has: how many lines, their offset, the texts' offset, the texts' length.
const HEADER_LEN: usize = 16;

// How many bytes a line has: its kind, its path's offset in the texts, its new offset, its new size.
const LINE_LEN: usize = 16;

/// The lines of a sheet in turn. Contracts see the list of those that are left.
// Kept: no derived equality (N): it would compare where the bytes lie too, and what contracts see is the
// list.
#[derive(Drop)]
pub struct Lines<'a> {
    // Those that are left, each as it stands in the sheet.
    rows: &'a [[u8; LINE_LEN]],
    // The texts up to their last zero byte, with it: a path begins there, or is not ended.
    texts: &'a [u8],
}

impl<'a> Model for Lines<'a> {
    ghost use Rattle.std.specs.Prelude.{List};
    ghost use Rattle.sheet.specs.Layout.{Line};
    ghost use Rattle.sheet.specs.Inner.Left.{lines_left, AreLines};

    ghost Value = { List Line };

    ghost view = { λ l. lines_left l.rows.now l.texts.now };

    ghost invariant = { λ l. AreLines l.rows.now l.texts.now };
}

// The bytes of a sheet at an offset and of a length that its header gives, or 30 where they pass its end.
fn part(sheet: &[u8], at: u32, len: u32) -> Result<&[u8], Refusal>
    ensures ok { IfOk result (λ bytes.
        (at + len ≤ length sheet.now) × (bytes.now ≡ span sheet.now at len)) }
    ensures err { IfErr result (λ cause. (cause ≡ InvalidSheet) × (length sheet.now < at + len)) }
{
    let at = at as usize;
    sheet
        .get(at..at + len as usize)
        .ok_or(Refusal::InvalidSheet)
}

// The texts up to their last zero byte, with it; empty where there is none.
fn ended_part(texts: &[u8]) -> &[u8]
    ensures ended { IsEnded result.now }
    ensures front { result.now ≡ take (length result.now) texts.now }
    ensures behind { (k : ℕ) → length result.now ≤ k → k < length texts.now →
        slice_index texts.now k ≢ 0 }
{
    let end = texts
        .iter()
        .rposition(|b| *b == 0)
        .map_or(0, |last| last + 1);
    &texts[..end]
}

// What a line asks for by its kind, new offset and new size, or 30.
fn asked_by(kind: u32, offset: u32, size: u32) -> Result<Asked, Refusal>
    ensures ok { (path : List ℕ) → IfOk result (λ asked.
        line_with kind offset size path ≡ Ok (line_by asked path)) }
    ensures err { (path : List ℕ) → IfErr result (λ cause.
        line_with kind offset size path ≡ Err cause) }
{
    match (kind, offset, size) {
        (1, 0, 0) => Ok(Asked::MakeDirectory),
        (2, 0, 0) => Ok(Asked::MakeFile),
        (3, offset, 0) => Ok(Asked::Move { offset }),
        (4, 0, size) => Ok(Asked::Resize { size }),
        _ => Err(Refusal::InvalidSheet),
    }
}

// The line in a row, or 30.
fn line_in<'a>(row: &[u8; LINE_LEN], texts: &'a [u8]) -> Result<Line<'a>, Refusal>
    requires { IsEnded texts.now }
    ensures ok { IfOk result (λ line. line_at texts.now row.now 0 ≡ Ok (line_of line)) }
    ensures err { IfErr result (λ cause. line_at texts.now row.now 0 ≡ Err cause) }
{
    let path = read_u32(row, 4) as usize;
    if texts.len() <= path {
        return Err(Refusal::InvalidSheet);
    }
    let asked = asked_by(read_u32(row, 0), read_u32(row, 8), read_u32(row, 12))?;
    Ok(Line {
        asked,
        text: &texts[path..],
    })
}

// 30 where one of the rows is no line.
fn check_rows(rows: &[[u8; LINE_LEN]], texts: &[u8]) -> Verdict
    requires { IsEnded texts.now }
    ensures { result_err result ≡ result_err (lines_in texts.now rows.now) }
{
    for row in rows {
        line_in(row, texts)?;
    }
    Ok(())
}

impl<'a> Lines<'a> {
    /// Those of a sheet, or 30: it has fewer than 16 bytes or more than 1,024 lines; lines or texts, even
    /// empty, end past it; a line has no kind from 1 to 4, or a number that its kind does not have, or its
    /// path is not ended by a zero byte of the texts.
    pub fn of_sheet(sheet: &'a [u8]) -> Result<Self, Refusal>
        ensures { result ≡ sheet_lines sheet.now }
    {
        if sheet.len() < HEADER_LEN {
            return Err(Refusal::InvalidSheet);
        }
        let count = read_u32(sheet, 0);
        if LINE_LIMIT < count {
            return Err(Refusal::InvalidSheet);
        }
        let rows = part(sheet, read_u32(sheet, 4), LINE_LEN as u32 * count)?;
        let texts = part(sheet, read_u32(sheet, 8), read_u32(sheet, 12))?;
        let (rows, _) = rows.as_chunks();
        let texts = ended_part(texts);
        check_rows(rows, texts)?;
        Ok(Lines { rows, texts })
    }
}

impl<'a> Iterator for Lines<'a> {
    type Item = Line<'a>;

    ghost next_gives = { YieldsFirstBy (λ line. line_of line) (λ rest. rest) };

    ghost remaining = { item_count (λ rest. rest) };

    fn next(&mut self) -> Option<Line<'a>> {
        let (row, rest) = self.rows.split_first()?;
        self.rows = rest;
        line_in(row, self.texts).ok()
    }
}
