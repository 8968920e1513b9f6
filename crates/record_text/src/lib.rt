//! A totals record as the text that a file keeps of it.
#![tactic(auto)]

mod lines;

ghost use Rattle.std.specs.Prelude.{◌≡◌, ◌<◌, length, take, IfSome, IfNone};
ghost use Rattle.listing.specs.Inner.Writing.{Appends};
ghost use Rattle.record_text.specs.Text.{record_text};

use listing::TextBuffer;
use totals::Totals;

/// A team that the text names: its number, and its name in UTF-8; without one, no bytes.
#[derive(Clone, Copy, Debug, PartialEq, Eq)]
pub struct Listed<'a> {
    pub number: u32,
    pub name: &'a [u8],
}

// The whole text, by whether there are teams.
fn push_record(text: &mut TextBuffer<'_>, teams: &[Listed<'_>], totals: &Totals)
    ensures { Appends text.old text.new (record_text teams.now totals.now) }
{
    if teams.is_empty() {
        lines::push_beginning(text, 1, totals);
        lines::push_named(text, b" edits", totals.teams[0].edits);
        text.push(b'\n');
        return;
    }
    lines::push_beginning(text, 2, totals);
    lines::push_count(text, teams.len());
    lines::push_teams(text, teams, totals);
}

/// The text in front of `text`, and how many bytes it has; nothing where it is longer.
pub fn put(teams: &[Listed<'_>], totals: &Totals, text: &mut [u8]) -> Option<usize>
    ensures put { IfSome result (λ n. take n text.new ≡ record_text teams.now totals.now) }
    ensures size { IfSome result (λ n. n ≡ length (record_text teams.now totals.now)) }
    ensures long { IfNone result (length text.old < length (record_text teams.now totals.now)) }
{
    let room = text.len();
    let mut written = TextBuffer::new(text);
    push_record(&mut written, teams, totals);
    let len = written.len;
    if room < len {
        return None;
    }
    Some(len)
}
