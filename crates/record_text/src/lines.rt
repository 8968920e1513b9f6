// The lines of the text, and parts of them.
ghost use Rattle.std.specs.Prelude.{◌≡◌, ◌++◌, codes};
ghost use Rattle.totals.specs.Totals as totals_of;
ghost use Rattle.listing.specs.Lines.{line_feed};
ghost use Rattle.listing.specs.Inner.Writing.{Appends};
ghost use Rattle.record_text.specs.Text.{named, beginning, limit_field, name_part, team_line, team_lines};

use crate::Listed;
use listing::TextBuffer;
use totals::{Team, Totals};

/// A word, and the number behind it.
pub fn push_named(text: &mut TextBuffer<'_>, word: &[u8], n: u32)
    ensures { Appends text.old text.new (named word.now n) }
{
    text.push_bytes(word);
    text.push_field(n);
}

/// The first line, and what the second begins with in both forms.
pub fn push_beginning(text: &mut TextBuffer<'_>, form: u32, totals: &Totals)
    ensures { Appends text.old text.new (beginning form totals.now) }
{
    push_named(text, b"counter record", form);
    text.push(b'\n');
    push_named(text, b"used", totals.used);
    push_named(text, b" largest", totals.largest);
}

/// How many teams there are, to the end of the line.
pub fn push_count(text: &mut TextBuffer<'_>, count: usize)
    ensures { Appends text.old text.new (named (codes " teams") count ++ line_feed) }
{
    text.push_bytes(b" teams ");
    text.push_decimal(count as u64);
    text.push(b'\n');
}

fn push_limit(text: &mut TextBuffer<'_>, limit: u32)
    ensures { Appends text.old text.new (limit_field limit) }
{
    if limit == u32::MAX {
        text.push_bytes(b" none");
        return;
    }
    text.push_field(limit);
}

fn push_name(text: &mut TextBuffer<'_>, name: &[u8])
    ensures { Appends text.old text.new (name_part name.now) }
{
    if name.is_empty() {
        return;
    }
    text.push_bytes(b" name ");
    text.push_bytes(name);
}

fn push_team(text: &mut TextBuffer<'_>, listed: &Listed<'_>, team: &Team)
    ensures { Appends text.old text.new (team_line listed.now team.now) }
{
    push_named(text, b"team", listed.number);
    text.push_bytes(b" limit");
    push_limit(text, team.limit);
    push_named(text, b" share", team.share);
    push_named(text, b" taken", team.taken);
    push_named(text, b" edits", team.edits);
    push_name(text, listed.name);
    text.push(b'\n');
}

// A number that no team has is that of one without anything.
fn team_of(totals: &Totals, number: u32) -> Team
    ensures { result ≡ totals_of.team_of totals.now number }
{
    let none = Team {
        limit: 0,
        share: 0,
        taken: 0,
        edits: 0,
    };
    totals.teams.get(number as usize).copied().unwrap_or(none)
}

/// A line for each team.
pub fn push_teams(text: &mut TextBuffer<'_>, teams: &[Listed<'_>], totals: &Totals)
    ensures { Appends text.old text.new (team_lines teams.now totals.now) }
{
    for listed in teams {
        push_team(text, listed, &team_of(totals, listed.number));
    }
}
