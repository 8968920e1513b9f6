// Which word stands in which slot (host/include/counter.h), for each answer that C is lent room for.
ghost use Rattle.std.specs.Prelude.{◌≡◌, ◌++◌, ◌+◌, ◌≤◌, length};
ghost use Rattle.endian.specs.Bytes.{put};
ghost use Rattle.counter.specs.Replies as replies;

use disc::DiscTotals;
use executable::DolHeader;
use opened::Summary;
use space::DiscRegion;
use totals::{TEAMS, Team, Totals};
use window::Window;

pub fn disc_words(disc: Summary) -> [u32; 5]
    ensures { result ≡ replies.disc_words disc }
{
    [
        disc.fst_offset,
        disc.fst_size,
        disc.disc_end,
        disc.entries,
        disc.used,
    ]
}

pub fn disc_totals_words(totals: DiscTotals) -> [u32; 2]
    ensures { result ≡ replies.disc_totals_words totals }
{
    [totals.disc_end, totals.used]
}

pub fn region_words(region: DiscRegion) -> [u32; 2]
    ensures { result ≡ replies.region_words region }
{
    [region.offset, region.size]
}

// ---- a window, which C may fill by itself

pub fn window_words(window: Window) -> [u64; 3]
    ensures { result ≡ replies.window_words window }
{
    [window.start, window.len, window.position]
}

pub fn window_in(slots: &[u64; 3]) -> Window
    ensures { result ≡ replies.window_in slots.now }
{
    let [start, len, position] = *slots;
    Window {
        start,
        len,
        position,
    }
}

// ---- many words

// All words of `source`, from `at` on.
fn put_words(slots: &mut [u32], at: usize, source: &[u32])
    requires { at + length source.now ≤ length slots.old }
    ensures { slots.new ≡ put slots.old at source.now }
{
    slots[at..at + source.len()].copy_from_slice(source);
}

// A word for each text section, then one for each data section.
fn put_sections(slots: &mut [u32], at: usize, texts: &[u32; 7], datas: &[u32; 11])
    requires { at + 18 ≤ length slots.old }
    ensures { slots.new ≡ put slots.old at (texts.now ++ datas.now) }
{
    put_words(slots, at, texts);
    put_words(slots, at + 7, datas);
}

pub fn dol_words(header: DolHeader) -> [u32; 57]
    ensures { result ≡ replies.dol_words header }
{
    let mut slots = [0; 57];
    put_sections(&mut slots, 0, &header.text_offsets, &header.data_offsets);
    put_sections(
        &mut slots,
        18,
        &header.text_addresses,
        &header.data_addresses,
    );
    put_sections(&mut slots, 36, &header.text_sizes, &header.data_sizes);
    slots[54] = header.bss_address;
    slots[55] = header.bss_size;
    slots[56] = header.entry_point;
    slots
}

// ---- the record: 2 slots and 4 of each team

fn team_words(team: Team) -> [u32; 4]
    ensures { result ≡ replies.team_words team }
{
    [team.limit, team.share, team.taken, team.edits]
}

pub fn totals_words(totals: &Totals) -> [u32; 66]
    ensures words { result ≡ replies.totals_words totals.now }
    ensures read_back { replies.totals_in result ≡ totals.now }
{
    let mut slots = [0; 66];
    slots[0] = totals.used;
    slots[1] = totals.largest;
    for (k, team) in totals.teams.iter().enumerate() {
        put_words(&mut slots, 2 + 4 * k, &team_words(*team));
    }
    slots
}

fn team_at(slots: &[u32; 66], at: usize) -> Team
    requires { at + 4 ≤ 66 }
    ensures { result ≡ replies.team_at slots.now at }
{
    Team {
        limit: slots[at],
        share: slots[at + 1],
        taken: slots[at + 2],
        edits: slots[at + 3],
    }
}

pub fn totals_in(slots: &[u32; 66]) -> Totals
    ensures totals { result ≡ replies.totals_in slots.now }
    ensures written_back { replies.totals_words result ≡ slots.now }
{
    let nobody = Team {
        limit: 0,
        share: 0,
        taken: 0,
        edits: 0,
    };
    let mut teams = [nobody; TEAMS];
    for (k, team) in teams.iter_mut().enumerate() {
        *team = team_at(slots, 2 + 4 * k);
    }
    Totals {
        used: slots[0],
        largest: slots[1],
        teams,
    }
}
