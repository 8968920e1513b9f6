// Texts passed unit by unit: each byte is looked up, so that a pair takes a dozen instructions.
ghost use Rattle.std.specs.Prelude.{◌≡◌, ◌+◌, ◌≤◌};
ghost use Rattle.table.specs.Inner.Texts.{is_clean_from};
ghost use Rattle.table.specs.Inner.Blocks.{IsFit};

// The bytes, 16 to a line: `c` for those that are clean, `z` for the one that ends a text, `l` for those that
// a pair may start with.
// Kept: of a fixed size (N): a byte has 256 values.
const KINDS: [u8; 256] = *b"\
    z---------------\
    ----------------\
    ccccccccccccccc-\
    cccccccccc-ccccc\
    cccccccccccccccc\
    cccccccccccc-ccc\
    cccccccccccccccc\
    ccccccccccccccc-\
    -lllllllllllllll\
    llllllllllllllll\
    -ccccccccccccccc\
    cccccccccccccccc\
    cccccccccccccccc\
    cccccccccccccccc\
    llllllllllllllll\
    lllllllllllll---\
    ";

// The bytes, 16 to a line: `t` for those that a pair may end with.
// Kept: of a fixed size (N): a byte has 256 values.
const TRAILS: [u8; 256] = *b"\
    ----------------\
    ----------------\
    ----------------\
    ----------------\
    tttttttttttttttt\
    tttttttttttttttt\
    tttttttttttttttt\
    ttttttttttttttt-\
    tttttttttttttttt\
    tttttttttttttttt\
    tttttttttttttttt\
    tttttttttttttttt\
    tttttttttttttttt\
    tttttttttttttttt\
    tttttttttttttttt\
    ttttttttttttt---\
    ";

// Passes the units of the text at `from` that start before `end`, up to the text's end or one that is not
// clean. Where it stops costs only time.
// Kept: by index, and each byte looked up (S): `Units` and `is_clean` took 3 times as long for names that
// share texts of pairs. The charts are read where they lie: laid out at each call, as below, they took 3 times
// as long for a name of one byte.
pub fn pass_units(table: &[u8], from: usize, end: usize) -> usize
    requires { from ≤ end }
    ensures near { result ≤ end + 1 }
    ensures fit { IsFit table.now result → IsFit table.now from }
{
    if table.len() == 0 {
        return from;
    }
    let stop = end.min(table.len() - 1);
    let kinds = &KINDS;
    let trails = &TRAILS;
    let mut at = from;
    while at < stop {
        let kind = kinds[table[at] as usize];
        if kind == b'c' {
            at += 1;
            continue;
        }
        if kind != b'l' {
            return at;
        }
        if trails[table[at + 1] as usize] != b't' {
            return at;
        }
        at += 2;
    }
    at
}

// Passes clean units from `from` on, the ends of texts too. Where it stops costs only time.
// Kept: as above (S): `Units` and `is_clean` took 1.4 times as long to open 16,384 names of pairs.
#[inline(never)]
fn pass_looked_up(table: &[u8], from: usize) -> usize
    ensures { is_clean_from table.now from ≡ is_clean_from table.now result }
{
    if table.len() <= from {
        return from;
    }
    let last = table.len() - 1;
    let kinds = KINDS;
    let trails = TRAILS;
    let mut at = from;
    while at < last {
        let kind = kinds[table[at] as usize];
        if kind == b'c' {
            at += 1;
            continue;
        }
        if kind == b'z' {
            at += 1;
            continue;
        }
        if kind != b'l' {
            return at;
        }
        if trails[table[at + 1] as usize] != b't' {
            return at;
        }
        at += 2;
    }
    at
}

// The same. Where nothing is left no chart is laid out: on an ASCII disc.
pub fn pass_clean_units(table: &[u8], from: usize) -> usize
    ensures { is_clean_from table.now from ≡ is_clean_from table.now result }
{
    if table.len() <= from {
        return from;
    }
    pass_looked_up(table, from)
}
