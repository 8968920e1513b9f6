// The paths of a wish list: cut out of its bytes, and compared.
ghost use Rattle.std.specs.Prelude.{◌≡◌, ◌+◌, ◌≤◌, ◌<◌, length, drop};
ghost use Rattle.tree.specs.Table.{first_text};
ghost use Rattle.new_table.specs.Inner.Cuts.{IsCut, IsPathBefore};
ghost use Rattle.new_table.specs.Inner.Steps as steps;

/// The path that starts at `at`, without its zero byte.
pub fn path_at(paths: &[u8], at: usize) -> &[u8]
    requires { at + length (first_text (drop at paths.now)) < length paths.now }
    ensures { result.now ≡ first_text (drop at paths.now) }
{
    &paths[at..at + table::text_length(paths, at)]
}

/// How many directories the path names: the `/` in it.
pub fn slashes(path: &[u8]) -> usize
    ensures { result ≡ steps.slashes path.now }
{
    path.iter().filter(|byte| **byte == b'/').count()
}

/// How many bytes of `path` are the directories that the path before it is in too, each with its `/`.
pub fn shared_bytes(before: &[u8], path: &[u8]) -> usize
    ensures value { result ≡ steps.shared_bytes before.now path.now }
    ensures within { result ≤ length path.now }
{
    let mut shared = 0;
    // Kept: over places: the answer is one (N).
    for i in 0..before.len().min(path.len()) {
        if before[i] != path[i] {
            return shared;
        }
        if path[i] == b'/' {
            shared = i + 1;
        }
    }
    shared
}

/// Where the part without the separator starts that ends before `end`: behind the last one, or at `from`.
pub fn part_start(bytes: &[u8], separator: u8, from: usize, end: usize) -> usize
    requires order { from ≤ end }
    requires within { end ≤ length bytes.now }
    ensures { IsCut bytes.now separator from result end }
{
    let mut start = end;
    // Kept: over places, as above.
    while from < start && bytes[start - 1] != separator {
        start -= 1;
    }
    start
}

/// The path whose zero byte is the last byte before `end`; an empty one at the start.
pub fn path_before(paths: &[u8], end: usize) -> &[u8]
    requires { end ≤ length paths.now }
    ensures { IsPathBefore paths.now end result.now }
{
    if end == 0 {
        return &[];
    }
    &paths[part_start(paths, 0, 0, end - 1)..end - 1]
}
