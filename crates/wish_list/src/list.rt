// The wish list: its paths and sizes, judged.
ghost use Rattle.std.specs.Prelude.{◌≡◌, ℕ, List, [], ◌∷◌, Ok, Err, length, IsTrue, is_ok};
ghost use Rattle.std.specs.Result.{IfOk, IfErr};
ghost use Rattle.std.specs.List.{list_all};
ghost use Rattle.tree.specs.Table.{is_plain, is_safe};
ghost use Rattle.wish_list.specs.Paths.{paths_in, names_of};
ghost use Rattle.wish_list.specs.Paths.{ends_verdict, path_verdict, paths_verdict, list_verdict};
ghost use Rattle.wish_list.specs.Inner.Earlier.{form_verdict, IsKept};

use crate::earlier::Earlier;
use crate::paths::first_path;
use refusal::{Refusal, Verdict};
use table::{is_plain, is_safe};
use tree::PATH_LIMIT;

// What the bytes are refused for where they are not so many paths, each with its zero byte: 8.
fn ends_verdict(bytes: &[u8], count: usize) -> Verdict
    ensures { result ≡ ends_verdict bytes.now count }
{
    let has_rest = bytes.last().is_some_and(|b| *b != 0);
    if has_rest || bytes.iter().filter(|b| **b == 0).count() != count {
        return Err(Refusal::MissingNullTerminator);
    }
    Ok(())
}

// Whether each name in the path is safe.
fn has_safe_names(path: &[u8]) -> bool
    ensures { result ≡ list_all is_safe (names_of path.now) }
{
    path.split(|b| *b == b'/').all(|name| is_safe(name))
}

// Whether each name in the path is plain.
fn has_plain_names(path: &[u8]) -> bool
    ensures { result ≡ list_all is_plain (names_of path.now) }
{
    path.split(|b| *b == b'/').all(|name| is_plain(name))
}

// What a path by itself is refused for: 9 where it is too long, then 13 where a name in it is not safe, then
// 12 where one is not plain.
#[tactic(auto, unfolding(crate::specs::Inner::Earlier::form_verdict))]
fn form_verdict(path: &[u8]) -> Verdict
    ensures { result ≡ form_verdict path.now }
{
    if PATH_LIMIT < path.len() {
        return Err(Refusal::LimitOrMemory);
    }
    if !has_safe_names(path) {
        return Err(Refusal::UnsafeName);
    }
    if !has_plain_names(path) {
        return Err(Refusal::InvalidNameByte);
    }
    Ok(())
}

// Adds a path to those before it, or says what it is refused for.
fn add_path<'a>(earlier: &mut Earlier<'a>, path: &'a [u8]) -> Verdict
    ensures verdict { (before : List (List ℕ)) →
        IsKept before earlier.old.last.now earlier.old.marks →
        result ≡ path_verdict before path.now }
    ensures kept { (before : List (List ℕ)) →
        IsKept before earlier.old.last.now earlier.old.marks →
        IfOk result (λ _. IsKept (path.now ∷ before) earlier.new.last.now earlier.new.marks) }
{
    form_verdict(path)?;
    earlier.add(path)
}

// What so many paths are refused for.
fn paths_verdict(paths: &[u8], count: usize) -> Verdict
    requires { length (paths_in paths.now) ≡ count }
    ensures { result ≡ paths_verdict [] (paths_in paths.now) }
{
    let mut earlier = Earlier::new();
    let mut rest = paths;
    // Kept: it counts turns, and no number is used (N).
    for _ in 0..count {
        let path = first_path(rest);
        add_path(&mut earlier, path)?;
        rest = &rest[path.len() + 1..];
    }
    Ok(())
}

// What the paths of so many files are refused for.
fn list_verdict(paths: &[u8], count: usize) -> Verdict
    ensures { result ≡ list_verdict paths.now count }
{
    ends_verdict(paths, count)?;
    paths_verdict(paths, count)
}

/// The paths and sizes of a new master's files, judged: each path is ended by a zero byte, and there is one
/// for each size.
#[derive(Clone, Copy, Debug, PartialEq, Eq)]
pub struct WishList<'a> {
    /// The paths, each with its zero byte.
    pub paths: &'a [u8],
    /// The sizes in bytes.
    pub sizes: &'a [u32],
    /// No test refuses the paths.
    pub ghost accepted: { IsTrue (is_ok (list_verdict paths.now (length sizes.now))) },
}

impl<'a> WishList<'a> {
    /// Judges the paths of files with these sizes.
    pub fn new(paths: &'a [u8], sizes: &'a [u32]) -> Result<Self, Refusal>
        ensures refused { IfErr result (λ cause.
            list_verdict paths.now (length sizes.now) ≡ Err cause) }
        ensures accepted { IfOk result (λ _. list_verdict paths.now (length sizes.now) ≡ Ok tt) }
        ensures paths { IfOk result (λ list. list.paths.now ≡ paths.now) }
        ensures sizes { IfOk result (λ list. list.sizes.now ≡ sizes.now) }
    {
        list_verdict(paths, sizes.len())?;
        Ok(WishList { paths, sizes })
    }
}
