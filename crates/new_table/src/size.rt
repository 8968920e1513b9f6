// How large the table of some paths is.
ghost use Rattle.std.specs.Prelude.{◌≡◌, ◌-◌, false, length, slice_index, IfSome, IfNone};
ghost use Rattle.wish_list.specs.Paths.{paths_in};
ghost use Rattle.new_table.specs.Inner.Steps.{is_small};
ghost use Rattle.new_table.specs.Inner.Sizes.{IsSizeOf};

use crate::path;
use tree::{DEPTH_LIMIT, ENTRIES_LIMIT, TEXTS_LIMIT};

/// The size of a table.
// Kept: no derived equality, since nothing compares two (N).
#[derive(Clone, Copy)]
pub struct Size {
    /// How many entries it has, the root with them.
    pub entries: usize,
    /// How many bytes their names are, each with its zero byte.
    pub texts: usize,
}

impl Size {
    /// The size of the table of some paths, each ended by a zero byte; none if it passes a limit.
    pub fn of(paths: &[u8]) -> Option<Size>
        requires ended { slice_index paths.now (length paths.now - 1) ≡ 0 }
        ensures some { IfSome result (λ size. IsSizeOf size (paths_in paths.now)) }
        ensures none { IfNone result (is_small (paths_in paths.now) ≡ false) }
    {
        let mut entries = 1;
        let mut texts = 0;
        let mut before: &[u8] = &[];
        let mut at = 0;
        // Kept: a turn goes on behind the path that it has cut (N).
        while at < paths.len() {
            let path = path::path_at(paths, at);
            if path::slashes(path) > DEPTH_LIMIT {
                return None;
            }
            let own = &path[path::shared_bytes(before, path)..];
            entries += path::slashes(own) + 1;
            texts += own.len() + 1;
            if entries > ENTRIES_LIMIT || texts > TEXTS_LIMIT {
                return None;
            }
            before = path;
            at += path.len() + 1;
        }
        Some(Size { entries, texts })
    }
}
