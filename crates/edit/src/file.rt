// A file of a disc, as the edits hold it.

use space::DiscRegion;

/// A file of a disc: the number of its entry, and where its bytes lie.
// Kept: of which disc it is a file stands in contracts (`IsFileOf`), since it holds no disc.
#[derive(Clone, Copy, Debug, PartialEq, Eq)]
pub struct File {
    pub number: u32,
    pub place: DiscRegion,
}
