// What an entry is.
ghost use Rattle.std.specs.Prelude.{◌≡◌, ◌+◌, ◌*◌, ◌≤◌, ◌<◌, length, IfSome, IfNone};
ghost use Rattle.tree.specs.Table.{kind};
ghost use Rattle.table_writing.specs.Inner.Kind.{kind_number, kind_is_directory};

/// What an entry is, by the number that a table stores.
#[derive(Clone, Copy, PartialEq, Eq, Debug)]
pub enum Kind {
    File = 0,
    Directory = 1,
}

impl Kind {
    /// What the number of a table stands for, if it is one of the two.
    pub fn from_number(number: u8) -> Option<Kind>
        ensures known { IfSome result (λ kind. kind_number kind ≡ number) }
        ensures unknown { IfNone result (1 < number) }
    {
        match number {
            0 => Some(Kind::File),
            1 => Some(Kind::Directory),
            _ => None,
        }
    }

    /// What entry k of a table is, which is one of the two.
    pub fn of(table: &[u8], k: usize) -> Kind
        requires within { 12 * k + 12 ≤ length table.now }
        requires known { kind table.now k ≤ 1 }
        ensures { kind_number result ≡ kind table.now k }
    {
        match table[12 * k] {
            0 => Kind::File,
            _ => Kind::Directory,
        }
    }

    /// The number that a table stores.
    pub fn number(self) -> u8
        ensures { result ≡ kind_number self }
    {
        self as u8
    }

    /// Whether it is a directory.
    pub fn is_directory(self) -> bool
        ensures { result ≡ kind_is_directory self }
    {
        matches!(self, Kind::Directory)
    }
}
