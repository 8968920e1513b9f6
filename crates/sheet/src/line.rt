// A line of a sheet: what it asks for, and its path.
ghost use Rattle.std.specs.Prelude.{◌≡◌, ◌<◌, ◌≤◌, IfOk, IfErr, length};
ghost use Rattle.refusal.specs.declared.Refusal.TheVariants.{LimitOrMemory};
ghost use Rattle.sheet.specs.Layout.{path_of};
ghost use Rattle.sheet.specs.Inner.Read.{line_of};

use refusal::Refusal;
use tree::PATH_LIMIT;

/// What a line asks for. Offsets and sizes are in bytes.
#[derive(Clone, Copy, Debug, PartialEq, Eq)]
pub enum Asked {
    /// An empty directory, the last child of the directory that the path names before its last `/`.
    MakeDirectory,
    /// An empty file, with offset 0, there.
    MakeFile,
    /// The file goes to another offset.
    Move { offset: u32 },
    /// The file gets another size, and another place where it cannot grow where it is.
    Resize { size: u32 },
}

/// A line of a sheet.
#[derive(Clone, Copy, Debug, PartialEq, Eq)]
pub struct Line<'a> {
    pub asked: Asked,
    /// The texts from its path on.
    pub text: &'a [u8],
}

impl<'a> Line<'a> {
    /// Its path, which leads from the root, without the zero byte that ends it; 9 where it has more than
    /// 1,024 bytes. At most one byte behind these is looked at.
    pub fn path(self) -> Result<&'a [u8], Refusal>
        ensures whole { IfOk result (λ path. path.now ≡ path_of (line_of self.entry)) }
        ensures short { IfOk result (λ path. length path.now ≤ 1024) }
        ensures long { IfErr result (λ cause.
            (cause ≡ LimitOrMemory) × (1024 < length (path_of (line_of self.entry)))) }
    {
        let bytes = self.text.iter().take(PATH_LIMIT + 1);
        let length = bytes.take_while(|b| **b != 0).count();
        if PATH_LIMIT < length {
            return Err(Refusal::LimitOrMemory);
        }
        Ok(&self.text[..length])
    }
}
