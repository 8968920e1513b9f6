// The memory that is lent for an edit: as much as the image's table asks for, or the most.

use std::alloc::{AllocError, Global};

/// Bytes that are copied at once.
pub const DESK: usize = 256 << 10;

// No table has more entries, and none is longer.
const MOST_ENTRIES: usize = 16384;

const MOST_TABLE: usize = 12 * MOST_ENTRIES + 1048576;

// What a table may grow by.
const ROOM: usize = 64 << 10;

#[derive(Drop)]
pub struct Memory {
    pub table: Vec<u8>,
    pub words: Vec<u32>,
    pub bytes: Vec<u8>,
}

impl Memory {
    pub fn new(alloc: Global) -> Memory {
        Memory {
            table: Vec::new(alloc),
            words: Vec::new(alloc),
            bytes: Vec::new(alloc),
        }
    }

    // For tables of that length. What was lent before is given back first.
    fn lend(&mut self, alloc: Global, len: usize) -> Result<(), AllocError> {
        *self = Memory::new(alloc);
        let entries = (len / 12).min(MOST_ENTRIES);
        self.table = vec![in alloc; 0u8; len]?;
        self.words = vec![in alloc; 0u32; 4 * (entries + 2)]?;
        self.bytes = vec![in alloc; 0u8; len]?;
        Ok(())
    }

    /// Enough for most edits of a table of that size.
    pub fn fit(&mut self, alloc: Global, size: usize) -> Result<(), AllocError> {
        let size = size.min(MOST_TABLE);
        if self.table.is_empty() || self.table.len() < size {
            self.lend(alloc, (2 * size + ROOM).min(MOST_TABLE))?;
        }
        Ok(())
    }

    pub fn is_full(&self) -> bool {
        self.table.len() == MOST_TABLE
    }

    /// Enough for each edit.
    pub fn fill(&mut self, alloc: Global) -> Result<(), AllocError> {
        self.lend(alloc, MOST_TABLE)
    }
}
