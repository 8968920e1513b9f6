// What the calls answer that no crate below has a type for.
use executable::DolHeader;
use refusal::Verdict;
use window::Window;

/// Where a disc ends, and how many of its bytes are used.
#[repr(C)]
#[derive(Clone, Copy, PartialEq, Eq, Debug)]
pub struct DiscTotals {
    pub disc_end: u32,
    pub used: u32,
}

/// The executable: its header, and the window that shows it.
#[derive(Clone, Copy, PartialEq, Eq, Debug)]
pub struct DolFile {
    pub header: DolHeader,
    pub window: Window,
}

/// The first unit of a text: how many bytes it has, and what it is refused for in a name.
#[derive(Clone, Copy, PartialEq, Eq, Debug)]
pub struct FirstUnit {
    pub len: u32,
    pub verdict: Verdict,
}
