// How much is written, told now and then.

use conversation::Told;

// So many bytes are written between two lines that tell of it.
const STEP: usize = 16 << 20;

#[derive(Drop)]
pub struct Progress<'a> {
    pub rt: &'a HostRuntime,
    pub bytes: usize,
}

impl Progress<'_> {
    /// Where nobody listens any more, the edit is finished all the same.
    pub fn advance(&mut self, len: usize) {
        let before = self.bytes / STEP;
        self.bytes = self.bytes.saturating_add(len);
        if self.bytes / STEP != before {
            let _ = self.rt.println(Told::Progress(self.bytes as u64));
        }
    }
}
