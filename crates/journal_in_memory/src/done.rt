// What is done to files in memory.

/// The bytes of an image, its journal and its record.
#[derive(Drop)]
pub struct Contents {
    pub image: Vec<u8>,
    pub journal: Vec<u8>,
    pub record_text: Vec<u8>,
}

/// What was done to them. A sync has the bytes that were on the disk after it.
#[derive(Drop)]
pub enum Event {
    WroteImage(usize, Vec<u8>),
    WroteJournal(usize, Vec<u8>),
    PutRecord(Vec<u8>),
    SyncedImage(Vec<u8>),
    SyncedJournal(Vec<u8>),
    SyncedRecord(Vec<u8>),
}
