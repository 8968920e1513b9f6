// What the front asks for at the start.

use std::{env, io};

#[derive(Drop)]
pub struct Arguments {
    /// Nothing is written.
    pub is_dry: bool,
    /// The journal is taken for this image's.
    pub anyway: bool,
    /// The record stays as it is, whatever the journal says.
    pub without_record: bool,
    pub name: String,
}

/// The name is the last of them, whatever it begins with. Nothing where they are not as they should be.
pub fn read(rt: &HostRuntime) -> io::Result<Option<Arguments>> {
    let mut words = env::args(rt)?.skip(1);
    let Some(name) = words.next_back() else {
        return Ok(None);
    };
    let mut read = Arguments {
        is_dry: false,
        anyway: false,
        without_record: false,
        name,
    };
    for word in words {
        match word.as_str() {
            "--dry-run" => read.is_dry = true,
            "--anyway" => read.anyway = true,
            "--without-record" => read.without_record = true,
            _ => return Ok(None),
        }
    }
    Ok(Some(read))
}
