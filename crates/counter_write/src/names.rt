// Files by their names.

use std::fs::File;
use std::io::{self, ErrorKind};
use std::process;

/// The folder that a path leads to.
pub fn folder_of(path: &str) -> &str {
    match path.rsplit_once('/') {
        Some(("", _)) => "/",
        Some((folder, _)) => folder,
        None => ".",
    }
}

/// A new file in the folder of that path, under a name that no other has.
pub fn new_name(rt: &HostRuntime, path: &str) -> io::Result<(String, File)> {
    let folder = folder_of(path);
    let first = process::id(rt.process());
    for count in 0..u32::MAX {
        let number = first.wrapping_add(count);
        let name = format!(in rt.alloc(); "{folder}/counter-record.{number}")?;
        match File::create_new(rt, name.as_str()) {
            Err(e) if e.kind() == ErrorKind::AlreadyExists => {}
            created => return Ok((name, created?)),
        }
    }
    Err(ErrorKind::AlreadyExists.into())
}
