//! Writes to an image what the front asks for: the only program that opens one for writing.
#![tactic(auto)]

mod arguments;
mod beside;
mod desk;
mod files;
mod front;
mod making;
mod memory;
mod names;
mod parts;
mod progress;
mod serving;
mod session;

use front::Front;
use std::io;
use std::process::ExitCode;

fn main(rt: HostRuntime) -> io::Result<ExitCode> {
    let Some(asked) = arguments::read(&rt)? else {
        eprintln!(rt; "counter-write is started by counter: see `counter help`")?;
        return Ok(ExitCode::FAILURE);
    };
    let mut front = Front::new(&rt, asked.is_dry)?;
    let (mut real, start) = match beside::open(&rt, &asked) {
        Ok(opened) => opened,
        Err(told) => {
            front.tell(told)?;
            return Ok(ExitCode::FAILURE);
        }
    };
    let served = serving::serve(rt.alloc(), &mut real, &mut front, &start);
    if !asked.is_dry {
        // One that stays is closed, and does no harm.
        let _ = beside::take_away(&rt, real.journal.path.as_str());
    }
    Ok(if served? {
        ExitCode::SUCCESS
    } else {
        ExitCode::FAILURE
    })
}
