// The conversation: recovery first, and then edits, one after the other, until one is stopped by a fault.
ghost use Rattle.std.specs.Prelude.{IsOk, IsTrue, IfOk, OnOk};
ghost use Rattle.counter_write.specs.Inner.Desk.{IsReady};

use crate::beside::Start;
use crate::desk::Desk;
use crate::front::{Front, Heard};
use crate::making::{Task, make, told_of};
use crate::memory::{DESK, Memory};
use crate::session::Session;
use conversation::{Asked, Told, What};
use journal::{Fault, Found, Stopped, resume};
use journaled::{Answer, Order};
use std::alloc::{AllocError, Global};
use std::io;
use totals::Totals;

fn fault_told(fault: Fault, begun: bool) -> Told<'static> {
    Told::Failed {
        on: fault.on.into(),
        begun,
        why: fault.why,
    }
}

// Tells what became of a task. Whether the conversation goes on.
fn tell_made(front: &mut Front<'_>, made: Result<Answer, Stopped>) -> io::Result<bool>
    ensures { IfOk result (λ goes_on. IsTrue goes_on → IsOk made) }
{
    if let Some(trouble) = front.trouble.take() {
        trouble?;
        front.tell(Told::Unknown)?;
        return Ok(false);
    }
    match made {
        Ok(answer) => {
            front.tell(told_of(answer))?;
            Ok(true)
        }
        Err(stopped) => {
            front.tell(fault_told(stopped.fault, stopped.begun))?;
            Ok(false)
        }
    }
}

fn make_edit<F: Desk>(
    alloc: Global,
    files: &mut F,
    front: &mut Front<'_>,
    memory: &mut Memory,
    session: &Session,
    totals: &mut Totals,
    team: u32,
    what: &What,
) -> io::Result<Result<Answer, Stopped>>
    requires { IsReady F.known (F.state files.old) }
    ensures { IfOk result (λ made. OnOk made (IsReady F.known (F.state files.new))) }
{
    let note = session.whole_note(alloc)?;
    let teams = session.teams(alloc)?;
    let task = Task::Edit(Order {
        request: what.request(),
        team,
        keeps_record: !session.record.is_empty(),
        teams: &teams,
        note: &note,
        number: session.number,
    });
    Ok(make(alloc, files, front, memory, totals, &task)?)
}

// An edit, and then no clip.
fn edit<F: Desk>(
    alloc: Global,
    files: &mut F,
    front: &mut Front<'_>,
    memory: &mut Memory,
    session: &mut Session,
    team: u32,
    what: &What,
) -> io::Result<bool>
    requires { IsReady F.known (F.state files.old) }
    ensures { IfOk result (λ goes_on. IsTrue goes_on → IsReady F.known (F.state files.new)) }
{
    let mut totals = session.totals;
    let made = make_edit(
        alloc,
        files,
        front,
        memory,
        session,
        &mut totals,
        team,
        what,
    )?;
    session.totals = totals;
    files.drop_clip();
    tell_made(front, made)
}

fn state<F: Desk>(
    alloc: Global,
    files: &mut F,
    front: &mut Front<'_>,
    memory: &mut Memory,
    session: &Session,
    maximum: u32,
) -> io::Result<bool>
    requires { IsReady F.known (F.state files.old) }
    ensures { IfOk result (λ goes_on. IsTrue goes_on → IsReady F.known (F.state files.new)) }
{
    let note = session.whole_note(alloc)?;
    let task = Task::Maximum {
        maximum,
        note: &note,
        number: session.number,
    };
    let mut totals = session.totals;
    let made = make(alloc, files, front, memory, &mut totals, &task)?;
    tell_made(front, made)
}

fn take_record<F: Desk>(
    files: &mut F,
    front: &Front<'_>,
    session: &mut Session,
    path: Option<String>,
) -> io::Result<bool>
    requires { IsReady F.known (F.state files.old) }
    ensures { IfOk result (λ goes_on. IsTrue goes_on → IsReady F.known (F.state files.new)) }
{
    session.named.clear();
    session.record.clear();
    if let Some(path) = &path {
        session.record.extend_from_slice(path.as_bytes())?;
    }
    files.take_record(path);
    match files.sync_record() {
        Ok(()) => Ok(true),
        Err(fault) => {
            front.tell(fault_told(fault, false))?;
            Ok(false)
        }
    }
}

fn take_clip<F: Desk>(
    files: &mut F,
    front: &Front<'_>,
    start: u64,
    len: u64,
    path: &str,
) -> io::Result<bool>
    requires { IsReady F.known (F.state files.old) }
    ensures { IfOk result (λ goes_on. IsTrue goes_on → IsReady F.known (F.state files.new)) }
{
    if let Err(fault) = files.take_clip(path, start, len) {
        front.tell(fault_told(fault, false))?;
    }
    Ok(true)
}

// Whether the conversation goes on.
fn answer<F: Desk>(
    alloc: Global,
    files: &mut F,
    front: &mut Front<'_>,
    memory: &mut Memory,
    session: &mut Session,
    asked: Asked,
) -> io::Result<bool>
    requires { IsReady F.known (F.state files.old) }
    ensures { IfOk result (λ goes_on. IsTrue goes_on → IsReady F.known (F.state files.new)) }
{
    match asked {
        Asked::Note(note) => session.note = note,
        Asked::Record(path) => return take_record(files, front, session, path),
        Asked::Listed(named) => session.named.push(named).map_err(AllocError::from)?,
        Asked::Totals(totals) => session.totals = totals,
        Asked::Clip { start, len, path } => {
            return take_clip(files, front, start, len, path.as_str());
        }
        Asked::Edit { team, what } => {
            return edit(alloc, files, front, memory, session, team, &what);
        }
        Asked::Maximum(maximum) => return state(alloc, files, front, memory, session, maximum),
        Asked::Go | Asked::Stop => {
            front.tell(Told::Unknown)?;
            return Ok(false);
        }
    }
    Ok(true)
}

fn converse<F: Desk>(
    alloc: Global,
    files: &mut F,
    front: &mut Front<'_>,
    number: u64,
) -> io::Result<bool>
    requires { IsReady F.known (F.state files.old) }
    ensures { IfOk result (λ well. IsTrue well → IsReady F.known (F.state files.new)) }
{
    let mut memory = Memory::new(alloc);
    let mut session = Session::new(alloc, number);
    for _ in 0..u64::MAX {
        let asked = match front.hear()? {
            Heard::Request(asked) => asked,
            Heard::End => return Ok(true),
            Heard::Stray => {
                front.tell(Told::Unknown)?;
                return Ok(false);
            }
        };
        if !answer(alloc, files, front, &mut memory, &mut session, asked)? {
            return Ok(false);
        }
    }
    Ok(true)
}

// Finishes the edit that was cut, if one was. Whether the conversation can begin.
fn recover<F: Desk>(
    alloc: Global,
    files: &mut F,
    front: &Front<'_>,
    start: &Start,
) -> io::Result<bool>
    ensures { IfOk result (λ goes_on. IsTrue goes_on → IsReady F.known (F.state files.new)) }
{
    let mut desk = vec![in alloc; 0u8; DESK]?;
    let found = match resume(files, start.owner, &mut desk) {
        Ok(found) => found,
        Err(fault) => {
            front.tell(fault_told(fault, start.is_cut))?;
            return Ok(false);
        }
    };
    if found == Found::Another {
        front.tell(Told::Another)?;
        return Ok(false);
    }
    let finished = found == Found::Finished;
    let note = if finished { start.note.as_slice() } else { b"" };
    front.tell(Told::Ready { finished, note })?;
    Ok(true)
}

/// Recovers, and then makes what the front asks for. Whether all went well.
pub fn serve<F: Desk>(
    alloc: Global,
    files: &mut F,
    front: &mut Front<'_>,
    start: &Start,
) -> io::Result<bool>
    ensures { IfOk result (λ well. IsTrue well → IsReady F.known (F.state files.new)) }
{
    if !recover(alloc, files, front, start)? {
        return Ok(false);
    }
    converse(alloc, files, front, start.number)
}
