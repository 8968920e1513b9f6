// One edit: with as much memory as its table asks for, and once more with the most where that was too little.
ghost use Rattle.std.specs.Prelude.{◌≡◌, ◌≤◌, length, OnOk, IfOk, [], IsOk, IsTrue};
ghost use Rattle.journal.specs.Disk.{Looks};
ghost use Rattle.journaled.specs.Inner.Clip.{ClipIs};
ghost use Rattle.counter_write.specs.Inner.Desk.{IsReady, Keeps};
ghost use Rattle.counter_write.specs.Inner.Making.{CanAsk, told_answer};

use crate::desk::Desk;
use crate::memory::{DESK, Memory};
use conversation::Told;
use journal::{Fault, Files, Stopped};
use journaled::{Answer, Order, Request, Watch, run, state_maximum};
use refusal::Refusal;
use std::alloc::{AllocError, Global};
use totals::Totals;

/// What is to be made.
#[derive(Clone, Copy)]
pub enum Task<'a> {
    Edit(Order<'a>),
    Maximum {
        maximum: u32,
        note: &'a [u8],
        number: u64,
    },
}

// How many bytes the image's table has, as its header says.
fn table_size<F: Files>(files: &mut F) -> Result<usize, Fault>
    ensures { Looks (F.state files.old) (F.state files.new) }
{
    if files.image_len() < 0x42C {
        return Ok(0);
    }
    let mut word = [0; 4];
    files.read_image(0x428, &mut word)?;
    Ok(u32::from_be_bytes(word) as usize)
}

// No clip but that of a fill.
fn choose_clip<F: Desk>(files: &mut F, request: &Request<'_>)
    requires { ClipIs request.now [] }
    ensures clip { ClipIs request.now (F.state files.new).clip }
    ensures keeps { Keeps (F.state files.old) (F.state files.new) }
{
    match request {
        Request::Edit(_) => files.drop_clip(),
        Request::Fill { .. } => {}
    }
}

fn attempt<F: Desk, W: Watch>(
    files: &mut F,
    watch: &mut W,
    memory: &mut Memory,
    desk: &mut [u8],
    totals: &mut Totals,
    task: &Task<'_>,
) -> Result<Answer, Stopped>
    requires ready { IsReady F.known (F.state files.old) }
    requires room { 4096 ≤ length desk.old }
    requires can { CanAsk task.now }
    ensures { OnOk result (IsReady F.known (F.state files.new)) }
{
    let Memory {
        table,
        words,
        bytes,
    } = memory;
    match task {
        Task::Edit(order) => {
            choose_clip(files, &order.request);
            run(files, watch, table, words, bytes, desk, totals, order)
        }
        Task::Maximum {
            maximum,
            note,
            number,
        } => {
            files.drop_clip();
            state_maximum(files, watch, table, words, desk, *maximum, note, *number)
        }
    }
}

// Whether more memory may give another answer.
fn wants_more(made: &Result<Answer, Stopped>) -> bool
    ensures { IsTrue result → IsOk made.now }
{
    matches!(
        made,
        Ok(Answer::Unread | Answer::Refused(Refusal::LimitOrMemory))
    )
}

/// Makes what is asked for. Without a fault the next one can be begun.
pub fn make<F: Desk, W: Watch>(
    alloc: Global,
    files: &mut F,
    watch: &mut W,
    memory: &mut Memory,
    totals: &mut Totals,
    task: &Task<'_>,
) -> Result<Result<Answer, Stopped>, AllocError>
    requires ready { IsReady F.known (F.state files.old) }
    requires can { CanAsk task.now }
    ensures { IfOk result (λ made. OnOk made (IsReady F.known (F.state files.new))) }
{
    let mut desk = vec![in alloc; 0u8; DESK]?;
    let size = match table_size(files) {
        Ok(size) => size,
        Err(fault) => {
            return Ok(Err(Stopped {
                begun: false,
                fault,
            }));
        }
    };
    memory.fit(alloc, size)?;
    let made = attempt(files, watch, memory, &mut desk, totals, task);
    if memory.is_full() || !wants_more(&made) {
        return Ok(made);
    }
    memory.fill(alloc)?;
    Ok(attempt(files, watch, memory, &mut desk, totals, task))
}

/// An answer, as it is told.
pub fn told_of(answer: Answer) -> Told<'static>
    ensures { result ≡ told_answer answer }
{
    match answer {
        Answer::Done(number) => Told::Done(number),
        Answer::Refused(refusal) => Told::Refused(refusal),
        Answer::Declined => Told::Declined,
        Answer::Unread => Told::Unread,
        Answer::Unkept => Told::Unkept,
    }
}
