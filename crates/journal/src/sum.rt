// The sum of what a journal holds, by which a byte that was changed on the disk is noticed.
ghost use Rattle.std.specs.Prelude.{◌≡◌, ◌+◌, ◌-◌, ◌<◌, ◌≤◌, length, take, IfOk};
ghost use Rattle.endian.specs.Bytes.{span};
ghost use Rattle.journal.specs.Disk.{Known, Looks, HasCause};
ghost use Rattle.journal.specs.Journal as journal_of;
ghost use Rattle.journal.specs.Journal.{sum_from};

use crate::files::{Fault, Files};
use crate::head;

// Odd, so that another byte is always another sum.
const FACTOR: u64 = 0x9E37_79B9_7F4A_7C15;

// The sum once these bytes have followed.
fn sum_on(sum: u64, bytes: &[u8]) -> u64
    ensures { result ≡ sum_from sum bytes.now }
{
    let mut next = sum;
    for byte in bytes {
        next = next.wrapping_mul(FACTOR).wrapping_add(*byte as u64 + 1);
    }
    next
}

/// The sum of the journal's bytes behind the gates, up to `end`.
pub fn sum_up_to<F: Files>(files: &mut F, end: usize, desk: &mut [u8]) -> Result<u64, Fault>
    requires room { 0 < length desk.old }
    requires inside { end ≤ length (F.state files.old).seen.journal }
    ensures sum { IfOk result (λ sum. Known F.known
        (sum ≡ sum_from 0 (span (F.state files.old).seen.journal 2 (end - 2)))) }
    ensures looks { Looks (F.state files.old) (F.state files.new) }
    ensures cause { HasCause F.known (F.state files.old) (F.state files.new) result }
{
    let mut sum = 0;
    let mut at = 2;
    while at < end {
        let n = desk.len().min(end - at);
        let piece = &mut desk[..n];
        files.read_journal(at, piece)?;
        sum = sum_on(sum, piece);
        at += n;
    }
    Ok(sum)
}

/// Whether all of the journal with this head is as it was noted.
pub fn is_whole<F: Files>(files: &mut F, head: &[u8], desk: &mut [u8]) -> Result<bool, Fault>
    requires room { 0 < length desk.old }
    requires head { length head.now ≡ 1266 }
    requires same { Known F.known (head.now ≡ take 1266 (F.state files.old).seen.journal) }
    ensures whole { IfOk result (λ whole. Known F.known
        (whole ≡ journal_of.is_whole (F.state files.old).seen.journal)) }
    ensures looks { Looks (F.state files.old) (F.state files.new) }
    ensures cause { HasCause F.known (F.state files.old) (F.state files.new) result }
{
    let Some(end) = head::noted_end(head, files.journal_len()) else {
        return Ok(false);
    };
    let sum = sum_up_to(files, end, desk)?;
    let mut noted = [0; 8];
    files.read_journal(end, &mut noted)?;
    Ok(head::number(&noted, 0) == sum as usize)
}
