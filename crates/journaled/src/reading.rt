// The parts of an image that opening reads, read from its file: the header, the table, the executable's header.
ghost use Rattle.std.specs.Prelude.{◌≡◌, ◌+◌, ◌≤◌, length, take, slice_index, EachIndex, IfOk, IfSome, IfNone};
ghost use Rattle.endian.specs.Bytes.{AllBytes};
ghost use Rattle.opened.specs.Inner.Parts.{ArePartsOf};
ghost use Rattle.journal.specs.Disk.{Known, HasCause};
ghost use Rattle.journaled.specs.Edited.{IsTableTooLong};
ghost use Rattle.journaled.specs.Inner.Behind as behind;
ghost use Rattle.journaled.specs.Inner.Behind.{image_behind, IsHeader, IsTable, IsProgram, IsRead};

use executable::DOL_HEADER_LEN;
use header::HEADER_LEN;
use journal::{Fault, Files};
use opened::Parts;

// The header, or all where the image is shorter: how many bytes that is.
fn read_header<F: Files>(files: &mut F, header: &mut [u8]) -> Result<usize, Fault>
    requires { length header.old ≡ 0x440 }
    ensures header { IfOk result (λ n.
        IsHeader F.known (F.state files.old).seen.image (take n header.new)) }
    ensures within { IfOk result (λ n. n ≤ length header.old) }
    ensures read { IsRead (F.state files.old) (F.state files.new) }
    ensures cause { HasCause F.known (F.state files.old) (F.state files.new) result }
{
    let n = files.image_len().min(HEADER_LEN);
    files.read_image(0, &mut header[..n])?;
    Ok(n)
}

// The table, where the header passes its tests, and how many bytes it has; nothing where these are more than `table`.
fn read_table<F: Files>(
    files: &mut F,
    header: &[u8],
    table: &mut [u8],
) -> Result<Option<usize>, Fault>
    requires { IsHeader F.known (F.state files.old).seen.image header.now }
    ensures table { IfOk result (λ read. IfSome read (λ n.
        IsTable F.known (F.state files.old).seen.image header.now (take n table.new))) }
    ensures within { IfOk result (λ read. IfSome read (λ n. n ≤ length table.old)) }
    ensures long { IfOk result (λ read. IfNone read (Known F.known
        (IsTableTooLong (length table.old) (F.state files.old).seen.image))) }
    ensures read { IsRead (F.state files.old) (F.state files.new) }
    ensures cause { HasCause F.known (F.state files.old) (F.state files.new) result }
{
    let len = files.image_len() as u64;
    if header::check_bounds_within(header, len).is_err() {
        return Ok(Some(0));
    }
    let size = header::fst_size(header) as usize;
    if table.len() < size {
        return Ok(None);
    }
    files.read_image(header::fst_offset(header) as usize, &mut table[..size])?;
    Ok(Some(size))
}

// The byte that the header or the table has at `at`, or else the one that was read there.
fn byte_in(header: &[u8], table: &[u8], at: usize, read: u8) -> u8
    ensures { result ≡ behind.byte_in header.now table.now at read }
{
    if at < header.len() {
        return header[at];
    }
    let start = header::fst_offset(header) as usize;
    if start <= at && at - start < table.len() {
        return table[at - start];
    }
    read
}

// Takes from the header and the table what they have of the bytes from `at` on. Where the files are as a contract
// knows them it is what was read.
fn take_held(header: &[u8], table: &[u8], at: u32, program: &mut [u8])
    requires { length program.old ≡ 0xE4 }
    ensures { EachIndex program.new (λ i. slice_index program.new i
        ≡ behind.byte_in header.now table.now (at + i) (slice_index program.old i)) }
{
    for (i, byte) in program.iter_mut().enumerate() {
        *byte = byte_in(header, table, at as usize + i, *byte);
    }
}

// The executable's header, where the image has it: how many bytes that is.
fn read_program<F: Files>(
    files: &mut F,
    header: &[u8],
    table: &[u8],
    program: &mut [u8],
) -> Result<usize, Fault>
    requires header { IsHeader F.known (F.state files.old).seen.image header.now }
    requires table { IsTable F.known (F.state files.old).seen.image header.now table.now }
    requires room { length program.old ≡ 0xE4 }
    ensures program { IfOk result (λ n. IsProgram F.known (F.state files.old).seen.image
        header.now table.now (take n program.new)) }
    ensures within { IfOk result (λ n. n ≤ length program.old) }
    ensures read { IsRead (F.state files.old) (F.state files.new) }
    ensures cause { HasCause F.known (F.state files.old) (F.state files.new) result }
{
    let at = header::dol_offset(header);
    if files.image_len() < at as usize + DOL_HEADER_LEN {
        return Ok(0);
    }
    files.read_image(at as usize, program)?;
    take_held(header, table, at, program);
    Ok(DOL_HEADER_LEN)
}

// What the bytes of a part are is known of a parameter.
fn of_bytes(part: &[u8])
    ensures { AllBytes part.now }
{}

/// The parts, or nothing where the table is longer than `table`. Where the executable's header overlaps the header or the
/// table, its bytes are those of the first read, so that all are parts of one image, whatever the file returned.
pub fn read_parts<'a, F: Files>(
    files: &mut F,
    header: &'a mut [u8],
    table: &'a mut [u8],
    program: &'a mut [u8],
) -> Result<Option<Parts<'a>>, Fault>
    requires header { length header.old ≡ 0x440 }
    requires program { length program.old ≡ 0xE4 }
    ensures parts { IfOk result (λ read. IfSome read (λ parts.
        ArePartsOf (image_behind F.known (F.state files.old).seen.image parts) parts)) }
    ensures len { IfOk result (λ read. IfSome read (λ parts.
        parts.length ≡ length (F.state files.old).seen.image)) }
    ensures long { IfOk result (λ read. IfNone read (Known F.known
        (IsTableTooLong (length table.old) (F.state files.old).seen.image))) }
    ensures read { IsRead (F.state files.old) (F.state files.new) }
    ensures cause { HasCause F.known (F.state files.old) (F.state files.new) result }
{
    let length = files.image_len() as u64;
    let n = read_header(files, header)?;
    let header = &header[..n];
    let Some(n) = read_table(files, header, table)? else {
        return Ok(None);
    };
    let table = &table[..n];
    let n = read_program(files, header, table, program)?;
    let program = &program[..n];
    of_bytes(header);
    of_bytes(table);
    of_bytes(program);
    Ok(Some(Parts {
        header,
        table,
        program,
        length,
    }))
}
