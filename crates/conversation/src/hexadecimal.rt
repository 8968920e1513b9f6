// Bytes as pairs of hexadecimal digits in lower case.
ghost use Rattle.std.specs.Prelude.{◌≡◌, ◌↔◌, ◌*◌, ◌≤◌, false, Some, IfOk, IsTrue, EachIndex, length, slice_index};
ghost use Rattle.std.specs.Char.{is_ascii_uppercase};
ghost use Rattle.std.specs.Fmt.{WritesOnOk};
ghost use Rattle.hex.specs.Hex.{encode_lower};
ghost use Rattle.conversation.specs.Lines.{hex_word};

use crate::reading::Unread;
use std::alloc::Global;
use std::fmt;

// So many bytes are written at once.
const PIECE: usize = 256;

fn has_no_capital(word: &[u8]) -> bool
    ensures { IsTrue result ↔ EachIndex word.now (λ k. is_ascii_uppercase (slice_index word.now k) ≡ false) }
{
    word.iter().all(|digit| !digit.is_ascii_uppercase())
}

/// The bytes of a word; `-` stands for none.
pub fn read_hex(alloc: Global, word: &str) -> Result<Vec<u8>, Unread>
    ensures { IfOk result (λ bytes. hex_word bytes.items ≡ word.now) }
{
    if word == "-" {
        return Ok(Vec::new(alloc));
    }
    if word.is_empty() || !has_no_capital(word.as_bytes()) {
        return Err(Unread::Unknown);
    }
    Ok(hex::decode(alloc, word)?)
}

fn write_piece<W: fmt::Write>(f: &mut fmt::Formatter<W>, piece: &[u8]) -> fmt::Result
    requires { length piece.now ≤ 256 }
    ensures { WritesOnOk W.write_str_gives f.old result (encode_lower piece.now) f.new }
{
    let mut digits = [0; 2 * PIECE];
    let digits = &mut digits[..2 * piece.len()];
    hex::encode_to_slice(piece, digits).map_err(|_| fmt::Error)?;
    f.write_str(str::from_utf8(digits).map_err(|_| fmt::Error)?)
}

/// Bytes, to be written in digits.
#[derive(Clone, Copy)]
pub struct Hex<'a>(pub &'a [u8]);

impl fmt::Display for Hex<'_> {
    ghost output = { λ h. Some (encode_lower h.0.now) };

    fn fmt<W: fmt::Write>(&self, f: &mut fmt::Formatter<W>) -> fmt::Result {
        let mut left = self.0;
        while !left.is_empty() {
            let (piece, others) = left.split_at(left.len().min(PIECE));
            write_piece(f, piece)?;
            left = others;
        }
        Ok(())
    }
}
