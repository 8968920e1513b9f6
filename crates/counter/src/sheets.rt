// An edit sheet.
ghost use Rattle.std.specs.Prelude.{◌≡◌};
ghost use Rattle.edit_rules.specs.Promise.{loan};
ghost use Rattle.sheet_run.specs.Run.{RunsSheet};
ghost use Rattle.counter.specs.Replies.{reply, one_word, sheet_reply, totals_in};

use crate::slots;
use sheet_run::Refused;

// The number, and the line that it is told of: 0 where all lines ran.
fn give_line(line: &mut u32, answer: Result<(), Refused>) -> u32
    ensures { reply result (one_word line.new) ≡ sheet_reply answer }
{
    match answer {
        Ok(()) => {
            *line = 0;
            0
        }
        Err(refused) => {
            *line = refused.line;
            refused.cause.into()
        }
    }
}

// Kept: image, words, bytes and record one by one, as C lends them (C).
#[unsafe(no_mangle)]
pub extern "C" fn counter_sheet(
    image: &mut [u8],
    words: &mut [u32],
    bytes: &mut [u8],
    totals: &mut [u32; 66],
    team: u32,
    sheet: &[u8],
    line: &mut u32,
) -> u32
    ensures { RunsSheet sheet_reply sheet.now team
        (loan image.old words.old bytes.old (totals_in totals.old))
        (loan image.new words.new bytes.new (totals_in totals.new)) (reply result (one_word line.new)) }
{
    let mut record = slots::totals_in(totals);
    let ran = sheet_run::run_sheet(image, words, bytes, &mut record, team, sheet);
    *totals = slots::totals_words(&record);
    give_line(line, ran)
}
