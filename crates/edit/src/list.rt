// A list of edits, applied in turn as one call.
ghost use Rattle.std.specs.Prelude.{length, map};
ghost use Rattle.edit_rules.specs.Promise.{loan};
ghost use Rattle.ledger.specs.Lists.{calls_with, AppliesInTurn};
ghost use Rattle.ledger.specs.Lists.{LedgerHoldsAfter, TellsAfter, SharesHoldAfter};
ghost use Rattle.edit.specs.Asked.{turn_of};

use crate::pipeline;
use crate::pipeline::Edit;
use opened::Lent;
use refusal::{Refusal, Verdict};
use totals::Totals;

/// An edit, and the team whose turn it is.
#[derive(Clone, Copy, Debug, PartialEq, Eq)]
pub struct Turn<'a> {
    /// The team's number.
    pub team: u32,
    pub edit: Edit<'a>,
}

/// Each edit in turn, on the image as the edits before it left it; a refused edit changes nothing, and the
/// next one goes on. What an edit gives stands at its place in `answers`. Room for fewer answers than there
/// are edits is refused before anything is done.
// Kept: `image`, `words`, `bytes`, `totals` one by one, as in `pipeline` (N).
pub fn apply_all(
    image: &mut [u8],
    words: &mut [u32],
    bytes: &mut [u8],
    totals: &mut Totals,
    turns: &[Turn<'_>],
    answers: &mut [Result<u32, Refusal>],
) -> Verdict
    ensures applied { let before = loan image.old words.old bytes.old totals.old in
        let after = loan image.new words.new bytes.new totals.new in
        AppliesInTurn (map turn_of turns.now) before after answers.old answers.new result }
    ensures ledger_holds { let before = loan image.old words.old bytes.old totals.old in
        let after = loan image.new words.new bytes.new totals.new in
        let calls = calls_with (length answers.old) (map turn_of turns.now) before in
        LedgerHoldsAfter calls before after }
    ensures record_tells { let before = loan image.old words.old bytes.old totals.old in
        let after = loan image.new words.new bytes.new totals.new in
        let calls = calls_with (length answers.old) (map turn_of turns.now) before in
        TellsAfter calls before after }
    ensures shares_hold { let before = loan image.old words.old bytes.old totals.old in
        let after = loan image.new words.new bytes.new totals.new in
        let calls = calls_with (length answers.old) (map turn_of turns.now) before in
        SharesHoldAfter calls before after }
{
    let words = Lent::new(words);
    let bytes = Lent::new(bytes);
    if answers.len() < turns.len() {
        return Err(Refusal::LimitOrMemory);
    }
    // Kept: answers by their index (N): of what is written through `iter_mut` beside `zip` nothing is known
    // afterwards.
    for (i, turn) in turns.iter().enumerate() {
        let Turn { team, edit } = *turn;
        answers[i] = pipeline::run(image, words.memory, bytes.memory, totals, team, edit);
    }
    Ok(())
}
