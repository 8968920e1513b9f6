// What a fill decides on: the file is resized to the clip, and then the clip is the file.
ghost use Rattle.std.specs.Prelude.{◌≡◌, length};
ghost use Rattle.edit_rules.specs.Edits as edits_of;
ghost use Rattle.edit_rules.specs.Edits.{plan_of};
ghost use Rattle.edit.specs.Inner.Decision.{DecidesWith};
ghost use Rattle.edit.specs.Inner.Filling as filling_of;
ghost use Rattle.edit.specs.Inner.Filling.{EachClip};

use crate::decision::{Decision, Writing};
use crate::file::File;
use crate::{finding, resizing};
use opened::OpenDisc;
use refusal::Refusal;

// A resize's decision with the clip: a file of the clip's size stays where it is, and only the clip is
// written. No byte of the old file is copied, since the clip covers what a resize would copy.
fn with_clip(decision: Decision, file: File) -> Decision
    ensures { result ≡ filling_of.with_clip decision file }
{
    let number = file.number;
    match decision {
        Decision::Nothing | Decision::Clip { .. } => Decision::Clip {
            number,
            at: file.place.offset,
        },
        Decision::Write { size, writing, .. } => Decision::Write {
            number,
            size,
            writing: Writing { kept: 0, ..writing },
        },
    }
}

// Kept: the disc and the bytes side by side, as in `decide`.
/// The file of that number becomes a clip of so many bytes: 15, 16, 21 for a clip that no place can hold, then
/// as a resize to that length. The clip itself is not asked for before the decision is carried out.
pub fn fill(
    disc: &OpenDisc<'_>,
    bytes: &mut [u8],
    number: u32,
    clip_len: usize,
) -> Result<Decision, Refusal>
    ensures { EachClip clip_len (λ clip.
        let plan = plan_of (edits_of.fill_file number clip) disc.now.disc in
        DecidesWith clip plan disc.now (length bytes.old) bytes.new result) }
{
    let file = finding::file_on_disc(disc, number)?;
    let Ok(new_size) = u32::try_from(clip_len) else {
        return Err(Refusal::NotEnoughSpace);
    };
    let decision = resizing::resize(disc, bytes, file, new_size)?;
    Ok(with_clip(decision, file))
}
