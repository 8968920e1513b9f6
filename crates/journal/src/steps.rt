// The steps of a journal, carried out on the image.
ghost use Rattle.std.specs.Prelude.{◌≡◌, ◌<◌, true, length, OnOk};
ghost use Rattle.journal.specs.Disk.{Known, HasCause, with_image};
ghost use Rattle.journal.specs.Journal.{after, writes_of, steps_fit};
ghost use Rattle.journal.specs.Inner.Carried.{Carries, Loose};

use crate::files::{Fault, Files};
use crate::pieces::write_step;
use crate::plan::Step;

/// All of the steps, in order. A crash leaves an image on which they may have been done in part.
pub fn apply<F: Files>(files: &mut F, steps: &[Step], desk: &mut [u8]) -> Result<(), Fault>
    requires room { 0 < length desk.old }
    requires fits { let old = (F.state files.old).seen in
        steps_fit old.journal (length old.image) steps.now ≡ true }
    ensures done { OnOk result (Known F.known (let old = (F.state files.old).seen in
        (F.state files.new).seen ≡ with_image old (after (writes_of old.journal steps.now) old.image))) }
    ensures carried { Carries (Loose steps.now) (F.state files.old) (F.state files.new) }
    ensures cause { HasCause F.known (F.state files.old) (F.state files.new) result }
{
    for step in steps {
        write_step(files, *step, desk)?;
    }
    Ok(())
}
