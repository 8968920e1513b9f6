// What holds of changes with crashes and recoveries between them: the promise of a function that does nothing, so that a
// crate whose contracts hold is one in which it holds.
ghost use Rattle.journaled.specs.Theorem.{AnyEvents};

/// After any list of edits and stated maxima that ended, or were cut at any moment and then recovered, whatever cut the
/// recoveries, image and record are those of the changes that were made, in order: all whose answers say so, and those
/// that a recovery finished. What holds after any list of edits holds of the image, and the record's file is never ahead
/// of the image that recovery makes.
pub fn any_events()
    ensures { AnyEvents }
{}
