//! Laws of what a session shows, as contracts of functions that do nothing.

ghost use Rattle.ct_session.specs.Laws.{ShownInParts, ShownRises, AsksTakeWords};

/// The lines and words of a script are those of its parts, whichever way it is parted; the pinned number rises; and asks
/// alone, as those after the last solve, take one word each, which decide the version that is then pinned.
pub fn scripts_go_part_by_part()
    ensures parts { ShownInParts }
    ensures rises { ShownRises }
    ensures words { AsksTakeWords }
{}
