//! Laws of the two shapes.

ghost use Rattle.ct_json.specs.Accepted.{JsonIsInstance, JsonIsScript};

/// An instance file that is accepted stands for an instance, and a session file for a script of an instance with so many
/// rows, of at most 64 phases.
pub fn files_are_inputs()
    ensures instance { JsonIsInstance }
    ensures script { JsonIsScript }
{}
