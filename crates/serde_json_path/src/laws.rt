//! Laws of paths, the contracts of functions with empty bodies.

ghost use Rattle.serde_json_path.specs.Laws.{LocationsAreProper, Normal, SetBeforeItself};

/// The normalised path that a location prints is accepted, with one tree alone, and selects the location's node alone (RFC
/// 9535, section 2.7). The tree has a bracket of one name or one index for each step, and calls nothing.
///
/// It holds where names are Unicode text, as every borrowed name is, and where indexes can be written, up to 2 ^ 53 - 1;
/// for every function set and document.
pub fn law_normal()
    ensures { Normal }
{}

/// The names on the way to a value of a document are Unicode text.
///
/// So a location that a result gave is one of which [`law_normal`] speaks, if its indexes can be written.
pub fn law_locations_are_proper()
    ensures { LocationsAreProper }
{}

/// A function set before itself fits what it fits alone.
///
/// So a path for which `fits(&Builtin)` is true may be asked by `query`.
pub fn law_set_before_itself()
    ensures { SetBeforeItself }
{}
