//! A law of the definitions, for the crates above.

ghost use Rattle.serde_json_path_nodes.specs.Laws.{TextsTellLocations};

/// Locations are equal exactly where their normalised paths are (RFC 9535, section 2.7).
///
/// It holds where names are Unicode text, as every borrowed name is. The law is the contract; the function does nothing.
#[tactic(auto, using(crate::proofs::TextsApart::texts_tell_locations))]
pub fn law_texts_tell_locations()
    ensures { TextsTellLocations }
{}
