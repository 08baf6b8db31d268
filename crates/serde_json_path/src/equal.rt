//! Equality of paths.

ghost use Rattle.std.specs.Prelude.{◌≡◌, ◌↔◌, IsTrue};
ghost use Rattle.serde_json_path.specs.Words.{same_query, path_tree};

use crate::path::JsonPath;

/// Two paths are equal where their trees are: `$["a"]` equals `$[ 'a' ]`, and neither equals `$.a`. The signatures that
/// they keep are not compared.
impl PartialEq for JsonPath {
    ghost use Rattle.serde_json_path.specs.Words.{partial_equiv_from_equiv, same_paths-equiv};

    ghost eq = { λ mine theirs. same_query (path_tree mine) (path_tree theirs) };

    ghost laws = { partial_equiv_from_equiv same_paths-equiv };

    fn eq(&self, other: &JsonPath) -> bool
        ensures computes { result ≡ same_query (path_tree self.now) (path_tree other.now) }
        ensures same { IsTrue result ↔ (path_tree self.now ≡ path_tree other.now) }
    {
        self.checked == other.checked
    }
}

impl Eq for JsonPath {
    ghost use Rattle.serde_json_path.specs.Inside.SamePaths.{same_paths-equiv};

    ghost laws = { same_paths-equiv };
}
