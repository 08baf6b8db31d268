//! Signatures of functions.

ghost use Rattle.std.specs.Prelude.{◌≤◌};

use crate::types::FunctionArgType;

/// The greatest number of parameters.
const MOST_PARAMS: usize = 8;

/// The types of a function's parameters, at most eight, and of its result (RFC 9535, section 2.4.1).
///
/// ```text
/// let Some(count) = Signature::new(&[FunctionArgType::Nodelist], FunctionArgType::Value) else { .. };
/// ```
#[derive(Clone, Copy, Debug)]
pub struct Signature {
    types: [FunctionArgType; MOST_PARAMS],
    count: usize,
    answer: FunctionArgType,
    ghost within: { count ≤ 8 },
}

impl Signature {
    ghost use Rattle.std.specs.Prelude.{◌≡◌, ◌<◌, ◌↔◌, length, map, IfSome, IsNone, IsTrue};
    ghost use Rattle.serde_json_path_functions.specs.Terms.{kind_view, signature_view};

    /// The signature of these parameters and this result; `None` for more than eight parameters.
    pub fn new(params: &[FunctionArgType], result_type: FunctionArgType) -> Option<Signature>
        ensures some { IfSome result (λ s.
            signature_view s
            ≡ record { params = map kind_view params.now; result = kind_view result_type }) }
        ensures none { IsNone result ↔ (8 < length params.now) }
    {
        if params.len() > MOST_PARAMS {
            return None;
        }
        let mut types = [FunctionArgType::Value; MOST_PARAMS];
        for (index, param) in params.iter().enumerate() {
            types[index] = *param;
        }
        Some(Signature {
            types,
            count: params.len(),
            answer: result_type,
        })
    }

    /// The types of the parameters, in order.
    pub fn params(&self) -> &[FunctionArgType]
        ensures { map kind_view result.now ≡ (signature_view self.now).params }
    {
        &self.types[..self.count]
    }

    /// The type of the result.
    pub fn result(&self) -> FunctionArgType
        ensures { kind_view result ≡ (signature_view self.now).result }
    {
        self.answer
    }

    /// Whether both have the same parameters and the same result.
    #[tactic(auto, using(crate::proofs::SameSignatures::of_signatures))]
    pub fn is_same(&self, other: &Signature) -> bool
        ensures { IsTrue result ↔ (signature_view self.now ≡ signature_view other.now) }
    {
        self.params() == other.params() && self.answer == other.answer
    }
}
