//! Laws of exact numbers. Each is the contract of a function with an empty body.

ghost use Rattle.serde_json_path_numbers.specs.Laws.{EqualityIsEquivalence, IntegersKeepTheirOrder, LessIsStrictOrder, NumbersAreFinite};

/// Equality of numbers is an equivalence: each number equals itself, equal numbers are equal either way round, and numbers
/// that equal the same number are equal.
#[tactic(auto, using(crate::proofs::Floats::equality))]
pub fn law_equality_of_numbers()
    ensures { EqualityIsEquivalence }
{}

/// Less is a strict order of numbers that agrees with equality: no number is less than itself, what is less than a lesser
/// number is less, of two numbers exactly one of less, equal and greater holds, and equal numbers are less, and greater,
/// than the same numbers.
#[tactic(auto, using(crate::proofs::Floats::less_is_strict))]
pub fn law_order_of_numbers()
    ensures { LessIsStrictOrder }
{}

/// The number of every integer is finite, and so is that of every literal, so that the other laws hold of them.
#[tactic(auto, using(crate::proofs::Finite::all_finite))]
pub fn law_numbers_are_finite()
    ensures { NumbersAreFinite }
{}

/// Integers are equal as numbers where they are the same integer, and less where they are less as integers.
#[tactic(auto, using(crate::proofs::Forms::order_kept))]
pub fn law_integers_keep_their_order()
    ensures { IntegersKeepTheirOrder }
{}
