//! Laws of what queries mean. Each is the contract of a function with an empty body.

ghost use Rattle.std.specs.Prelude.{◌≡◌, List};
ghost use Rattle.serde_json_path_core.specs.Inside.Words.{Data, Located, Query, segments_of, FunctionSet, Triple, Before, IsResult, DescendantsInDocumentOrder, EachDocumentHasAHeight, EqualityIsAnEquivalence, EveryQueryHasAResult, LastSegmentSelectsAtEach, LessOrEqualIsEither, NotEqualNegatesEqual, OrderIsTotal, SingularQuerySelectsAtMostOne};

/// Of two derivations of one query, at most one comes before the other (RFC 9535, sections 2.5.1.2 and 2.5.2.2).
#[tactic(auto, using(crate::proofs::Meaning::Order::before_once))]
pub fn law_before_is_asymmetric()
    ensures { (q : Query) (xs ys : List Triple) → Before (segments_of q) xs ys
        → Before (segments_of q) ys xs → ⊥ }
{}

/// Of two different derivations of a well-typed query at one node, exactly one comes before the other (RFC 9535, sections
/// 2.5.1.2 and 2.5.2.2).
pub fn law_order_is_total()
    ensures { OrderIsTotal }
{}

/// Every well-typed query has a result at every node, whatever the function set and the document. With
/// [`law_result_is_unique`] a result is a function of them.
pub fn law_result_exists()
    ensures { EveryQueryHasAResult }
{}

/// A query has one result at most, whatever the function set and the document.
#[tactic(auto, using(crate::proofs::Meaning::Order::result_once))]
pub fn law_result_is_unique()
    ensures { (F : FunctionSet) (top : Data) (q : Query) (node : Data) (some other : List Located)
        → IsResult F top q node some → IsResult F top q node other → some ≡ other }
{}

/// Where comparisons take all numbers, `==` is an equivalence: every document's value equals itself, and so does every
/// literal and Nothing; equal sides are equal either way round, and sides that equal the same are equal.
///
/// That `<` is a strict order of numbers which agrees with it is [`law_order_of_numbers`].
///
/// [`law_order_of_numbers`]: serde_json_path_numbers::law_order_of_numbers
pub fn law_equality_is_an_equivalence()
    ensures { EqualityIsAnEquivalence }
{}

/// A singular query selects at most one node (RFC 9535, section 2.3.5.1).
///
/// Its segments are child segments of one name or one index each. Function set, document and node may be any.
pub fn law_singular_query_selects_at_most_one()
    ensures { SingularQuerySelectsAtMostOne }
{}

/// A comparison by `!=` yields the negation of the same comparison by `==` (RFC 9535, section 2.3.5.2.2).
///
/// The sides are well-typed, and the function set keeps types: where a function that is to answer a value answers
/// something else, its side stands for nothing that is compared, and neither comparison holds.
pub fn law_not_equal_negates_equal()
    ensures { NotEqualNegatesEqual }
{}

/// A comparison by `<=` holds where the one by `<` or the one by `==` does, and nowhere else (RFC 9535, section 2.3.5.2.2).
///
/// The sides and the function set may be any, well-typed or not.
pub fn law_less_or_equal_is_either()
    ensures { LessOrEqualIsEither }
{}

/// The result of a descendant segment is that of the child segment at the node, then those of each child's subtree: a node
/// is visited before its descendants, and the items of an array in array order (RFC 9535, section 2.5.2.2).
///
/// The query is well-typed and begins at the current node, so that it can be asked at each child; more segments may follow.
/// The RFC leaves the order of an object's members open; here it is that of the bytes of their names.
pub fn law_descendants_in_document_order()
    ensures { DescendantsInDocumentOrder }
{}

/// The result of a query with one more segment is, for each node of the shorter query's result in order, what that segment
/// selects at the node, below the node's location (RFC 9535, section 2.1.2).
///
/// The queries may be well-typed or not; both have the same root.
pub fn law_append()
    ensures { LastSegmentSelectsAtEach }
{}

/// Each document has one height: the length of its longest location, by which the places of a walk are bounded.
///
/// The document may be any.
pub fn law_each_document_has_a_height()
    ensures { EachDocumentHasAHeight }
{}
