//! Laws of the grammar and of the typed grammar, each the contract of a function with an empty body.

ghost use Rattle.serde_json_path_parser.specs.Laws.{AllNumbersReadMore, OneTreeAtMost, PrintedTextReadsBack};

/// A text is accepted with one tree at most, whatever functions are declared.
///
/// It reads as at most one tree from the root that is well-typed under the signatures and nested at most 128 deep.
#[tactic(auto, using(crate::proofs::Grammar::Paths::one_tree_at_most))]
pub fn law_one_tree_at_most()
    ensures { OneTreeAtMost }
{}

/// A tree that some text reads as is printed as a text that reads as it.
///
/// The printed text may differ from the one that was read, as in blanks, quotes and escapes.
#[tactic(auto, using(crate::proofs::Printing::printed_reads_back))]
pub fn law_print()
    ensures { PrintedTextReadsBack }
{}

/// What is accepted by whole numbers is accepted by all numbers, with the same tree.
#[tactic(auto, using(crate::proofs::Grammar::ReadMore::all_numbers_read_more))]
pub fn law_all_numbers_read_more()
    ensures { AllNumbersReadMore }
{}
