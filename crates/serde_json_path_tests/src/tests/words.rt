//! Words (RFC 9535, sections 2.3.5.1 and 2.4).

/// Paths and documents, with what is selected, and texts, with their refusals.
pub(crate) const ROWS: &[&str] = &[
    "$[?@ == false,0] ~ [true,false] -> $[1] $[0] ~ false true",
    "$[?(@ == null )] ~ [true,null] -> $[1] ~ null",
    // A literal, and what comes after it.
    "$[?@ == nullX] -> ExpectedClosingBracket 13",
    "$[?null(@)] -> UndefinedFunction 4",
    // A word that is no literal.
    "$[?tru -> ExpectedExpression 4",
    "$[?trues e] -> ExpectedExpression 4",
    "$[?truE == @] -> ExpectedExpression 4",
    "$[?@ == falsehood] -> ExpectedExpression 9",
    "$[?@ == fals] -> ExpectedExpression 9",
    "$[?nul(@)] -> UndefinedFunction 4",
    "$[?@ == nall] -> ExpectedExpression 9",
    "$[?match2_(@, 'a')] -> UndefinedFunction 4",
    "$[?@ == f] -> ExpectedExpression 9",
    "$[?t(@)] -> UndefinedFunction 4",
    "$[?@ == n] -> ExpectedExpression 9",
    "$[?@ == x] -> ExpectedExpression 9",
];
