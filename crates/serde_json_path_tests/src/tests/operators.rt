//! Comparison operators (RFC 9535, section 2.3.5.1).

/// A text, and the kind and the position of its refusal.
pub(crate) const ROWS: &[&str] = &[
    // After the operator that is read.
    "$[?@ <== 1] -> ExpectedExpression 8",
    "$[?@ << 1] -> ExpectedExpression 7",
    "$[?@ > = 1] -> ExpectedExpression 8",
    "$[?@ <é] -> ExpectedExpression 7",
    // Where no operator is read.
    "$[?1 ! -> ExpectedComparisonOperator 6",
    "$[?@ => 1] -> ExpectedClosingBracket 6",
    "$[?@ = = 1] -> ExpectedClosingBracket 6",
    "$[?@ !é= 1] -> ExpectedClosingBracket 6",
    "$[?1 a] -> ExpectedComparisonOperator 6",
];
