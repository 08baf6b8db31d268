//! Comparison operators (RFC 9535, section 2.3.5.1).

ghost use Rattle.std.specs.Prelude.{◌≡◌, ◌++◌, codes};
ghost use Rattle.serde_json_path_syntax.specs.Words.{operator_view, operator_text};

/// How the two sides of a comparison are compared.
#[derive(Clone, Copy, Debug, PartialEq, Eq)]
pub enum ComparisonOperator {
    /// `==`.
    EqualTo,
    /// `!=`.
    NotEqualTo,
    /// `<`.
    LessThan,
    /// `<=`.
    LessThanEqualTo,
    /// `>`.
    GreaterThan,
    /// `>=`.
    GreaterThanEqualTo,
}

impl ComparisonOperator {
    /// The operator as it is written, as `==`.
    pub fn sign(self) -> &'static str
        ensures { result.now ≡ operator_text (operator_view self) }
    {
        match self {
            ComparisonOperator::EqualTo => "==",
            ComparisonOperator::NotEqualTo => "!=",
            ComparisonOperator::LessThan => "<",
            ComparisonOperator::LessThanEqualTo => "<=",
            ComparisonOperator::GreaterThan => ">",
            ComparisonOperator::GreaterThanEqualTo => ">=",
        }
    }

    /// The same with a blank before it and one after it, for one write.
    pub(crate) fn sign_in_blanks(self) -> &'static str
        ensures { result.now ≡ codes " " ++ operator_text (operator_view self) ++ codes " " }
    {
        match self {
            ComparisonOperator::EqualTo => " == ",
            ComparisonOperator::NotEqualTo => " != ",
            ComparisonOperator::LessThan => " < ",
            ComparisonOperator::LessThanEqualTo => " <= ",
            ComparisonOperator::GreaterThan => " > ",
            ComparisonOperator::GreaterThanEqualTo => " >= ",
        }
    }
}
