//! Operands and arguments, as the code that uses them sees them.

use crate::literal::LiteralValue;
use crate::node::Part;
use serde_json_path_functions::FunctionArgType;

/// What stands as an operand or an argument (RFC 9535, sections 2.3.5.1 and 2.4).
#[derive(Clone, Copy)]
pub enum ArgumentRef<'t> {
    /// A literal.
    Literal(&'t LiteralValue),
    /// A query.
    Query(Part),
    /// A call, by the type of its result.
    Call(FunctionArgType),
    /// A logical expression that is no operand.
    Logical,
}
