//! Slips in filters, where an expression should start, and at comparisons.

use crate::condition::Condition::{Any, Call, Empty, Ends, Name, Starts, Word};
use crate::slip::Slip;

/// Where an expression is expected.
pub(crate) const EXPRESSION: &[Slip] = slips! {
    Ends(&["=="]), Starts(&["="]) => "`==`";
    Ends(&["!="]), Starts(&["="]) => "`!=`";
    Ends(&["<"]), Starts(&[">"]) => "`!=`";
    Ends(&["!"]), Any => "`!` before a query, a call or `(`, as in `!@.a`";
    Any, Word(&["not"]) => "`!`";
    Any, Word(&["undefined", "nil", "none"]) => "`null`";
    Any, Word(&["true", "false", "null"]) => "`true`, `false` or `null` in small letters";
    Any, Word(&["nan", "infinity"]) => "JSON has no NaN and no infinity";
    Any, Word(&["length", "count", "value"]) => "`length(@.a)`: small letters, no blank before `(`";
    Any, Word(&["match", "search"]) => "`search(@.a, 'x')`: small letters, `(` right after the name";
    Any, Word(&["startswith"]) => "`match(@.a, 'x.*')`";
    Any, Word(&["endswith"]) => "`match(@.a, '.*x')`";
    Any, Word(&["typeof"]) => "there are no types in paths, but `@.a >= ''` holds of texts alone";
    Any, Call => "the RFC's functions are `length`, `count`, `match`, `search` and `value`";
    Any, Starts(&["“", "”", "‘", "’", "`"]) => "straight quotes, as in `'a'`";
    Any, Starts(&["\\\"", "\\'"]) => "`'a'`: no backslash before a quote";
    Ends(&[","]), Starts(&["/", "^", "[", ".", "*"]) => "`match(@.a, 'b.*')`: a pattern is quoted";
    Any, Starts(&["/"]) => "`match(@.a, 'b.*')`: a pattern is quoted";
    Any, Starts(&["[", "{"]) => "no array or object here: compare the parts, as `@[0] == 1`";
    Ends(&["=", "<", ">"]), Starts(&["("]) => "`@.a == 1`: parentheses are for logical expressions";
    Ends(&["=", "<", ">"]), Starts(&["!"]) => "`!(@.a == @.b)`, or `!=`";
    Ends(&["=", "<", ">"]), Starts(&["]", ")", "&", "|"]) => "a value to compare with, as in `@.a == 1`";
    Ends(&["?"]), Starts(&["]"]) => "`[?@.a]` for a test, `[*]` for all";
    Ends(&["&&", "||"]), Starts(&["]", ")"]) => "a test after `&&` or `||`";
    Any, Starts(&["&", "|"]) => "a test before `&&` or `||`";
    Ends(&[","]), Starts(&[")"]) => "no comma before `)`";
    Any, Starts(&["-."]) => "`-0.5`: a digit before the point";
    Any, Starts(&["."]) => "`0.5` or `@.a`: a digit or `@` before the dot";
    Any, Starts(&["-"]) => "a digit right after `-`, as in `-1`";
    Any, Starts(&["+"]) => "`1` without `+`";
    Any, Starts(&["*"]) => "`@.*`";
    Any, Name => "`'a'` for a text, `@.a` for a member";
    Any, Empty => "an expression and the closing `]`";
};

/// At a query of several nodes that is compared.
pub(crate) const COMPARED_QUERY: &[Slip] = slips! {
    Ends(&["count("]), Any => "`count(@.*) > 1`: `)` before the comparison";
    Any, Any => "a query of one node, or a filter within: `@..[?@.a == 1]`";
};

/// Where the nesting is too deep.
pub(crate) const NESTING: &[Slip] = slips! {
    Any, Any => "fewer filters, parentheses and calls in one another";
};
