//! Slips at calls.

use crate::condition::Condition::{Any, Ends, Near, Starts, Word};
use crate::slip::Slip;

/// At a function that is not declared.
pub(crate) const FUNCTION: &[Slip] = slips! {
    Any, Near(&["length"]) => "`length`";
    Any, Near(&["count"]) => "`count`";
    Any, Near(&["match"]) => "`match`";
    Any, Near(&["search"]) => "`search`";
    Any, Near(&["value"]) => "`value`";
    Any, Word(&["size", "len", "strlen"]) => "`length`, or `count` for the nodes of a query";
    Any, Word(&["not"]) => "`!`";
    Any, Word(&["contains", "includes"]) => "`search(@.a, 'x')`";
    Any, Word(&["startswith", "starts_with"]) => "`match(@.a, 'x.*')`";
    Any, Word(&["endswith", "ends_with"]) => "`match(@.a, '.*x')`";
    Any, Word(&["matches", "regex", "test", "like"])
        => "`match(@.a, 'b.*')`, or `search` for a part of the text";
    Any, Word(&["exists", "has", "defined"]) => "`[?@.a]`: a query alone tests that there is a node";
    Any, Word(&["empty", "is_empty"]) => "`length(@.a) == 0`";
    Any, Word(&["typeof", "type"]) => "there are no types in paths, but `@.a >= ''` holds of texts alone";
    Any, Any => "the RFC's functions are `length`, `count`, `match`, `search` and `value`";
};

/// At a call with too many or too few arguments.
pub(crate) const NUMBER_OF_ARGUMENTS: &[Slip] = slips! {
    Any, Starts(&["length("]) => "one argument, as in `length(@.a)`";
    Any, Starts(&["count(", "value("]) => "one argument, as in `count(@.*)`";
    Any, Starts(&["match(", "search("]) => "two arguments, as in `match(@.a, 'b.*')`";
};

/// At an argument of the wrong type.
pub(crate) const ARGUMENT: &[Slip] = slips! {
    Ends(&["length("]), Starts(&["@", "$"]) => "`count(@.*)`: `length` takes one value";
    Ends(&["count(", "value("]), Any => "a query, as in `count(@.*)`";
    Ends(&["match(", "search(", ","]), Starts(&["@", "$"])
        => "a query of one node, as in `match(@.a, 'b.*')`";
};

/// At a call whose result may not stand there.
pub(crate) const RESULT: &[Slip] = slips! {
    Any, Starts(&["match(", "search("]) => "`match(@.a, 'b.*')` alone: it is a test already";
    Any, Starts(&["count("]) => "a comparison, as in `count(@.*) > 0`, or `@.*` alone";
    Any, Starts(&["length(", "value("]) => "a comparison, as in `length(@.a) > 0`";
};
