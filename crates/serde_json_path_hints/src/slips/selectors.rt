//! Slips in brackets, outside filters.

use crate::condition::Condition::{
    Any, Dashed, Digit, Empty, Ends, EndsInDigit, Holds, Name, Starts, Word,
};
use crate::slip::Slip;

/// Where a selector is expected.
pub(crate) const SELECTOR: &[Slip] = slips! {
    Ends(&[","]), Starts(&["]"]) => "no comma before `]`";
    Any, Starts(&[","]) => "one comma less";
    Any, Starts(&["]"]) => "`[*]` for all";
    Any, Empty => "a selector and the closing `]`";
    Any, Starts(&["(@.length", "(@.size", "@.length", "@.size", "$.length", "$.size", "length-", "length -"])
        => "`[-1]` for the last item";
    Any, Word(&["last"]) => "`[-1]` for the last item, `['last']` for a member";
    Any, Starts(&["“", "”", "‘", "’", "`"]) => "straight quotes, as in `['a']`";
    Any, Starts(&["\\\"", "\\'"]) => "`['a']`: no backslash before a quote";
    Any, Starts(&["-0"]) => "`[0]`: no `-` before zero";
    Any, Dashed => "`['-a']`: a name in brackets is quoted";
    Any, Starts(&["-"]) => "a digit right after `-`, as in `[-1]`";
    Any, Starts(&["+"]) => "`[1]` without `+`";
    Any, Starts(&["？"]) => "a plain `?`, as in `[?@.a]`";
    Any, Starts(&["("]) => "`[?@.a]` for a filter: brackets hold no other expressions";
    Any, Starts(&["@", "$"]) => "`[?@.a]`: a filter starts with `?`";
    Any, Starts(&["."]) => "`['a']`: a name in brackets is quoted";
    Any, Name => "`['a']`: a name in brackets is quoted";
};

/// Where `]` or a comma is expected, whatever the selector was.
pub(crate) const CLOSING_BRACKET: &[Slip] = slips! {
    Any, Starts(&[")"]) => "one `)` less";
    Any, Starts(&["］", "】"]) => "plain `[` and `]`, as in `$[0]`";
    Ends(&["］", "】"]), Empty => "plain `[` and `]`, as in `$[0]`";
    Any, Starts(&["，"]) => "a plain comma, as in `[0,1]`";
    Ends(&[",0"]), Starts(&["00"]) => "`1000`: no comma within a number";
    Ends(&["[0", ",0", ", 0"]), Digit => "`[0,1]` with a comma, or `[1]`: no zero before another digit";
    Ends(&[" 0", "=0", "<0", ">0", ":0", "-0"]), Digit => "`1`: no zero before another digit";
    EndsInDigit, Digit => "a comma between selectors, as in `[0,1]`";
    EndsInDigit, Word(&["to"]) => "`[0:2]` for 0 to 1: a slice stops before its end";
    EndsInDigit, Starts(&[".."]) => "`[1:2]` for a range";
    Holds(&["=", "<", ">"]), Starts(&[".0", ".1", ".2", ".3", ".4", ".5", ".6", ".7", ".8", ".9"])
        => "`'0.1.2'`: such a version is a text in quotes";
    EndsInDigit, Starts(&["."]) => "`[1]`: an index is a whole number";
    Any, Starts(&["."]) => "`]` before the dot, as in `['a'].b`";
    Ends(&[":"]), Name => "`[1:2]`: the bounds of a slice are whole numbers";
};

/// At an index, or a bound of a slice, that is out of range.
pub(crate) const INTEGER: &[Slip] = slips! {
    Any, Any => "an integer from -(2^53 - 1) to 2^53 - 1";
};
