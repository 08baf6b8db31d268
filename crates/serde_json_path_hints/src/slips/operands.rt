//! Slips in filters, after an operand.

use crate::condition::Condition::{
    Any, Dashed, Digit, Empty, Ends, EndsInDigit, EndsInLetter, EndsInName, Holds, Name, Starts,
    Word,
};
use crate::slip::Slip;

/// Where `)` is expected.
pub(crate) const CLOSING_PARENTHESIS: &[Slip] = slips! {
    Any, Empty => "`)`, and `]` after it";
    Any, Starts(&["]"]) => "`)` before `]`, or one `(` less";
    Holds(&["match(", "search("]), Starts(&["'", "\""]) => "`search(@.a, 'x')`: a comma between arguments";
    EndsInDigit, Starts(&["."]) => "`'0.1.2'`: such a version is a text in quotes";
};

/// Where a literal should be compared.
pub(crate) const AFTER_LITERAL: &[Slip] = slips! {
    Holds(&["||", "&&"]), Starts(&["]", ")", "||", "&&"])
        => "a whole comparison on each side, as in `|| @.a == 'y'`";
    Holds(&["match(", "search("]), Starts(&["]"]) => "`)` before `]`";
    Any, Starts(&["]", ")", "||", "&&"]) => "`['a']`, or `@.a == 'a'`: a literal alone is no test";
};

/// Where an operand has ended, at a word that can neither follow nor close it.
pub(crate) const WORD_AFTER_OPERAND: &[Slip] = slips! {
    Any, Word(&["and"]) => "`&&`";
    Any, Word(&["or"]) => "`||`";
    Any, Word(&["in"]) => "`@.a == 'x' || @.a == 'y'`";
    Any, Word(&["nin", "not", "notin", "not_in"]) => "`@.a != 'x' && @.a != 'y'`";
    Any, Word(&["between"]) => "`@.a >= 1 && @.a <= 3`";
    Any, Word(&["contains", "like_regex"]) => "`search(@.a, 'x')`";
    Any, Word(&["startswith", "starts_with", "starts"]) => "`match(@.a, 'x.*')`";
    Any, Word(&["endswith", "ends_with", "ends"]) => "`match(@.a, '.*x')`";
    Any, Word(&["like", "matches", "regex"]) => "`match(@.a, 'b.*')`, or `search` for a part of the text";
    Any, Word(&["exists", "has"]) => "`[?@.a]`: a query alone tests that there is a node";
    Any, Word(&["anyof"]) => "`@.a[?@ == 'x']`: no operator compares lists, but a filter within can";
    Any, Word(&["noneof"]) => "`!@.a[?@ == 'x']`: no operator compares lists, but a filter within can";
    Any, Word(&["subsetof", "allof"])
        => "`!@.a[?@ != 'x' && @ != 'y']`: no operator compares lists, but a filter can";
    Any, Word(&["size", "sizeof"]) => "`length(@.a) == 2`";
    Any, Word(&["empty"]) => "`length(@.a) == 0`";
    Any, Word(&["is", "eq", "ne", "lt", "le", "gt", "ge", "equals"]) => "`==`, `!=`, `<`, `<=`, `>` or `>=`";
};

/// Where an operand has ended, at what else can neither follow nor close it.
pub(crate) const AFTER_OPERAND: &[Slip] = slips! {
    Any, Starts(&["=~", "~="]) => "`match(@.a, 'b.*')`, or `search` for a part of the text";
    Any, Starts(&["=>", "≥"]) => "`>=`";
    Any, Starts(&["=<", "≤"]) => "`<=`";
    Any, Starts(&["≠"]) => "`!=`";
    Ends(&[")"]), Starts(&["==", "!=", "<", ">"]) => "`@.a == 1`: parentheses are for logical expressions";
    Holds(&["!@", "!$", "! @", "! $"]), Starts(&["==", "!=", "<", ">"]) => "`!(@.a == 1)`, or `!=`";
    Any, Starts(&["==", "!=", "<", ">"]) => "one comparison at a time: `1 < @.a && @.a < 2`";
    Any, Starts(&["="]) => "equality is written ==";
    Any, Starts(&["!"]) => "`!=`";
    Any, Starts(&["&"]) => "`&&`";
    Holds(&["?"]), Starts(&["|"]) => "`||`";
    Any, Starts(&[";]"]) => "no `;` before `]`";
    Any, Starts(&["|", ";"]) => "a comma between selectors";
    Any, Starts(&["# ", "// ", "/* "]) => "there are no comments in paths";
    Ends(&[".length", ".size"]), Starts(&["("]) => "`length(@.a)`: the value stands in the parentheses";
    Ends(&[".type", ".typeof"]), Starts(&["("])
        => "there are no types in paths, but `@.a >= ''` holds of texts alone";
    Ends(&[".count", ".value", ".match", ".search"]), Starts(&["("]) => "the function first, as in `count(@.*)`";
    EndsInName, Starts(&["("]) => "the RFC's functions are `length`, `count`, `match`, `search` and `value`";
    Ends(&["*"]), Starts(&["*"]) => "`..*` for every depth";
    Any, Starts(&["->"]) => "`@.a.b`: a dot for ->";
    Any, Starts(&["\\."]) => "`@['a.b']`: such a name is quoted in brackets";
    Ends(&[".io", ".com", ".org", ".net", ".sh", ".dev"]), Starts(&["/"])
        => "`@['a.io/b']`: such a name is quoted in brackets";
    EndsInDigit, Starts(&["-0", "-10-", "-11-", "-12-", "/0", "/10/", "/11/", "/12/"])
        => "`'2024-01-01'`: a date is a text in quotes";
    EndsInName, Dashed => "`@['a-b']`: such a name is quoted in brackets";
    Any, Starts(&["+", "-", "*", "/", "%"]) => "there is no arithmetic in paths";
    Any, Starts(&["^"]) => "no path leads to a parent: filter it, as in `$[?@.a]`";
    Any, Starts(&["~"]) => "no path selects keys, but locations tell them";
    Ends(&["@"]), Word(&["property"]) => "`['a']`: filters see no names. Or `@.property` for a member";
    Ends(&["@", "$"]), Name => "a dot before the name, as in `@.a`";
    Ends(&["'"]), Name => "`'it\\'s'`: a quote in a string follows `\\`";
    Ends(&["\""]), Name => "`\"a\\\"b\"`: a quote in a string follows `\\`";
    Ends(&["'", "\""]), Starts(&["'", "\""]) => "a comma between names, or `\\'` for a quote in one";
    Ends(&[" 0", "=0", "<0", ">0", ":0", "-0", "?0", "(0"]), Digit => "`1`: no zero before another digit";
    Ends(&["0"]), Starts(&["x", "X"]) => "a decimal number";
    EndsInLetter, Name => "`@['a b']`: such a name is quoted in brackets";
};
