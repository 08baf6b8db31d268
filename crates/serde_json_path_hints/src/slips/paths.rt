//! Slips at the root, at names after dots, and after the path.

use crate::condition::Condition::{
    Any, Call, Dashed, Digit, Empty, Ends, EndsInName, Holds, Name, Starts, Word,
};
use crate::slip::Slip;

/// Where `$` is expected.
pub(crate) const ROOT: &[Slip] = slips! {
    Any, Empty => "`$` for the whole document";
    Any, Starts(&["$"]) => "no blank before `$`";
    Any, Starts(&["# ", "// "]) => "there are no comments in paths";
    Any, Starts(&["//"]) => "`$..a` for the XPath //a";
    Any, Starts(&["/"]) => "`$.a.b` for the JSON pointer or XPath /a/b";
    Any, Starts(&["#/"]) => "`$.a.b` for the JSON pointer #/a/b";
    Any, Starts(&["@"]) => "`$` for `@`, which only stands in filters";
    Any, Starts(&["\"", "'", "`", "“", "‘"]) => "the path without quotes around it";
    Any, Starts(&["＄", "［", "【"]) => "plain `$`, `[` and `]`, as in `$[0]`";
    Any, Starts(&["{range"]) => "`$.a[*].b` for each item: there are no loops in paths";
    Any, Starts(&["{"]) => "`$.a[*]`: no braces around a path";
    Any, Starts(&["jsonpath=", "JSONPath="]) => "the path alone, as in `$.a[*]`";
    Any, Starts(&["lax ", "strict "]) => "`$` at the start: no mode of SQL stands before it";
    Any, Holds(&["[?"]) => "`$` or `$.` before it, as in `$.a[?@.b]`";
    Any, Holds(&[" | ", "|."]) => "`$.a.b`: there are no pipes in paths";
    Any, Holds(&["\\."]) => "`$['a.b']`: such a name is quoted in brackets";
    Any, Holds(&[".io/", ".com/", ".org/", ".net/", ".sh/", ".dev/"]) => "`$['a.io/b']`: such a name is quoted in brackets";
    Any, Ends(&[".."]) => "`$..*` for every depth";
    Any, Ends(&["."]) => "`$`, and no dot at the end";
    Any, Starts(&[".[]"]) => "`$[*]` for all";
    Any, Starts(&[".["]) => "`$[0]`: no dot before a bracket";
    Any, Starts(&[".", "["]) => "`$` before it, as in `$.a` or `$[0]`";
    Any, Starts(&["?"]) => "`$[?@.a]`: a filter stands in brackets";
    Any, Starts(&["*"]) => "`$.*`";
    Any, Call => "a function only stands in a filter: `$[?length(@.a) > 1]`";
    Any, Name => "`$.` before it, as in `$.a.b`";
};

/// Where a member name is expected after a dot.
pub(crate) const MEMBER_NAME: &[Slip] = slips! {
    Ends(&[".."]), Empty => "`$..*`, or a name after the dots";
    Ends(&[".."]), Starts(&["."]) => "two dots, as in `$..a`";
    Ends(&[".."]), Digit => "`$..[0]` for items, `$..['0']` for members";
    Any, Starts(&["["]) => "no dot before a bracket, as in `$['a']`";
    Any, Starts(&["\"", "'", "`"]) => "`$.a` or `$['a']`: no quote follows a dot";
    Any, Digit => "`$[0]` for an item, `$['0']` for a member";
    Any, Dashed => "`$['-a']`: such a name is quoted in brackets";
    Any, Starts(&["-"]) => "`$[-1]` for the last item";
    Any, Starts(&["^"]) => "no path leads to a parent: filter it, as in `$[?@.a]`";
    Any, Starts(&["~"]) => "no path selects keys, but locations tell them";
    Any, Starts(&["?", "(?", "(@"]) => "`$[?@.a]`: a filter stands in brackets";
    Any, Starts(&["(", "{"]) => "`$['a','b']`: names are quoted in brackets";
    Any, Starts(&["\\\"", "\\'"]) => "`$['a']`: no dot and no backslash before a quote";
    Any, Starts(&["@", "$", "#"]) => "`$['@a']`: such a name is quoted in brackets";
    Any, Name => "no blank after a dot";
    Any, Empty => "no dot at the end of a path";
    Any, Starts(&["]", ")", "=", "!", "<", ">"]) => "no dot at the end of a path";
};

/// Where the path has ended.
pub(crate) const AFTER_PATH: &[Slip] = slips! {
    Any, Empty => "no blank at the end";
    Any, Starts(&["(?", "(@"]) => "`$[?@.a]`: a filter stands in brackets";
    Ends(&[".length", ".size", ".count"]), Starts(&["("])
        => "a function only stands in a filter: `$[?length(@.a) > 1]`";
    EndsInName, Starts(&["("]) => "in filters alone: the RFC's functions `length`, `count`, `match`, `search`, `value`";
    Any, Starts(&["# ", "// ", "/* ", "-- "]) => "there are no comments in paths";
    Any, Starts(&["［", "【"]) => "plain `[` and `]`, as in `$[0]`";
    Ends(&["［", "【"]), Any => "plain `[` and `]`, as in `$[0]`";
    Any, Starts(&["**"]) => "`$..*` for every depth";
    Ends(&["*"]), Starts(&["*"]) => "`$..*` for every depth";
    Any, Starts(&["^"]) => "no path leads to a parent: filter it, as in `$[?@.a]`";
    Any, Starts(&["~"]) => "no path selects keys, but locations tell them";
    Any, Starts(&[";"]) => "no `;` after a path";
    Any, Starts(&["]", ")", "}"]) => "one closing bracket less";
    Any, Starts(&["?"]) => "`$[?@.a]`: a filter stands in brackets";
    Any, Starts(&["=", "!=", "<", ">", "&&", "||"]) => "a test only stands in a filter: `$[?@.a == 1]`";
    Any, Word(&["and", "or", "in"]) => "a test only stands in a filter: `$[?@.a == 1]`";
    Ends(&["$"]), Name => "a dot after `$`, as in `$.a`";
    Ends(&["$"]), Digit => "`$[0]`: an index stands in brackets";
    Ends(&["$"]), Starts(&["\"", "'"]) => "`$['a']`: a quoted name stands in brackets";
    Ends(&["]", "*"]), Name => "a dot before the name, as in `$[0].a`";
    Any, Starts(&["->"]) => "`$.a.b`: a dot for ->";
    EndsInName, Starts(&["\\."]) => "`$['a.b']`: such a name is quoted in brackets";
    Ends(&[".io", ".com", ".org", ".net", ".sh", ".dev"]), Starts(&["/"])
        => "`$['a.io/b']`: such a name is quoted in brackets";
    EndsInName, Dashed => "`$['a-b']`: such a name is quoted in brackets";
    EndsInName, Name => "`$['a b']`: such a name is quoted in brackets";
    EndsInName, Starts(&["@", "$", "#", ":"]) => "`$['a:b']`: such a name is quoted in brackets";
    Any, Starts(&["//"]) => "`$.a..b`: dots for slashes";
    Any, Starts(&["/"]) => "`$.a.b`: dots for slashes";
    Any, Starts(&["+", "-", "*", "%"]) => "there is no arithmetic in paths";
    Any, Starts(&[",", "|$", "| $"]) => "`$['a','b']` for two members";
    Any, Starts(&["|"]) => "`$.a.b`: there are no pipes in paths";
};
