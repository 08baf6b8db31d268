//! What `jpq` writes of documents, in each form, and the exit status.

use crate::tests::inputs::{MemoryInputs, run_line, run_within};
use std::alloc::Global;
use std::test::Fail;
use test_rows::{Came, hold_row, hold_rows};

/// The words, with two blanks between them, and standard input, if there is one; and the status and what is written, with
/// `~` for a line feed.
const RUNS: &[&str] = &[
    // A line for each node; the number rule of RFC 9535.
    "$.foo.bar[0] ~ {\"foo\":{\"bar\":[\"baz\",42]}} -> 0: $['foo']['bar'][0]\t\"baz\"~",
    "$.foo ~ {} -> 1: ",
    r#"-v  $..book[?@.price < 10].title  book.json -> 0: "Sayings of the Century"~"Moby Dick"~"#,
    "--whole-numbers  -v  $..book[?@.price < 10].title  book.json -> 1: ",
    "-v  $[?@ == 100] ~ [1e2] -> 0: 100.0~",
    // Forms.
    "-r  $..title  book.json -> 0: Sayings of the Century~Sword of Honour~Moby Dick~",
    r#"-r  $.* ~ ["a",1,null,{"b":"c"}] -> 0: a~1~null~{"b":"c"}~"#,
    "-l  $..isbn  book.json -> 0: $['store']['book'][2]['isbn']~",
    "-p  $..isbn  book.json -> 0: /store/book/2/isbn~",
    r#"-p  $.* ~ {"a/b":1,"c~d":2} -> 0: /a~1b~/c~0d~"#,
    r#"-j  $.* ~ [1,"x"] -> 0: [{"path":"$[0]","value":1},{"path":"$[1]","value":"x"}]~"#,
    "-j  $.a ~ {} -> 1: []~",
    "-c  $..title  book.json -> 0: 3~",
    "-c  $.a ~ {} -> 1: 0~",
    r#"-q  $.a ~ {"a":1} -> 0: "#,
    r#"-q  $.b ~ {"a":1} -> 1: "#,
    r#"--pretty  -v  $ ~ {"a":[1]} -> 0: {~  "a": [~    1~  ]~}~"#,
    "-0  -v  $.* ~ [1,2] -> 0: 1\u{0}2\u{0}",
    // An array for each document, with what its objects come from.
    r#"-j  $.a  one.json  two.json -> 0: [{"file":"one.json","path":"$['a']","value":1}]~[{"file":"two.json","path":"$['a']","value":2}]~"#,
    r#"-j  --no-filename  $.a  one.json  two.json -> 0: [{"path":"$['a']","value":1}]~[{"path":"$['a']","value":2}]~"#,
    r#"-j  --with-filename  $.a  one.json -> 0: [{"file":"one.json","path":"$['a']","value":1}]~"#,
    r#"-j  -e  $.a  -e  $.*  one.json -> 0: [{"number":1,"path":"$['a']","value":1},{"number":2,"path":"$['a']","value":1}]~"#,
    r#"-j  --no-path-number  -e  $.b  -e  $.a  one.json -> 0: [{"path":"$['a']","value":1}]~"#,
    "-j  -L  $.a ~ {\"a\":1}\n\n{}\n{\"a\":[2]} -> 0: [{\"line\":1,\"path\":\"$['a']\",\"value\":1}]~[]~[{\"line\":4,\"path\":\"$['a']\",\"value\":[2]}]~",
    r#"-j  -n  1  $.* ~ [1,2] -> 0: [{"path":"$[0]","value":1}]~"#,
    r#"-j  -u  $[0,0] ~ [1] -> 0: [{"path":"$[0]","value":1}]~"#,
    r#"-j  --pretty  $.* ~ [1,{"b":[]}] -> 0: [~  {~    "path": "$[0]",~    "value": 1~  },~  {~    "path": "$[1]",~    "value": {~      "b": []~    }~  }~]~"#,
    r#"-j  --pretty  $.a ~ [1] -> 1: []~"#,
    "-j  -m  1  -L  $.* ~ [1,2]\n[3] -> 0: [{\"line\":1,\"path\":\"$[0]\",\"value\":1}]~",
    "-j  --tab  -e  $[0]  -e  $[1] ~ [[2]] -> 0: [~\t{~\t\t\"number\": 1,~\t\t\"path\": \"$[0]\",~\t\t\"value\": [~\t\t\t2~\t\t]~\t}~]~",
    // Rows.
    "--tsv  -e  $.a  -e  $.b  -e  $.c ~ {\"a\":\"x\\ty\\n\\\\\",\"b\":[1]} -> 0: x\\ty\\n\\\\\t[1]\t~",
    r#"--csv  -e  $.a  -e  $.b  -e  $.c ~ {"a":"x,y","b":"\"","c":null} -> 0: "x,y","""",null~"#,
    "--csv  --header  -L  -e  $.a  -e  $..b ~ {\"a\":1}\n{\"b\":true} -> 0: $.a,$..b~1,~,true~",
    "--tsv  --header  --with-filename  -L  --line-number  $.a  one.json -> 0: file\tline\t$.a~one.json\t1\t1~",
    "--tsv  $.a  one.json  two.json -> 0: 1~2~",
    "--csv  $.a ~ {} -> 1: \"\"~",
    // Indentation and escapes.
    r#"--indent  4  -v  $ ~ {"a":[1]} -> 0: {~    "a": [~        1~    ]~}~"#,
    r#"--indent  0  -v  $ ~ {"a":["  "]} -> 0: {~"a": [~"  "~]~}~"#,
    "--tab  -v  $ ~ {\"a\":[\" \\n \"]} -> 0: {~\t\"a\": [~\t\t\" \\n \"~\t]~}~",
    "--indent  1  -r  $.* ~ [\"x\\n  y\",[1]] -> 0: x~  y~[~ 1~]~",
    "--ascii  $.* ~ {\"\u{e9}\":\"\u{1f600}\"} -> 0: $['\\u00e9']\t\"\\ud83d\\ude00\"~",
    "--ascii  -r  $.* ~ [\"\u{e9}\",[\"\u{e9}\"]] -> 0: \u{e9}~[\"\\u00e9\"]~",
    "--ascii  -p  $.* ~ {\"\u{e9}\":1} -> 0: /\u{e9}~",
    // Which nodes.
    "-n  2  -v  $.* ~ [1,2,3] -> 0: 1~2~",
    "--max  0  -v  $.* ~ [1] -> 1: ",
    "-v  $[0,0,1] ~ [1,2] -> 0: 1~1~2~",
    "-u  -v  $[0,0,1] ~ [1,2] -> 0: 1~2~",
    "-u  -n  1  -v  $[0,0,1] ~ [1,2] -> 0: 1~",
    "-m  3  -v  $.*  one.json  two.json  - ~ [3,4,5] -> 0: one.json\t1~two.json\t2~standard input\t3~",
    "-m  2  -n  1  -v  -e  $.*  -e  $[1] ~ [1,2] -> 0: 1\t1~2\t2~",
    "-m  0  -v  $.* ~ [1] -> 1: ",
    "-m  1  -L  -c  $.* ~ [1,2]\n[3] -> 0: 1~",
    "-m  0  -c  $.* ~ [ -> 1: ",
    "-m  2  -L  -v  $.* ~ [1]\n[2]\n[ -> 0: 1~2~",
    "-m  3  -L  -j  $.* ~ [1]\n[2,3,4]\n[5] -> 0: [{\"line\":1,\"path\":\"$[0]\",\"value\":1}]~[{\"line\":2,\"path\":\"$[0]\",\"value\":2},{\"line\":2,\"path\":\"$[1]\",\"value\":3}]~",
    "-m  3  -c  -e  $.*  -e  $.a  one.json  two.json -> 0: one.json\t1\t1~one.json\t2\t1~two.json\t1\t1~two.json\t2\t0~",
    "-m  3  -c  --total  -e  $.*  -e  $.a  one.json  two.json -> 0: 3~",
    "-c  --total  -e  $.*  -e  $.a  one.json  two.json -> 0: 4~",
    "-c  --total  -L  $.* ~ [1,2]\n[]\n[3] -> 0: 3~",
    "-c  --total  $.b  one.json -> 1: 0~",
    // Several files and several paths.
    "-v  $.a  one.json  two.json -> 0: one.json\t1~two.json\t2~",
    "-v  $.a  one.json  - ~ {\"a\":3} -> 0: one.json\t1~standard input\t3~",
    "-e  $.b  -e  $.a  -v ~ {\"a\":1,\"b\":2} -> 0: 1\t2~2\t1~",
    "-e  $.a  -v  one.json  two.json -> 0: one.json\t1~two.json\t2~",
    "-f  paths  -v  one.json -> 0: 1\t1~",
    "-f  paths  -f  more  --no-path-number  -v  one.json -> 0: 1~1~",
    "-f  marked  -v  one.json -> 0: 1~",
    "--no-filename  -v  $.a  one.json  two.json -> 0: 1~2~",
    "--with-filename  -v  $.a  one.json -> 0: one.json\t1~",
    "-L  --line-number  -v  $.a ~ {\"a\":1}\n\n{\"a\":2} -> 0: 1\t1~3\t2~",
    "-L  --line-number  --with-filename  -e  $.a  -e  $.b  -v  one.json -> 0: one.json\t1\t1\t1~",
    // Values for names, which can't become a part of the path.
    "--let  a=Moby Dick  -v  $..[?@.title == '$a'].price  book.json -> 0: 8.99~",
    "--let  a=x' || '1' == '1  -v  $[?@ == '$a'] ~ [\"x' || '1' == '1\",1] -> 0: \"x' || '1' == '1\"~",
    "--let  a=\"\\\n  -v  $[?'$a' == @ || @ == '$ab'] ~ [\"\\\"\\\\\\n\"] -> 0: \"\\\"\\\\\\n\"~",
    "--let  a=b.*  --let  c=  -v  $[?match(@, '$a') || @ == '$c'] ~ [\"bc\",\"\"] -> 0: \"bc\"~\"\"~",
    "--let  a=b  -v  $['$a'][?@['$a'] == '$a', '$a'] ~ {\"$a\":[{\"$a\":\"b\"}]} -> 0: {\"$a\":\"b\"}~",
    "--let  a=1  --check  $[?@.b=='$a'] -> 0: $[?@.b == '1']~",
    "--let  a=1  --let  a=2  --check  $[?@.b=='$a'] -> 0: $[?@.b == '2']~",
    "--let  a'b\\=1  --check  $[?@.b=='$a\\'b\\\\'] -> 0: $[?@.b == '1']~",
    // Lines of which each is a document.
    "-L  -v  $.a ~ {\"a\":1}\n\n{\"a\":2}\n{\"b\":3} -> 0: 1~2~",
    // A byte order mark before a document or a line is passed over.
    "-v  $.a ~ \u{feff}{\"a\":1} -> 0: 1~",
    "-L  -v  $.a ~ \u{feff}{\"a\":1}\n\u{feff}{\"a\":2} -> 0: 1~2~",
    // Paths alone.
    "--check  $.store..book[?(@.a==1)] -> 0: $.store..book[?(@.a == 1)]~",
    // Colours.
    "--color=always  -v  $.* ~ [1] -> 0: \u{1b}[36m1\u{1b}[0m~",
];

/// The same, and what is told.
const TOLD: &[&str] = &[
    "-v  $.a  one.json  none.json  two.json -> 2: one.json\t1~two.json\t2~, told jpq: none.json: cannot be read: entity not found~",
    "-v  $.a  bad.json -> 2: , told jpq: bad.json: line 1, column 7: a comma with nothing after it~  {\"a\":1,}~        ^~",
    r#"-v  $.a ~ {"a":1} {"a":2} -> 2: , told jpq: standard input: line 1, column 9: a second document (is it NDJSON? use -L)~  {"a":1} {"a":2}~          ^~"#,
    "-L  -v  $.a ~ {\"a\":1}\n{\"a\"\n{\"a\":3}\n -> 2: 1~3~, told jpq: standard input: line 2, column 5: the document ends too soon~  {\"a\"~      ^~",
    "-L  --strict  -v  $.a ~ {\"a\":1}\n// x\n{\"a\":3}\n -> 2: 1~, told jpq: standard input: line 2, column 1: a comment, which JSON does not have~  // x~  ^~",
    "-L  -v  $ ~ x\nx\nx\nx\nx\nx\nx\nx\nx\nx\nx\nx\n1 -> 2: 1~, told jpq: standard input: line 1, column 1: not JSON~  x~  ^~jpq: standard input: line 2, column 1: not JSON~  x~  ^~jpq: standard input: line 3, column 1: not JSON~  x~  ^~jpq: standard input: line 4, column 1: not JSON~  x~  ^~jpq: standard input: line 5, column 1: not JSON~  x~  ^~jpq: standard input: line 6, column 1: not JSON~  x~  ^~jpq: standard input: line 7, column 1: not JSON~  x~  ^~jpq: standard input: line 8, column 1: not JSON~  x~  ^~jpq: standard input: line 9, column 1: not JSON~  x~  ^~jpq: standard input: line 10, column 1: not JSON~  x~  ^~jpq: standard input: 2 more lines are refused~",
    "-v  $ ~ \u{feff}\u{feff}1 -> 2: , told jpq: standard input: line 1, column 1: a byte order mark, which JSON does not begin with~  \u{feff}1~  ^~",
    // The line of a document is shown round the place, in 78 columns.
    "-v  $ ~ {\"name\": \"é\",\n  \"long\": [1 2]} -> 2: , told jpq: standard input: line 2, column 14: a comma is missing before this~  \"long\": [1 2]}~             ^~",
    r#"-v  $ ~ ["aaaaaaaaaaaaaaaaaaaaaaaaaaaaaaaaaaaaaaaaaaaaaaaaaaaaaaaaaaaa" 2, "bbbbbbbbbbbbbbbbbbbbbbbbbbbbbbbbbbbbbbbb"] -> 2: , told jpq: standard input: line 1, column 65: a comma is missing before this~  ...aaaaaaaaaaaaaaaaaaaaaaaaaaaaaaaaaaaaaaaa" 2, "bbbbbbbbbbbbbbbbbbbbbbbb...~                                               ^~"#,
    r#"-v  $ ~ ["中é\x"] -> 2: , told jpq: standard input: line 1, column 5: a backslash that begins no escape of JSON~  ["中é\x"]~       ^~"#,
    "-v  $ ~ [1,\n -> 2: , told jpq: standard input: line 2, column 1: the document ends too soon~",
    "-L  -v  $.a ~ {\n  \"a\": 1\n} -> 2: , told jpq: standard input: line 1 is only the beginning of a document (is it one document? leave out -L)~",
    "-L  -v  $ ~ {\"a\": [\n  1\n]} -> 2: , told jpq: standard input: line 1 is only the beginning of a document (is it one document? leave out -L)~",
    "-L  -v  $.a ~ {\"a\":1},\n{\"a\":2}\n -> 2: 2~, told jpq: standard input: line 1, column 8: not JSON~  {\"a\":1},~         ^~",
    "-L  -v  $  book.json.gz -> 2: , told jpq: book.json.gz: compressed by gzip (unpack it with gzip -dc)~",
    "-L  -v  $  little.json  one.json -> 2: one.json\t{\"a\":1}~, told jpq: little.json: UTF-16, where JSON is UTF-8 (convert it with iconv -f UTF-16 -t UTF-8)~",
    "-L  -v  $.a ~ \n{\n -> 2: , told jpq: standard input: line 2, column 2: the document ends too soon~  {~   ^~",
    "-C  $.a -> 64: , told error: unexpected argument '-C' found~~  tip: lines have colours by --color=always~~Usage: jpq [OPTIONS] PATH [FILE]...~~For more information, try '--help'.~",
    "--stream  $.a -> 64: , told error: unexpected argument '--stream' found~~  tip: lines go out as they are found in any case~~Usage: jpq [OPTIONS] PATH [FILE]...~~For more information, try '--help'.~",
    "-M  $.a -> 64: , told error: unexpected argument '-M' found~~  tip: lines have no colours by --color=never~~Usage: jpq [OPTIONS] PATH [FILE]...~~For more information, try '--help'.~",
    "-S  $.a -> 64: , told error: unexpected argument '-S' found~~  tip: members are sorted by name in any case~~Usage: jpq [OPTIONS] PATH [FILE]...~~For more information, try '--help'.~",
    "--arg  a  b  $.a -> 64: , told error: unexpected argument '--arg' found~~  tip: a text is put for '$NAME' in a path by --let NAME=VALUE~~Usage: jpq [OPTIONS] PATH [FILE]...~~For more information, try '--help'.~",
    "-x  $.a -> 64: , told error: unexpected argument '-x' found~~Usage: jpq [OPTIONS] PATH [FILE]...~~For more information, try '--help'.~",
    "--let  a=b  -v  $.a  one.json -> 64: , told jpq: --let a: no path has the text '$a' in a filter~",
    "--let  a  -v  $.a  one.json -> 64: , told jpq: --let a: a name, '=' and a value are wanted~",
    "-c  $[?match(@, 'a[')] ~ [\"a[\"] -> 1: 0~, told jpq: no pattern, so nothing fits it: \"a[\"~",
    "--check  $[?@.b || search(@.a, '(')] -> 0: $[?@.b || search(@.a, '(')]~, told jpq: no pattern, so nothing fits it: \"(\"~",
    "-s  -c  $[?match(@, 'a[')] ~ [\"a[\"] -> 1: 0~",
    "-v  $.a ~ {\"a\":0.12345678901234567890123} -> 0: 0.12345678901234568~, told jpq: standard input: 0.12345678901234567890123 is held as the double next to it~",
    "-v  $ ~ {\"a\":1.00000000000000000001,\"b\":1} -> 0: {\"a\":1.0,\"b\":1}~, told jpq: standard input: 1.00000000000000000001 is held as the double next to it~",
    "-v  $ ~ [18446744073709551616,1] -> 0: [1.8446744073709552e+19,1]~, told jpq: standard input: 18446744073709551616 is held as the double next to it~",
    "-v  $.b ~ {\"a\":123456789012345678901234567890,\"b\":1} -> 0: 1~",
    "--csv  $.a ~ {\"a\":1.00000000000000000001} -> 0: 1.0~, told jpq: standard input: 1.00000000000000000001 is held as the double next to it~",
    "-v  $[0] ~ [18446744073709551615,-9223372036854775808,1.50000000000000000000,\"123456789012345678901234567890\"] -> 0: 18446744073709551615~",
    "-v  -L  $[0] ~ [0.5,\"x\\\\\\\"123456789012345678901\"]\n[0.12345678901234567890123,2]\n[0.25,123456789012345678901] -> 0: 0.5~0.12345678901234568~0.25~, told jpq: standard input: 0.12345678901234567890123 is held as the double next to it~",
    "-c  $[0] ~ [123456789012345678901234567890] -> 0: 1~",
    "-s  -l  $[0] ~ [123456789012345678901234567890] -> 0: $[0]~",
    "-q  $.a  none.json  one.json -> 0: , told jpq: none.json: cannot be read: entity not found~",
    "-q  $.b  none.json  one.json -> 2: , told jpq: none.json: cannot be read: entity not found~",
    "-L  -q  $ ~ x\n1 -> 0: , told jpq: standard input: line 1, column 1: not JSON~  x~  ^~",
    // A query that is refused after lines went out; an array is ended all the same.
    "-v  $[?@ == 'a' || match(@, '\\\\w{1000}{10}')] ~ [\"a\",\"b\"] -> 2: \"a\"~, told jpq: standard input: the query is refused: pattern refused~",
    "-j  $[?@ == 'a' || match(@, '\\\\w{1000}{10}')] ~ [\"a\",\"b\"] -> 2: [{\"path\":\"$[0]\",\"value\":\"a\"}]~, told jpq: standard input: the query is refused: pattern refused~",
    "-f  pattern  -v ~ [\"a\"] -> 2: , told jpq: standard input: pattern:2: the query is refused: pattern refused~",
    "-f  wrong  one.json -> 2: , told jpq: wrong:2 is refused at byte 3: expected a name or '*' after the dot, found the end~  $.~    ^~  no dot at the end of a path~",
    "--tsv  $.*  - ~ [1,2] -> 0: 1~, told jpq: standard input: $.* selects several nodes, of which a row has the first~",
    "--tsv  -s  $.*  - ~ [1,2] -> 0: 1~",
    "book.json  $.a -> 2: , told jpq: the path is refused at byte 1: a path begins with '$', found 'book'~  book.json~  ^~  write `$.` before it, as in `$.a.b`~jpq: book.json is a file: the path comes first~",
    "-s  book.json  $.a -> 2: , told jpq: the path is refused at byte 1: a path begins with '$', found 'book'~  book.json~  ^~",
    "-v  $  book.json.gz  little.json  big.json -> 2: , told jpq: book.json.gz: compressed by gzip (unpack it with gzip -dc)~jpq: little.json: UTF-16, where JSON is UTF-8 (convert it with iconv -f UTF-16 -t UTF-8)~jpq: big.json: UTF-16, where JSON is UTF-8 (convert it with iconv -f UTF-16 -t UTF-8)~",
    r#"-v  $.items.length ~ {"items":[1]} -> 1: , told jpq: nothing was selected: 'length' is a member's name here; length(@.a) in a filter is how long a value is~"#,
    "-v  $..size ~ [] -> 1: , told jpq: nothing was selected: 'size' is a member's name here; length(@.a) in a filter is how long a value is~",
    "-v  $[?@.a == 1 || @.b.count > 1] ~ [] -> 1: , told jpq: nothing was selected: 'count' is a member's name here; count(@.*) in a filter is how many nodes there are~",
    "-v  $[?match(@.a, 'b') && !(@.c == value(@.d['*']))] ~ [] -> 1: , told jpq: nothing was selected: '*' in quotes is a member's name; without quotes it is every child~",
    "-v  $.size.length ~ [] -> 1: , told jpq: nothing was selected: 'length' is a member's name here; length(@.a) in a filter is how long a value is~",
    "-v  -e  $.a  -e  $[?@['b']['*']] ~ [] -> 1: , told jpq: nothing was selected: '*' in quotes is a member's name; without quotes it is every child~",
    "-v  $['a.b'] ~ {\"a\":{\"b\":1}} -> 1: , told jpq: nothing was selected: a name in quotes is one member's, with its dots; $.a.b goes down by two~",
    "-v  $[::0] ~ [1] -> 1: , told jpq: nothing was selected: a slice with step 0 selects nothing~",
    "-v  $[?$.price < 10] ~ [{\"price\":8}] -> 1: , told jpq: nothing was selected: '$' in a filter is the whole document, the same for each child; '@' is the child~",
    "-v  $[?10 > $.price] ~ [{\"price\":8}] -> 1: , told jpq: nothing was selected: '$' in a filter is the whole document, the same for each child; '@' is the child~",
    "-v  $[?@.a≠1] ~ [{\"a\":2}] -> 1: , told jpq: nothing was selected: '≤', '≥', '≠' and wide brackets are part of a name; write <=, >=, != and plain [ and ]~",
    "-v  $[?search('b', @.a)] ~ [{\"a\":\"xb\"}] -> 1: , told jpq: nothing was selected: the text comes first, then the pattern: match(@.a, 'b.*')~",
    "-v  $[?match(@.a, 'b')] ~ [{\"a\":\"abc\"}] -> 1: , told jpq: nothing was selected: match(@.a, 'b') wants the whole text to fit the pattern; search(@.a, 'b') a part of it~",
    "-v  $['a.b'] ~ {\"b\":{\"a.c\":1}} -> 1: ",
    "-v  $[?$.price < 10] ~ {\"a\":{\"price\":8}} -> 1: ",
    "-v  $[?match(@.a, 'b')] ~ [{\"a\":\"acd\"}] -> 1: ",
    "-v  -L  $[?match(@, 'b')] ~ [1]\n[\"c\"]\n[\"abc\"] -> 1: , told jpq: nothing was selected: match(@.a, 'b') wants the whole text to fit the pattern; search(@.a, 'b') a part of it~",
    "-v  -e  $.a  -e  $[?match(@, 'b')] ~ [\"abc\"] -> 1: , told jpq: nothing was selected: match(@.a, 'b') wants the whole text to fit the pattern; search(@.a, 'b') a part of it~",
    "-v  $[?@.a == '.length'] ~ [] -> 1: ",
    r#"-v  $[?@.a == "['*']"] ~ [] -> 1: "#,
    "-v  $.lengths['count']['*', 'a'] ~ [] -> 1: ",
    "--whole-numbers  -c  -e  $[?@ == 1 || @ == 2]  -e  $[?1 != @]  -e  $[*]  - ~ [1,1.5,\"a\",[2.5]] -> 0: 1\t1~2\t3~3\t4~",
    "--whole-numbers  -c  $[?@[0] == @[1]] ~ [[1,1],[1.5,1.5],[1]] -> 0: 1~",
    "-c  $[?@[0] == @[1]] ~ [[1,1],[1.5,1.5],[1]] -> 0: 2~",
    r#"-s  -v  $.items.length ~ {"items":[1]} -> 1: "#,
];

/// The status and what is written, and what is told, if anything is, as in a row.
fn of_run(alloc: Global, given: &str) -> Came {
    let (line, standard) = given.split_once(" ~ ").unwrap_or((given, ""));
    let ran = run_line(alloc, line, standard)?;
    let before = if ran.err.is_empty() { "" } else { ", told " };
    let text = format!(in alloc; "{}: {}{before}{}", ran.status, ran.out, ran.err)?;
    Ok(text.replace(alloc, "\n", "~")?)
}

#[test]
fn writes_what_is_selected_and_tells_what_is_refused(rt: HostRuntime) -> Result<(), Fail> {
    hold_rows(&rt, RUNS, of_run)?;
    hold_rows(&rt, TOLD, of_run)
}

#[test]
fn shows_the_line_of_a_large_document(rt: HostRuntime) -> Result<(), Fail> {
    let alloc = rt.alloc();
    let standard = format!(in alloc; "[{}True]", "10, ".repeat(alloc, 300_000)?)?;
    // Of the line 42 bytes are shown before the place, and three dots.
    let wanted = format!(in alloc;
        "2: , told jpq: standard input: line 1, column 1200002: a word that JSON writes as true, false or null~  ..., {}True]~  {}^~",
        "10, ".repeat(alloc, 10)?,
        " ".repeat(alloc, 45)?
    )?;
    let given = format!(in alloc; "-v  $ ~ {standard}")?;
    let came = of_run(alloc, given.as_str());
    hold_row(&rt, ("jpq", "a large document", wanted.as_str()), came)
}

#[test]
fn cuts_the_line_of_a_document_to_the_terminal(rt: HostRuntime) -> Result<(), Fail> {
    let inputs = MemoryInputs {
        standard: "[1, 2, 3, 4, 5, 6, 7, 8, 9, 10, 11 12, 13, 14, 15, 16]",
        fails_at: usize::MAX,
    };
    // Of 40 columns ten are no bytes of the document: 18 bytes before the place, and 12 from there on.
    let wanted =
        "jpq: standard input: line 1, column 36: a comma is missing before this\n  ..., 7, 8, 9, 10, 11 12, 13, 14, ...\n                       ^\n";
    let ran = run_within(rt.alloc(), "-v  $", inputs, 40)?;
    hold_row(&rt, ("jpq", "40 columns", wanted), Ok(ran.err))
}
