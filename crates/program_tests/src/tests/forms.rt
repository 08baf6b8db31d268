//! What is shown in each form and layout, and of which nodes.

use jsonpath_lines::{Form, Layout, LineEnd, Output, write_nodes};
use serde_json::Value;
use serde_json_path::JsonPath;
use serde_json_path::functions::Builtin;
use std::alloc::Global;
use std::test::Fail;
use test_rows::{Came, fields, hold_rows};

/// The form of this name.
pub(crate) fn form(name: &str) -> Result<Form, Fail> {
    match name {
        "location and value" => Ok(Form::LocationAndValue),
        "value" => Ok(Form::Value),
        "raw" => Ok(Form::Raw),
        "location" => Ok(Form::Location),
        "pointer" => Ok(Form::Pointer),
        "json" => Ok(Form::Json),
        "count" => Ok(Form::Count),
        "nothing" => Ok(Form::Nothing),
        _ => Err(Fail::new(format_args!("no form: {name:?}"))),
    }
}

/// The output that words tell: a form, and whether it is pretty, ends lines by U+0000, shows each location once, and how many
/// nodes at most.
fn output(words: &str) -> Result<Output, Fail> {
    let mut output = Output {
        form: Form::Nothing,
        layout: Layout::Compact,
        end: LineEnd::LineFeed,
        unique: false,
        most: None,
    };
    for word in words.split(", ") {
        match word {
            "pretty" => output.layout = Layout::Pretty,
            "headed" => output.end = LineEnd::Nul,
            "once" => output.unique = true,
            _ => match word.parse::<u64>() {
                Ok(most) => output.most = Some(most),
                Err(_) => output.form = form(word)?,
            },
        }
    }
    Ok(output)
}

/// How many nodes of a path and a document are chosen, and what is written of them, or why the query is refused. The first
/// field tells the output, in which lines that end by U+0000 come after a head.
fn shown(alloc: Global, given: &str) -> Came {
    let (words, given) = fields(given)?;
    let (path, document) = fields(given)?;
    let path = JsonPath::parse_with(alloc, path, &Builtin)?;
    let document = Value::from_str(alloc, document)?;
    let walk = path.walk(alloc, &document, &Builtin)?;
    let output = output(words)?;
    let head = if output.end == LineEnd::Nul {
        "a.json\t"
    } else {
        ""
    };
    match write_nodes(alloc, &output, head, String::new(alloc), walk) {
        Ok(written) => Ok(format!(in alloc; "{} |{}", written.count, written.text)?),
        Err(e) => Ok(format!(in alloc; "{e}")?),
    }
}

/// An output, a path, a document, how many nodes are chosen, and their lines.
const FORMS: &[&str] = &[
    "location and value ~ $ ~ null -> 1 |$\tnull\n",
    "location and value ~ $.a ~ [] -> 0 |",
    "location and value ~ $[*] ~ [false,true,-7,18446744073709551615,1.5] -> 5 |$[0]\tfalse\n$[1]\ttrue\n$[2]\t-7\n$[3]\t18446744073709551615\n$[4]\t1.5\n",
    "location and value ~ $..a ~ {\"a\":{\"b\":1,\"a\":[null,\"\\t\"]}} -> 2 |$['a']\t{\"a\":[null,\"\\t\"],\"b\":1}\n$['a']['a']\t[null,\"\\t\"]\n",
    "value ~ $[*] ~ [\"a\\\"b\",[],{}] -> 3 |\"a\\\"b\"\n[]\n{}\n",
    "value ~ $[*] ~ [\"a b\",\"\",\"é😀\",\"/\u{7f}\",\"\\\\\",\"\\u0001\",\" \"] -> 7 |\"a b\"\n\"\"\n\"é😀\"\n\"/\u{7f}\"\n\"\\\\\"\n\"\\u0001\"\n\" \"\n",
    "raw ~ $[*] ~ [\"a\\\"\\nb\",\"\",1,[\"c\"]] -> 4 |a\"\nb\n\n1\n[\"c\"]\n",
    "location ~ $..* ~ {\"a'b\":[0]} -> 2 |$['a\\'b']\n$['a\\'b'][0]\n",
    "pointer ~ $..* ~ {\"a/b~\":[0]} -> 2 |/a~1b~0\n/a~1b~0/0\n",
    "pointer ~ $ ~ 1 -> 1 |\n",
    "json ~ $.a ~ {} -> 0 |[]\n",
    "json ~ $['a\"b'] ~ {\"a\\\"b\":[1,2.5]} -> 1 |[{\"path\":\"$['a\\\"b']\",\"value\":[1,2.5]}]\n",
    "json ~ $[*] ~ [\"x\",{}] -> 2 |[{\"path\":\"$[0]\",\"value\":\"x\"},{\"path\":\"$[1]\",\"value\":{}}]\n",
    "count ~ $.a ~ {} -> 0 |0\n",
    "count ~ $[*] ~ [1,2,3] -> 3 |3\n",
    "nothing ~ $.a ~ {} -> 0 |",
    "nothing ~ $[*] ~ [1,2,3] -> 1 |",
    "location and value, pretty ~ $[*] ~ [{\"a\":[1,null]},[]] -> 2 |$[0]\t{\n  \"a\": [\n    1,\n    null\n  ]\n}\n$[1]\t[]\n",
    "value, pretty ~ $[*] ~ [{\"a\":{}},-1] -> 2 |{\n  \"a\": {}\n}\n-1\n",
    "raw, pretty ~ $[*] ~ [\"a b\",[true]] -> 2 |a b\n[\n  true\n]\n",
    "json, pretty ~ $.a ~ {} -> 0 |[]\n",
    "json, pretty ~ $[*] ~ [{\"a\":[1.5]},\"\\n\"] -> 2 |[\n  {\n    \"path\": \"$[0]\",\n    \"value\": {\n      \"a\": [\n        1.5\n      ]\n    }\n  },\n  {\n    \"path\": \"$[1]\",\n    \"value\": \"\\n\"\n  }\n]\n",
    "count, pretty ~ $[*] ~ [1,2,3] -> 3 |3\n",
    "location and value, headed ~ $[*] ~ [1,2] -> 2 |a.json\t$[0]\t1\0a.json\t$[1]\t2\0",
    "location and value, headed ~ $.a ~ [] -> 0 |",
    "raw, headed ~ $ ~ \"x\" -> 1 |a.json\tx\0",
    "json, headed ~ $ ~ 1 -> 1 |a.json\t[{\"path\":\"$\",\"value\":1}]\0",
    "count, headed ~ $ ~ 1 -> 1 |a.json\t1\0",
    "nothing, headed ~ $ ~ 1 -> 1 |",
    // Which nodes are chosen.
    "location ~ $[0,0,1] ~ [1,2] -> 3 |$[0]\n$[0]\n$[1]\n",
    "location, 2 ~ $[0,0,1] ~ [1,2] -> 2 |$[0]\n$[0]\n",
    "location, 2 ~ $[0] ~ [1] -> 1 |$[0]\n",
    "location, 0 ~ $ ~ 1 -> 0 |",
    "location, once ~ $[1,0,1,0] ~ [1,2] -> 2 |$[1]\n$[0]\n",
    "location, once ~ $..* ~ [] -> 0 |",
    "location, once, 2 ~ $[0,0,1,1,2] ~ [1,2,3] -> 2 |$[0]\n$[1]\n",
    "location, once, 2 ~ $[0,0] ~ [1] -> 1 |$[0]\n",
    "location, once, 0 ~ $ ~ 1 -> 0 |",
    // Whether there is a node.
    "nothing, 0 ~ $[*] ~ [1,2] -> 0 |",
    "nothing, 9 ~ $[*] ~ [1,2] -> 1 |",
    "nothing, 9 ~ $[*] ~ [] -> 0 |",
    "nothing, once ~ $[0,0] ~ [1,2] -> 1 |",
    "nothing, once ~ $[*] ~ [] -> 0 |",
    // A second node, which would be refused, is not asked for beyond the last.
    "location, 1 ~ $[?@ == 'a' || match(@, '\\\\w{1000}{10}')] ~ [\"a\",\"b\"] -> 1 |$[0]\n",
    "count, 1 ~ $[?@ == 'a' || match(@, '\\\\w{1000}{10}')] ~ [\"a\",\"b\"] -> 1 |1\n",
    "nothing ~ $[?@ == 'a' || match(@, '\\\\w{1000}{10}')] ~ [\"a\",\"b\"] -> 1 |",
    "nothing, once ~ $[?@ == 'a' || match(@, '\\\\w{1000}{10}')] ~ [\"a\",\"b\"] -> 1 |",
    "location, 0 ~ $[?@ == 'a' || match(@, '\\\\w{1000}{10}')] ~ [\"a\",\"b\"] -> 0 |",
    // A refused query is told.
    "location ~ $[?@ == 'a' || match(@, '\\\\w{1000}{10}')] ~ [\"a\",\"b\"] -> pattern refused",
];

#[test]
fn forms_and_layouts(rt: HostRuntime) -> Result<(), Fail> {
    hold_rows(&rt, FORMS, shown)
}
