//! Which operators hold between two values (RFC 9535, section 2.3.5.2.2).

use crate::tests::rows::nodes;
use serde_json::Value;
use std::alloc::Global;
use std::test::Fail;
use test_rows::{Came, fields, hold_rows};

/// The operators.
const OPERATORS: &[&str] = &["==", "!=", "<", "<=", ">", ">="];

/// The operators that hold between two sides for the one item of a document, with a space between them.
fn holding(alloc: Global, given: &str) -> Came {
    let (document, sides) = fields(given)?;
    let (left, right) = fields(sides)?;
    let document = Value::from_str(alloc, document)?;
    let mut text = String::new(alloc);
    for &operator in OPERATORS {
        let path = format!(in alloc; "$[?{left} {operator} {right}]")?;
        if nodes(alloc, path.as_str(), &document)?.len() == 1 {
            if !text.is_empty() {
                text.push(' ')?;
            }
            text.push_str(operator)?;
        }
    }
    Ok(text)
}

/// A document of one item, two sides, and the operators that hold between them for the item.
const COMPARED: &[&str] = &[
    // Numbers, and what is missing.
    "[{}] ~ @.a ~ @.b -> == <= >=",
    "[3] ~ @.a ~ @.b -> == <= >=",
    r#"[{"a":null}] ~ @.a ~ @.b -> !="#,
    r#"[{"b":null}] ~ @.a ~ @.b -> !="#,
    r#"[{"a":1}] ~ @.a ~ @.b -> !="#,
    r#"[{"a":1,"b":1}] ~ @.a ~ @.b -> == <= >="#,
    r#"[{"a":2,"b":10}] ~ @.a ~ @.b -> != < <="#,
    r#"[{"a":-1,"b":-2}] ~ @.a ~ @.b -> != > >="#,
    r#"[{"a":-9223372036854775808,"b":18446744073709551615}] ~ @.a ~ @.b -> != < <="#,
    r#"[{"a":18446744073709551615,"b":18446744073709551615}] ~ @.a ~ @.b -> == <= >="#,
    r#"[{"a":1.5,"b":1.5}] ~ @.a ~ @.b -> !="#,
    r#"[{"a":1e3,"b":1e3}] ~ @.a ~ @.b -> !="#,
    r#"[{"a":1e3,"b":1000}] ~ @.a ~ @.b -> !="#,
    r#"[{"a":1.5,"b":2}] ~ @.a ~ @.b -> !="#,
    r#"[{"a":13,"b":"13"}] ~ @.a ~ @.b -> !="#,
    // Texts, which are compared by their characters.
    r#"[{"a":"","b":"a"}] ~ @.a ~ @.b -> != < <="#,
    r#"[{"a":"a","b":"\u0061"}] ~ @.a ~ @.b -> == <= >="#,
    r#"[{"a":"ab","b":"a"}] ~ @.a ~ @.b -> != > >="#,
    r#"[{"a":"z","b":"aa"}] ~ @.a ~ @.b -> != > >="#,
    r#"[{"a":"Z","b":"a"}] ~ @.a ~ @.b -> != < <="#,
    r#"[{"a":"a","b":"\u00e9"}] ~ @.a ~ @.b -> != < <="#,
    r#"[{"a":"\ud83d\ude00","b":"\uffff"}] ~ @.a ~ @.b -> != > >="#,
    r#"[{"a":"\ue000","b":"\ud800\udc00"}] ~ @.a ~ @.b -> != < <="#,
    // Other values, which are equal or not.
    r#"[{"a":null,"b":null}] ~ @.a ~ @.b -> == <= >="#,
    r#"[{"a":true,"b":true}] ~ @.a ~ @.b -> == <= >="#,
    r#"[{"a":true,"b":false}] ~ @.a ~ @.b -> !="#,
    r#"[{"a":false,"b":null}] ~ @.a ~ @.b -> !="#,
    r#"[{"a":[],"b":{}}] ~ @.a ~ @.b -> !="#,
    r#"[{"a":[1,[2,{"a":null}],"b"],"b":[1,[2,{"a":null}],"b"]}] ~ @.a ~ @.b -> == <= >="#,
    r#"[{"a":[1,[2,{"a":null}],"b"],"b":[1,[2,{"a":0}],"b"]}] ~ @.a ~ @.b -> !="#,
    r#"[{"a":[1,2],"b":[1,2,3]}] ~ @.a ~ @.b -> !="#,
    r#"[{"a":[1,2],"b":[2,1]}] ~ @.a ~ @.b -> !="#,
    r#"[{"a":[1.5],"b":[1.5]}] ~ @.a ~ @.b -> !="#,
    r#"[{"a":{"a":1,"b":[2]},"b":{"b":[2],"a":1}}] ~ @.a ~ @.b -> == <= >="#,
    r#"[{"a":{"a":1},"b":{"a":1,"b":2}}] ~ @.a ~ @.b -> !="#,
    r#"[{"a":{"a":1},"b":{"b":1}}] ~ @.a ~ @.b -> !="#,
    r#"[{"a":[0.5]}] ~ @.a ~ @.a -> !="#,
    // Literals.
    r#"[{"a":1}] ~ @.a ~ 1 -> == <= >="#,
    r#"[{"a":1}] ~ @.a ~ 1.5 -> != < <="#,
    r#"[{"a":2}] ~ @.a ~ 1.5 -> != > >="#,
    r#"[{"a":-2}] ~ @.a ~ -1.5 -> != < <="#,
    r#"[{"a":0}] ~ @.a ~ -0.000000001 -> != > >="#,
    r#"[{"a":1.5}] ~ @.a ~ 1.5 -> !="#,
    r#"[{"a":18446744073709551615}] ~ @.a ~ 18446744073709551615 -> == <= >="#,
    r#"[{"a":"1"}] ~ @.a ~ 1 -> !="#,
    "[{}] ~ @.a ~ 0 -> !=",
    r#"[{"a":null}] ~ @.a ~ null -> == <= >="#,
    "[{}] ~ @.a ~ null -> !=",
    r#"[{"a":true}] ~ @.a ~ true -> == <= >="#,
    r#"[{"a":"a"}] ~ @.a ~ 'b' -> != < <="#,
    "[0] ~ 0.5 ~ 0.5 -> == <= >=",
];

#[test]
fn holds_operators_between_sides(rt: HostRuntime) -> Result<(), Fail> {
    hold_rows(&rt, COMPARED, holding)
}
