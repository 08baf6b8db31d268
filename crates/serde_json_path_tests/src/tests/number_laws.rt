//! Of two numbers of documents, where comparisons take all numbers, exactly one of `<`, `==` and `>` holds: by the public
//! laws, and as filters find.

ghost use Rattle.serde_json_path_core.specs.Inside.Words.{number, number_view, equal, greater, less, all_numbers};
ghost use Rattle.serde_json_path_numbers.specs.Laws.{IsExactlyOne};
ghost use Rattle.serde_json_path_core.specs.Compared.{Compares, value};

use serde_json::{Number, Value};
use serde_json_path::{JsonPath, Numbers, law_numbers_are_finite, law_order_of_numbers};
use std::alloc::Global;
use std::test::Fail;
use test_rows::{Came, fields, hold_rows};

/// Exactly one of the three comparisons holds of two numbers.
fn exactly_one_holds(left: &Number, right: &Number)
    ensures { IsExactlyOne
        (Compares all_numbers less (value (number (number_view left.now)))
        (value (number (number_view right.now))))
        (Compares all_numbers equal (value (number (number_view left.now)))
        (value (number (number_view right.now))))
        (Compares all_numbers greater (value (number (number_view left.now)))
        (value (number (number_view right.now)))) }
{
    law_numbers_are_finite();
    law_order_of_numbers();
}

/// Two numbers, and which comparison holds of them.
const PAIRS: &[&str] = &[
    "1 ~ 1.0 -> ==",
    "1.5 ~ 1 -> >",
    "-0.0 ~ 0 -> ==",
    "0 ~ 5e-324 -> <",
    "-1e308 ~ -9223372036854775808 -> <",
    "9007199254740993 ~ 9007199254740992.0 -> >",
    "18446744073709551615 ~ 18446744073709551616.0 -> <",
];

/// The comparisons that hold of two numbers, one after the other.
fn signs(alloc: Global, pair: &str) -> Came {
    let (left, right) = fields(pair)?;
    let document = Value::from_str(alloc, format!(in alloc; "[[{left},{right}]]")?.as_str())?;
    if let (Some(Value::Number(left)), Some(Value::Number(right))) = (
        document.pointer("/0/0"),
        document.pointer("/0/1"),
    ) {
        exactly_one_holds(left, right);
    }
    let mut signs = String::new(alloc);
    for &sign in &["<", "==", ">"] {
        let text = format!(in alloc; "$[?@[0] {sign} @[1]]")?;
        let path = JsonPath::parse(alloc, text.as_str())?.with_numbers(Numbers::All);
        if path.query(alloc, &document)?.len() == 1 {
            signs.push_str(sign)?;
        }
    }
    Ok(signs)
}

#[test]
fn exactly_one_comparison_holds(rt: HostRuntime) -> Result<(), Fail> {
    hold_rows(&rt, PAIRS, signs)
}
