//! The bookstore of RFC 9535, section 1.5.

use crate::tests::rows::count;
use std::test::Fail;
use test_rows::{BOOKSTORE, hold_rows};

/// A path, and the locations and the values of what it selects from [`BOOKSTORE`].
pub(crate) const BOOKS: &[&str] = &[
    r#"$..author -> $['store']['book'][0]['author'] $['store']['book'][1]['author'] $['store']['book'][2]['author'] $['store']['book'][3]['author'] ~ "Nigel Rees" "Evelyn Waugh" "Herman Melville" "J. R. R. Tolkien""#,
    r#"$.store.book[*].author -> $['store']['book'][0]['author'] $['store']['book'][1]['author'] $['store']['book'][2]['author'] $['store']['book'][3]['author'] ~ "Nigel Rees" "Evelyn Waugh" "Herman Melville" "J. R. R. Tolkien""#,
    "$.store..price -> $['store']['bicycle']['price'] $['store']['book'][0]['price'] $['store']['book'][1]['price'] $['store']['book'][2]['price'] $['store']['book'][3]['price'] ~ 399 8.95 12.99 8.99 22.99",
    r#"$..book[2].author -> $['store']['book'][2]['author'] ~ "Herman Melville""#,
    "$..book[2].publisher -> nothing",
    r#"$..book[-1:].title -> $['store']['book'][3]['title'] ~ "The Lord of the Rings""#,
    r#"$..book[0,1].title -> $['store']['book'][0]['title'] $['store']['book'][1]['title'] ~ "Sayings of the Century" "Sword of Honour""#,
    r#"$..book[:2]['title'] -> $['store']['book'][0]['title'] $['store']['book'][1]['title'] ~ "Sayings of the Century" "Sword of Honour""#,
    r#"$.store.bicycle.* -> $['store']['bicycle']['color'] $['store']['bicycle']['price'] ~ "red" 399"#,
    r#"$..book[?@.isbn] -> $['store']['book'][2] $['store']['book'][3] ~ {"author":"Herman Melville","category":"fiction","isbn":"0-553-21311-3","price":8.99,"title":"Moby Dick"} {"author":"J. R. R. Tolkien","category":"fiction","isbn":"0-395-19395-8","price":22.99,"title":"The Lord of the Rings"}"#,
    "$..[?@.price<10] -> nothing",
    r#"$..[?@.price < 399.5] -> $['store']['bicycle'] ~ {"color":"red","price":399}"#,
];

/// A path, and how many nodes it selects from [`BOOKSTORE`].
const COUNTED: &[&str] = &["$..* -> 27"];

#[test]
fn counts_all_below_the_bookstore(rt: HostRuntime) -> Result<(), Fail> {
    hold_rows(&rt, COUNTED, |alloc, path| count(alloc, path, BOOKSTORE))
}
