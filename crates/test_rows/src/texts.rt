//! What comes of queries and walks, as texts, and texts that are given.

use crate::rows::{Called, Came};
use serde_json_path_core::Walk;
use serde_json_path_functions::{Functions, QueryError};
use serde_json_path_nodes::{LocatedNode, LocatedNodeList, NodeList, Nodes};
use std::alloc::{AllocError, Global};
use std::test::Fail;

/// The bookstore of RFC 9535, section 1.5.
pub const BOOKSTORE: &str = concat!(
    r#"{"store":{"book":[{"category":"reference","author":"Nigel Rees","#,
    r#""title":"Sayings of the Century","price":8.95},"#,
    r#"{"category":"fiction","author":"Evelyn Waugh","title":"Sword of Honour","price":12.99},"#,
    r#"{"category":"fiction","author":"Herman Melville","title":"Moby Dick","#,
    r#""isbn":"0-553-21311-3","price":8.99},"#,
    r#"{"category":"fiction","author":"J. R. R. Tolkien","title":"The Lord of the Rings","#,
    r#""isbn":"0-395-19395-8","price":22.99}],"bicycle":{"color":"red","price":399}}}"#
);

/// The beginning, a text so many times, and the end.
pub fn long(
    alloc: Global,
    beginning: &str,
    repeated: &str,
    times: usize,
    end: &str,
) -> Result<String, AllocError> {
    let mut text = String::from_str(alloc, beginning)?;
    for _ in 0..times {
        text.push_str(repeated)?;
    }
    text.push_str(end)?;
    Ok(text)
}

/// The beginning, the opening, the middle, the closing and the end of a text, in which opening and closing stand as often.
pub type Nesting<'t> = (&'t str, &'t str, &'t str, &'t str, &'t str);

/// The text in which opening and closing stand so many times.
pub fn nested(
    alloc: Global,
    (beginning, opening, middle, closing, end): Nesting<'_>,
    times: usize,
) -> Result<String, AllocError> {
    let opened = long(alloc, beginning, opening, times, middle)?;
    long(alloc, opened.as_str(), closing, times, end)
}

/// The locations of nodes, with a space between them.
pub fn locations(alloc: Global, nodes: &LocatedNodeList<'_>) -> Came {
    let mut text = String::new(alloc);
    for location in nodes.locations() {
        if !text.is_empty() {
            text.push(' ')?;
        }
        write!(text, "{location}")?;
    }
    Ok(text)
}

/// Values as compact JSON, with a space between them.
pub fn values(alloc: Global, nodes: Nodes<'_, '_>) -> Came {
    let mut text = String::new(alloc);
    for value in nodes {
        if !text.is_empty() {
            text.push(' ')?;
        }
        text.push_str(value.to_string(alloc)?.as_str())?;
    }
    Ok(text)
}

/// The locations and the values of nodes, or `nothing` for none.
pub fn located(alloc: Global, nodes: &LocatedNodeList<'_>) -> Came {
    if nodes.is_empty() {
        return Ok(String::from_str(alloc, "nothing")?);
    }
    let locations = locations(alloc, nodes)?;
    let values = values(alloc, nodes.nodes())?;
    Ok(format!(in alloc; "{locations} ~ {values}")?)
}

/// The values that a query gives, or nothing where memory is refused.
pub fn of_nodes(alloc: Global, answer: Result<NodeList<'_>, QueryError>) -> Called {
    match answer {
        Err(QueryError::Memory) => Ok(None),
        answer => Ok(Some(values(alloc, answer?.iter())?)),
    }
}

/// The locations that a query gives, or nothing where memory is refused.
pub fn of_located(alloc: Global, answer: Result<LocatedNodeList<'_>, QueryError>) -> Called {
    match answer {
        Err(QueryError::Memory) => Ok(None),
        answer => Ok(Some(locations(alloc, &answer?)?)),
    }
}

/// The next node of a walk, which goes on where it is refused, and whether it was.
fn next_node<'b, F: Functions>(
    walk: &mut Walk<'_, 'b, F>,
) -> Result<(Option<LocatedNode<'b>>, bool), QueryError> {
    match walk.next() {
        Err(QueryError::Memory) => Ok((walk.next()?, true)),
        answer => Ok((answer?, false)),
    }
}

/// The locations that a walk of three nodes at most gives, up to the first `None`, and whether a call was refused.
fn given<F: Functions>(alloc: Global, walk: &mut Walk<'_, '_, F>) -> Result<(String, bool), Fail> {
    let mut was_refused = false;
    let mut text = String::new(alloc);
    for _ in 0..4 {
        let (node, is_refused) = next_node(walk)?;
        was_refused = was_refused || is_refused;
        let Some(node) = node else {
            break;
        };
        let before = if text.is_empty() { "" } else { " " };
        write!(text, "{before}{}", node.location())?;
    }
    Ok((text, was_refused))
}

/// The locations that a walk gives, or nothing where memory is refused.
pub fn of_walk<F: Functions + Drop>(
    alloc: Global,
    answer: Result<Walk<'_, '_, F>, QueryError>,
) -> Called {
    let mut walk = match answer {
        Err(QueryError::Memory) => return Ok(None),
        answer => answer?,
    };
    match given(alloc, &mut walk)? {
        (_, true) => Ok(None),
        (text, false) => Ok(Some(text)),
    }
}

/// The locations that a walk gives, of which a call that is refused is made again.
pub fn of_calls<F: Functions + Drop>(alloc: Global, mut walk: Walk<'_, '_, F>) -> Came {
    match given(alloc, &mut walk)? {
        (text, true) => Ok(format!(in alloc; "{text}, after no memory")?),
        (text, false) => Ok(text),
    }
}
