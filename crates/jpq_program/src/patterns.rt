//! Patterns of `match` and `search` that are none: such a call holds of nothing (RFC 9535, section 2.4.6).

ghost use Rattle.std.specs.Prelude.{◌≤◌, length};
ghost use Rattle.serde_json_path_syntax.specs.Words.{NamesBelow, nodes_in, parts_bound};

use crate::empty_answer::{parts_below, takes_pattern};
use regex_syntax::{Config, ErrorKind, parse};
use serde_json_path_syntax::{Checked, LiteralValue, Node, Operand, Part};
use std::alloc::{AllocError, Global};

/// Whether a pattern is surely one: letters, digits, blanks and dots, each with at most one sign of repetition after it.
fn is_simple(pattern: &str) -> bool {
    let mut repeats = false;
    for byte in pattern.as_bytes() {
        repeats = match *byte {
            b'*' | b'+' | b'?' if repeats => false,
            b' ' | b'.' | b'0'..=b'9' | b'A'..=b'Z' | b'a'..=b'z' => true,
            _ => return false,
        };
    }
    true
}

/// Whether `regex` can't read a pattern.
fn is_none(alloc: Global, pattern: &str) -> Result<bool, AllocError> {
    if is_simple(pattern) {
        return Ok(false);
    }
    let text = format!(in alloc; "(?R)({pattern})")?;
    match parse(alloc, text.as_str(), &Config::default()) {
        Ok(_) => Ok(false),
        Err(e) if e.kind == ErrorKind::OutOfMemory => Err(AllocError),
        Err(_) => Ok(true),
    }
}

/// The literal that a node calls `match` or `search` by as a pattern.
fn literal_pattern<'t>(tree: &'t Checked, node: &Node) -> Option<&'t str>
    requires { NamesBelow (length (nodes_in tree.now)) node.now }
{
    let Node::Call {
        name,
        arguments,
        ..
    } = node
    else {
        return None;
    };
    let [_, pattern] = arguments.as_slice() else {
        return None;
    };
    match tree.node(*pattern) {
        Node::Operand(Operand::Literal(LiteralValue::Value(literal)))
            if takes_pattern(name.as_str()) => { literal.as_str() }
        _ => None,
    }
}

/// The first literal that is no pattern, though a call in some parts of a tree, or below them, takes it for one.
#[tactic(auto, using(serde_json_path_syntax::proofs::Tree::NamedParts::within_get))]
pub(crate) fn no_pattern<'t>(
    alloc: Global,
    tree: &'t Checked,
    parts: &[Part],
) -> Result<Option<&'t str>, AllocError>
    requires { parts_bound parts.now ≤ length (nodes_in tree.now) }
{
    for part in parts {
        let node = tree.node(*part);
        if let Some(pattern) = literal_pattern(tree, node) {
            if is_none(alloc, pattern)? {
                return Ok(Some(pattern));
            }
        }
        let (below, others) = parts_below(node);
        if let Some(pattern) = no_pattern(alloc, tree, below)? {
            return Ok(Some(pattern));
        }
        if let Some(pattern) = no_pattern(alloc, tree, others)? {
            return Ok(Some(pattern));
        }
    }
    Ok(None)
}
