//! Tables of rows. A row is one text: what is given, ` -> `, and what is wanted. What is given has ` ~ ` between its fields.

use crate::texts::{Nesting, nested};
use std::alloc::Global;
use std::fmt::Debug;
use std::process::Termination;
use std::test::Fail;

/// What comes of a row, as a text.
pub type Came = Result<String, Fail>;

/// What is given, and what is wanted.
pub fn ends(row: &str) -> (&str, &str) {
    row.split_once(" -> ").unwrap_or((row, "an end of the row"))
}

/// The first field of what is given, and the fields after it.
pub fn fields(given: &str) -> Result<(&str, &str), Fail> {
    match given.split_once(" ~ ") {
        Some(fields) => Ok(fields),
        None => Err(Fail::new(format_args!("a field is missing: {given:?}"))),
    }
}

/// The text that two ways give. Fails where they differ.
pub fn alike(one: String, other: String) -> Came {
    if one == other {
        return Ok(one);
    }
    Err(Fail::new(format_args!("{one} in one way, {other} in another")))
}

/// Fails with a text where it is not held.
pub fn holds(is_held: bool, of: &str) -> Result<(), Fail> {
    if is_held {
        return Ok(());
    }
    Err(Fail::new(of))
}

/// The rows of a test, each of which may fail.
#[derive(Drop)]
pub struct Table<'r, R> {
    rt: &'r R,
    rows: usize,
    failed: usize,
}

impl<'r, R: Eprint + AllocGlobal> Table<'r, R> {
    /// A table without rows so far.
    pub fn new(rt: &'r R) -> Table<'r, R> {
        let (rows, failed) = (0, 0);
        Table { rt, rows, failed }
    }

    /// Tells that a row fails.
    fn tell(&mut self, (of, given, wanted): (&str, &str, &str), came: &str) {
        self.failed = self.failed.saturating_add(1);
        let _ = eprintln!(self.rt; "{given} ({of}): wanted {wanted}, came {came}");
    }

    /// Holds what came of a row to what is wanted. The row has what it shares with others, as a document or a function set,
    /// what is given, and what is wanted.
    pub fn hold(&mut self, row: (&str, &str, &str), came: Came) {
        self.rows = self.rows.saturating_add(1);
        match came {
            Ok(came) if came.as_str() == row.2 => {}
            Ok(came) => self.tell(row, came.as_str()),
            Err(fail) => {
                let _ = Err::<(), Fail>(fail).report(self.rt);
                self.tell(row, "the failure above");
            }
        }
    }

    /// Holds what comes of each row to what is wanted. The rows share a document or a function set.
    pub fn hold_each<F: Fn(Global, &str) -> Came>(&mut self, of: &str, rows: &[&str], came: F)
        requires { F.IsAlwaysCallable came }
    {
        for &row in rows {
            let (given, wanted) = ends(row);
            self.hold((of, given, wanted), came(self.rt.alloc(), given));
        }
    }

    /// Fails where a row has failed.
    pub fn end(self) -> Result<(), Fail> {
        if self.failed == 0 {
            return Ok(());
        }
        Err(Fail::new(format_args!("{} of {} rows fail", self.failed, self.rows)))
    }
}

/// Holds what came of one row, as [`Table::hold`] does, and fails where it has failed.
pub fn hold_row(
    rt: &(impl Eprint + AllocGlobal),
    row: (&str, &str, &str),
    came: Came,
) -> Result<(), Fail> {
    let mut table = Table::new(rt);
    table.hold(row, came);
    table.end()
}

/// Holds what comes of the first part of each pair to the second one, and fails where a pair has failed.
pub fn hold_pairs<T: Copy + Debug, F: Fn(Global, T) -> Came>(
    rt: &(impl Eprint + AllocGlobal),
    pairs: &[(T, &str)],
    came: F,
) -> Result<(), Fail>
    requires { F.IsAlwaysCallable came }
{
    let mut table = Table::new(rt);
    for &(given, wanted) in pairs {
        let text = format!(in rt.alloc(); "{given:?}")?;
        table.hold(("a pair", text.as_str(), wanted), came(rt.alloc(), given));
    }
    table.end()
}

/// Holds what comes of each row to what is wanted, and fails where a row has failed.
pub fn hold_rows<F: Fn(Global, &str) -> Came>(
    rt: &(impl Eprint + AllocGlobal),
    rows: &[&str],
    came: F,
) -> Result<(), Fail>
    requires { F.IsAlwaysCallable came }
{
    let mut table = Table::new(rt);
    table.hold_each("a row", rows, came);
    table.end()
}

/// Holds what comes of each nested text to what is wanted.
pub fn hold_nested<F: Fn(Global, &str) -> Came>(
    rt: &(impl Eprint + AllocGlobal),
    rows: &[(Nesting<'static>, usize, &str)],
    came: F,
) -> Result<(), Fail>
    requires { F.IsAlwaysCallable came }
{
    let mut table = Table::new(rt);
    for &(nesting, times, wanted) in rows {
        let text = nested(rt.alloc(), nesting, times)?;
        let row = ("a nested text", text.as_str(), wanted);
        table.hold(row, came(rt.alloc(), text.as_str()));
    }
    table.end()
}

/// What comes of a call, as a text, or nothing where memory is refused.
pub type Called = Result<Option<String>, Fail>;

/// What a call answers that is made again, since it was refused memory.
fn again(alloc: Global, answer: Called) -> Came {
    match answer? {
        Some(text) => Ok(format!(in alloc; "{text}, after no memory")?),
        None => Err(Fail::new("refused twice")),
    }
}

/// Holds what a call answers of each row to what is wanted, as [`hold_rows`] does. A call that answers nothing, since it was
/// refused memory, is made again. `tools/refuse_memory` holds that answer to what is wanted.
pub fn hold_answers<F: Fn(Global, &str) -> Called>(
    rt: &(impl Eprint + AllocGlobal),
    rows: &[&str],
    call: F,
) -> Result<(), Fail>
    requires { F.IsAlwaysCallable call }
{
    let alloc = rt.alloc();
    let mut table = Table::new(rt);
    for &row in rows {
        let (given, wanted) = ends(row);
        let came = match call(alloc, given) {
            Ok(Some(text)) => Ok(text),
            Ok(None) => again(alloc, call(alloc, given)),
            Err(fail) => Err(fail),
        };
        table.hold(("refused memory", given, wanted), came);
    }
    table.end()
}
