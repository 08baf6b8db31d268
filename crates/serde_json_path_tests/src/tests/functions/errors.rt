//! What a set refuses a call for comes through other sets.

ghost use Rattle.serde_json_path_functions.specs.Functions.{Fits};
ghost use Rattle.test_rows.specs.TestSets.{refused_names};

use crate::tests::functions::patterns::arguments;
use serde_json_path_functions::{Both, Builtin, Functions, QueryError};
use std::alloc::Global;
use std::process::Abort;
use std::test::Fail;
use test_rows::Overriding;

/// Holds a set that has the names of `Overriding` to its errors.
fn refuses_each<F: Functions>(rt: &impl Abort, alloc: Global, functions: &F) -> Result<(), Fail>
    requires { Fits (F.set functions.now) refused_names }
{
    let memory = functions.call(alloc, "memory", Vec::new(alloc)).err();
    assert!(rt; memory == Some(QueryError::Memory));
    let too_great = arguments(alloc, r#""a""#, r#""a{1000}{1000}""#)?;
    let pattern = functions.call(alloc, "pattern", too_great).err();
    assert!(rt; pattern == Some(QueryError::Pattern));
    Ok(())
}

#[test]
fn errors_come_through_other_sets(rt: HostRuntime) -> Result<(), Fail> {
    let alloc = rt.alloc();
    refuses_each(&rt, alloc, &Overriding)?;
    refuses_each(&rt, alloc, &&Overriding)?;
    refuses_each(&rt, alloc, &Both(Overriding, Builtin))?;
    refuses_each(&rt, alloc, &Both(Builtin, Overriding))?;
    refuses_each(&rt, alloc, &Both(&Builtin, Both(&Overriding, &Builtin)))
}
