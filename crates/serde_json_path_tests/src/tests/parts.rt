//! Parts in order.

use serde_json_path_core::{Parts, SyntaxBuilder};
use std::test::Fail;

#[test]
fn are_empty_until_one_is_pushed(rt: HostRuntime) -> Result<(), Fail> {
    let alloc = rt.alloc();
    let part = SyntaxBuilder::new(alloc).wildcard()?;
    let mut parts = Parts::new(alloc);
    assert!(rt; parts.is_empty());
    for number in 1..4usize {
        parts.push(part)?;
        assert_eq!(rt; parts.as_slice().len(), number);
    }
    assert!(rt; !parts.is_empty());
    Ok(())
}

#[test]
fn are_those_of_a_list(rt: HostRuntime) -> Result<(), Fail> {
    let alloc = rt.alloc();
    let part = SyntaxBuilder::new(alloc).wildcard()?;
    let mut parts = Parts::from(Vec::new(alloc));
    assert!(rt; parts.is_empty());
    parts.push(part)?;
    assert_eq!(rt; parts.as_slice().len(), 1);
    assert_eq!(rt;
        Parts::from(vec![in alloc; part, part]?).as_slice().len(),
        2
    );
    Ok(())
}
