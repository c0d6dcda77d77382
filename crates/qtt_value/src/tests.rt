//! That parts are placed where memory is ample.

use crate::val::{Val, place};
use bumpalo::Bump;
use std::test::Fail;

#[test]
fn parts_are_placed(rt: HostRuntime) -> Result<(), Fail> {
    let arena = Bump::new(rt.alloc());
    let inner = place(&arena, &[Val::Int(3)])?;
    let placed = place(&arena, &[Val::Con(1, inner), Val::Text("a")])?;
    assert_eq!(rt; placed.len(), 2);
    match placed[0] {
        Val::Con(tag, parts) => {
            assert_eq!(rt; tag, 1);
            assert_eq!(rt; parts.len(), 1);
        }
        _ => assert!(rt; false, "a constructor was placed"),
    }
    Ok(())
}
