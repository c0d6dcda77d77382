use super::*;
use std::test::Fail;

fn takes_shared<T: Sync>(value: &T) -> &T {
    value
}

fn takes_moved<T: Send>(value: T) -> T {
    value
}

#[test]
fn long_parts_are_refused(rt: HostRuntime) -> Result<(), Fail> {
    let mut text = String::new(rt.alloc());
    for _ in 0..255 {
        text.push('a')?;
    }
    text.push_str(".b")?;
    assert!(rt; Name::new(rt.alloc(), text.as_str()).is_ok());
    text.push('c')?;
    assert!(rt; Name::new(rt.alloc(), text.as_str()).is_ok());
    let mut long = String::from_str(rt.alloc(), "b.")?;
    for _ in 0..256 {
        long.push('a')?;
    }
    let refused = Name::new(rt.alloc(), long.as_str());
    assert!(rt; matches!(refused, Err(NameError::TooLong)));
    Ok(())
}

#[test]
fn names_are_in_byte_order(rt: HostRuntime) -> Result<(), Fail> {
    let upper = Name::new(rt.alloc(), "Main.Z")?;
    let lower = Name::new(rt.alloc(), "Main.a")?;
    assert!(rt; upper < lower);
    assert!(rt; upper.copy()?.same(&upper));
    assert!(rt; !upper.same(&lower));
    Ok(())
}

#[test]
fn names_cross_threads(rt: HostRuntime) -> Result<(), Fail> {
    let name = takes_moved(Name::new(rt.alloc(), "Main")?);
    assert!(rt; takes_shared(&name).as_str() == "Main");
    Ok(())
}
