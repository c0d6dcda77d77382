use super::*;
use std::test::Fail;

fn takes_shared<T: Sync>(value: &T) -> &T {
    value
}

fn takes_moved<T: Send>(value: T) -> T {
    value
}

#[test]
fn literals_cross_threads(rt: HostRuntime) -> Result<(), Fail> {
    let text = takes_moved(Lit::Text(Text::from_str(rt.alloc(), "a")?));
    assert!(rt; takes_shared(&text).same(&text.copy()?));
    assert!(rt; !text.same(&Lit::Int(7)));
    Ok(())
}
