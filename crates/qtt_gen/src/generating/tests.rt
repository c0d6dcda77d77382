use super::*;
use std::test::Fail;

const LAST: &str = "module G0x3\nf0x3 : Int -> Int\nf0x3 x = addInt (mulInt x 3) 3\n\
p0x3 : Eq Int (f0x3 0) 3\np0x3 = Refl\n";

const MAIN: &str = "module Main\nimport G0x0\nimport G0x1\nimport G0x2\nimport G0x3\n\
main : IO Unit\nmain = do\n  putLine (showInt (f0x0 1))\n  putLine (showInt (f0x1 1))\n  \
putLine (showInt (f0x2 1))\n  putLine (showInt (f0x3 1))\n";

const SEVENTH: &str = "module G6x0\nimport G5x1\nf6x0 : Int -> Int\n\
f6x0 x = f5x1 (addInt (mulInt x 3) 24)\np6x0 : Eq Int (f6x0 0) 24551\np6x0 = Refl\n";

fn is_module(module: &(Name, Vec<u8>), name: &str, text: &str) -> bool {
    module.0.as_str() == name && module.1.as_slice() == text.as_bytes()
}

#[test]
fn modules_of_one_are_generated(rt: HostRuntime) -> Result<(), Fail> {
    let modules = generate(rt.alloc(), 1)?;
    assert!(rt; modules.len() == 5);
    assert!(rt; is_module(&modules[3], "G0x3", LAST));
    assert!(rt; is_module(&modules[4], "Main", MAIN));
    Ok(())
}

#[test]
fn modules_of_seven_are_generated(rt: HostRuntime) -> Result<(), Fail> {
    let modules = generate(rt.alloc(), 7)?;
    assert!(rt; modules.len() == 29);
    assert!(rt; is_module(&modules[24], "G6x0", SEVENTH));
    assert!(rt; modules[28].0.as_str() == "Main");
    Ok(())
}
