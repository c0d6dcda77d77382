//! Kinds of refusals.

use crate::{Detail, Refusal, kind};
use qtt_base::{Name, Quantity, Span};
use qtt_term::{Globals, Rule};
use std::test::Fail;

#[test]
fn a_limit_is_kind_31(rt: HostRuntime) -> Result<(), Fail> {
    let refusal = Refusal {
        module: Name::new(rt.alloc(), "Main")?,
        span: Span {
            line: 1,
            col: 1,
            len: 0,
        },
        rule: Rule::Text,
        premise: 1,
        detail: Detail::Limit {
            quantity: Quantity::Modules,
            count: 1001,
        },
        names: Globals::prim(rt.alloc())?,
    };
    assert_eq!(rt; kind(&refusal), 31);
    assert_eq!(rt; Detail::NeedsType.kind(), 14);
    Ok(())
}
