use super::*;
use std::test::Fail;

fn text_of(alloc: Global, content: &str) -> Result<Lit, AllocError> {
    Ok(Lit::Text(Text::from_str(alloc, content)?))
}

#[test]
fn divisions_wrap_at_the_least_number(rt: HostRuntime) -> Result<(), Fail> {
    let args = [Lit::Int(i64::MIN), Lit::Int(-1)];
    let quotient = apply(rt.alloc(), Primitive::DivInt, &args)?;
    assert!(rt; quotient == PrimAnswer::Value(Lit::Int(i64::MIN)));
    let rest = apply(rt.alloc(), Primitive::ModInt, &args)?;
    assert!(rt; rest == PrimAnswer::Value(Lit::Int(0)));
    Ok(())
}

#[test]
fn numbers_are_shown_in_decimal(rt: HostRuntime) -> Result<(), Fail> {
    let shown = apply(rt.alloc(), Primitive::ShowInt, &[Lit::Int(i64::MIN)])?;
    let expected = text_of(rt.alloc(), "-9223372036854775808")?;
    assert!(rt; shown == PrimAnswer::Value(expected));
    Ok(())
}

#[test]
fn texts_are_joined(rt: HostRuntime) -> Result<(), Fail> {
    let args = [text_of(rt.alloc(), "he")?, text_of(rt.alloc(), "llo")?];
    let joined = apply(rt.alloc(), Primitive::AppendString, &args)?;
    let expected = text_of(rt.alloc(), "hello")?;
    assert!(rt; joined == PrimAnswer::Value(expected));
    let refused = apply(rt.alloc(), Primitive::AddInt, &args)?;
    assert!(rt; refused == PrimAnswer::IllTyped);
    Ok(())
}
