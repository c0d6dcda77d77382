//! The signatures of the items of Prim.

ghost use Rattle.std.specs.Prelude.{◌≡◌, map, IfOk};
ghost use Rattle.qtt_syntax.specs.View.{argument_of, tree_of};
ghost use Rattle.qtt_names.specs.Exports.{sig_of};
ghost use Rattle.qtt_names.specs.PrimSigs as defined;

use crate::exports::Sig;
use crate::target::part;
use qtt_base::{GlobalId, MemoryError, ModuleId, Span};
use qtt_syntax::{Argument, Expr, Mark, Named, Target};
use qtt_usage::mult::Mult;
use std::alloc::Global;

/// The place of what stands in no text.
const NOWHERE: Span = Span {
    line: 0,
    col: 0,
    len: 0,
};

// ---- types

fn used(alloc: Global, target: Target, path: &str) -> Result<Expr, MemoryError>
    ensures { IfOk result (λ t. tree_of t ≡ defined.used target path.now) }
{
    Ok(Expr::Name(Named {
        path: part(alloc, path)?,
        target,
        span: NOWHERE,
    }))
}

/// An item of Prim, by its number.
fn item(alloc: Global, number: u32, path: &str) -> Result<Expr, MemoryError>
    ensures { IfOk result (λ t. tree_of t ≡ defined.item number path.now) }
{
    let id = GlobalId {
        module: ModuleId(0),
        item: number,
    };
    used(alloc, Target::Global(id), path)
}

fn variable(alloc: Global, number: u32, path: &str) -> Result<Expr, MemoryError>
    ensures { IfOk result (λ t. tree_of t ≡ defined.variable number path.now) }
{
    used(alloc, Target::Local(number), path)
}

fn types() -> Expr
    ensures { tree_of result ≡ defined.types }
{
    Expr::Type {
        level: 0,
        level_span: NOWHERE,
        span: NOWHERE,
    }
}

fn applied(alloc: Global, function: Expr, arguments: Vec<Argument>) -> Result<Expr, MemoryError>
    ensures { IfOk result (λ t. tree_of t ≡ defined.applied (tree_of function)
        (map argument_of arguments.items)) }
{
    Ok(Expr::Apply {
        function: Box::new(alloc, function)?,
        arguments,
        span: NOWHERE,
    })
}

/// `(MULT NAME : DOMAIN) -> CODOMAIN`
fn function(
    alloc: Global,
    mult: Mult,
    name: &str,
    domain: Expr,
    codomain: Expr,
) -> Result<Expr, MemoryError>
    ensures { IfOk result (λ t. tree_of t ≡ defined.function mult name.now (tree_of domain)
        (tree_of codomain)) }
{
    Ok(Expr::Pi {
        mark: Mark::Written,
        mult,
        name: part(alloc, name)?,
        domain: Box::new(alloc, domain)?,
        codomain: Box::new(alloc, codomain)?,
        span: NOWHERE,
    })
}

/// `DOMAIN -> CODOMAIN`
fn arrow(alloc: Global, domain: Expr, codomain: Expr) -> Result<Expr, MemoryError>
    ensures { IfOk result (λ t. tree_of t ≡ defined.arrow (tree_of domain) (tree_of codomain)) }
{
    function(alloc, Mult::Many, "_", domain, codomain)
}

fn int(alloc: Global) -> Result<Expr, MemoryError>
    ensures { IfOk result (λ t. tree_of t ≡ defined.int) }
{
    item(alloc, 0, "Int")
}

fn string(alloc: Global) -> Result<Expr, MemoryError>
    ensures { IfOk result (λ t. tree_of t ≡ defined.string) }
{
    item(alloc, 1, "String")
}

fn handle(alloc: Global) -> Result<Expr, MemoryError>
    ensures { IfOk result (λ t. tree_of t ≡ defined.handle) }
{
    item(alloc, 2, "Handle")
}

fn unit(alloc: Global) -> Result<Expr, MemoryError>
    ensures { IfOk result (λ t. tree_of t ≡ defined.unit) }
{
    item(alloc, 3, "Unit")
}

fn bool(alloc: Global) -> Result<Expr, MemoryError>
    ensures { IfOk result (λ t. tree_of t ≡ defined.bool) }
{
    item(alloc, 4, "Bool")
}

fn line(alloc: Global) -> Result<Expr, MemoryError>
    ensures { IfOk result (λ t. tree_of t ≡ defined.line) }
{
    item(alloc, 5, "Line")
}

/// `IO TYPE`
fn io(alloc: Global, ty: Expr) -> Result<Expr, MemoryError>
    ensures { IfOk result (λ t. tree_of t ≡ defined.io (tree_of ty)) }
{
    let function = item(alloc, 6, "IO")?;
    applied(alloc, function, vec![in alloc; Argument::Written(ty)]?)
}

/// `IO1 TYPE`
fn io1(alloc: Global, ty: Expr) -> Result<Expr, MemoryError>
    ensures { IfOk result (λ t. tree_of t ≡ defined.io1 (tree_of ty)) }
{
    let function = item(alloc, 7, "IO1")?;
    applied(alloc, function, vec![in alloc; Argument::Written(ty)]?)
}

/// `Eq a x x`, behind the binders `a` and `x`
fn reflexive(alloc: Global) -> Result<Expr, MemoryError>
    ensures { IfOk result (λ t. tree_of t ≡ defined.reflexive) }
{
    let function = item(alloc, 13, "Eq")?;
    let ty = Argument::Written(variable(alloc, 1, "a")?);
    let left = Argument::Written(variable(alloc, 0, "x")?);
    let right = Argument::Written(variable(alloc, 0, "x")?);
    applied(alloc, function, vec![in alloc; ty, left, right]?)
}

/// `(0 a : Type) -> TYPE`
fn for_types(alloc: Global, ty: Expr) -> Result<Expr, MemoryError>
    ensures { IfOk result (λ t. tree_of t ≡ defined.for_types (tree_of ty)) }
{
    function(alloc, Mult::Zero, "a", types(), ty)
}

/// `(0 a : Type) -> (0 x : a) -> TYPE`
fn for_points(alloc: Global, ty: Expr) -> Result<Expr, MemoryError>
    ensures { IfOk result (λ t. tree_of t ≡ defined.for_points (tree_of ty)) }
{
    let a = variable(alloc, 0, "a")?;
    for_types(alloc, function(alloc, Mult::Zero, "x", a, ty)?)
}

// ---- signatures

/// The first `params` binders are written by no text.
fn sig(params: u32, ty: Expr) -> Sig
    ensures { sig_of result ≡ defined.sig params (tree_of ty) }
{
    Sig {
        braces: 0,
        params,
        ty,
    }
}

/// A function of one argument, which is used many times.
fn of_one(alloc: Global, domain: Expr, codomain: Expr) -> Result<Sig, MemoryError>
    ensures { IfOk result (λ s. sig_of s ≡ defined.sig 0
        (defined.arrow (tree_of domain) (tree_of codomain))) }
{
    Ok(sig(0, arrow(alloc, domain, codomain)?))
}

/// `Int -> Int -> TYPE`
fn of_numbers(alloc: Global, ty: Expr) -> Result<Sig, MemoryError>
    ensures { IfOk result (λ s. sig_of s ≡ defined.of_numbers (tree_of ty)) }
{
    let second = arrow(alloc, int(alloc)?, ty)?;
    of_one(alloc, int(alloc)?, second)
}

/// `String -> String -> TYPE`
fn of_texts(alloc: Global, ty: Expr) -> Result<Sig, MemoryError>
    ensures { IfOk result (λ s. sig_of s ≡ defined.of_texts (tree_of ty)) }
{
    let second = arrow(alloc, string(alloc)?, ty)?;
    of_one(alloc, string(alloc)?, second)
}

/// `(1 h : Handle) -> TYPE`
fn of_handle(alloc: Global, ty: Expr) -> Result<Sig, MemoryError>
    ensures { IfOk result (λ s. sig_of s ≡ defined.of_handle (tree_of ty)) }
{
    Ok(sig(0, function(alloc, Mult::One, "h", handle(alloc)?, ty)?))
}

/// `Type -> Type`, of an argument that only types use
fn of_type(alloc: Global) -> Result<Sig, MemoryError>
    ensures { IfOk result (λ s. sig_of s ≡ defined.of_type) }
{
    Ok(sig(0, function(alloc, Mult::Zero, "_", types(), types())?))
}

/// Int, String, Handle, Unit, Bool, Line; IO, IO1
fn type_sigs(alloc: Global) -> Result<Vec<Sig>, MemoryError>
    ensures { IfOk result (λ v. map sig_of v.items ≡ defined.type_sigs) }
{
    Ok(vec![in alloc;
        sig(0, types()),
        sig(0, types()),
        sig(0, types()),
        sig(0, types()),
        sig(0, types()),
        sig(0, types()),
        of_type(alloc)?,
        of_type(alloc)?,
    ]?)
}

/// `(0 a : Type) -> (0 x : a) -> a -> Type`
fn of_equality(alloc: Global) -> Result<Sig, MemoryError>
    ensures { IfOk result (λ s. sig_of s ≡ defined.of_equality) }
{
    let index = arrow(alloc, variable(alloc, 1, "a")?, types())?;
    Ok(sig(0, for_points(alloc, index)?))
}

/// MkUnit, False, True, Eof, Got; Eq, Refl
fn constructor_sigs(alloc: Global) -> Result<Vec<Sig>, MemoryError>
    ensures { IfOk result (λ v. map sig_of v.items ≡ defined.constructor_sigs) }
{
    Ok(vec![in alloc;
        sig(0, unit(alloc)?),
        sig(0, bool(alloc)?),
        sig(0, bool(alloc)?),
        sig(0, line(alloc)?),
        of_one(alloc, string(alloc)?, line(alloc)?)?,
        of_equality(alloc)?,
        sig(2, for_points(alloc, reflexive(alloc)?)?),
    ]?)
}

/// addInt, subInt, mulInt, divInt, modInt; eqInt, ltInt
fn number_sigs(alloc: Global) -> Result<Vec<Sig>, MemoryError>
    ensures { IfOk result (λ v. map sig_of v.items ≡ defined.number_sigs) }
{
    Ok(vec![in alloc;
        of_numbers(alloc, int(alloc)?)?,
        of_numbers(alloc, int(alloc)?)?,
        of_numbers(alloc, int(alloc)?)?,
        of_numbers(alloc, int(alloc)?)?,
        of_numbers(alloc, int(alloc)?)?,
        of_numbers(alloc, bool(alloc)?)?,
        of_numbers(alloc, bool(alloc)?)?,
    ]?)
}

/// appendString, eqString, showInt
fn text_sigs(alloc: Global) -> Result<Vec<Sig>, MemoryError>
    ensures { IfOk result (λ v. map sig_of v.items ≡ defined.text_sigs) }
{
    Ok(vec![in alloc;
        of_texts(alloc, string(alloc)?)?,
        of_texts(alloc, bool(alloc)?)?,
        of_one(alloc, int(alloc)?, string(alloc)?)?,
    ]?)
}

/// `(0 a : Type) -> a -> IO a`
fn of_pure(alloc: Global) -> Result<Sig, MemoryError>
    ensures { IfOk result (λ s. sig_of s ≡ defined.of_pure) }
{
    let action = io(alloc, variable(alloc, 1, "a")?)?;
    let function = arrow(alloc, variable(alloc, 0, "a")?, action)?;
    Ok(sig(1, for_types(alloc, function)?))
}

/// `(0 a : Type) -> (1 x : a) -> IO1 a`
fn of_pure1(alloc: Global) -> Result<Sig, MemoryError>
    ensures { IfOk result (λ s. sig_of s ≡ defined.of_pure1) }
{
    let action = io1(alloc, variable(alloc, 1, "a")?)?;
    let domain = variable(alloc, 0, "a")?;
    let function = function(alloc, Mult::One, "x", domain, action)?;
    Ok(sig(1, for_types(alloc, function)?))
}

/// pure, pure1; putLine, getLine; open, write, close
fn action_sigs(alloc: Global) -> Result<Vec<Sig>, MemoryError>
    ensures { IfOk result (λ v. map sig_of v.items ≡ defined.action_sigs) }
{
    let io_unit = io(alloc, unit(alloc)?)?;
    let write = arrow(alloc, string(alloc)?, io1(alloc, handle(alloc)?)?)?;
    Ok(vec![in alloc;
        of_pure(alloc)?,
        of_pure1(alloc)?,
        of_one(alloc, string(alloc)?, io_unit)?,
        sig(0, io(alloc, line(alloc)?)?),
        of_one(alloc, string(alloc)?, io1(alloc, handle(alloc)?)?)?,
        of_handle(alloc, write)?,
        of_handle(alloc, io(alloc, unit(alloc)?)?)?,
    ]?)
}

/// The signatures of Prim's items, in the order of their numbers.
pub(crate) fn prim_sigs(alloc: Global) -> Result<Vec<Sig>, MemoryError>
    ensures { IfOk result (λ v. map sig_of v.items ≡ defined.prim_sigs) }
{
    let mut sigs = type_sigs(alloc)?;
    sigs.append(&mut constructor_sigs(alloc)?)?;
    sigs.append(&mut number_sigs(alloc)?)?;
    sigs.append(&mut text_sigs(alloc)?)?;
    sigs.append(&mut action_sigs(alloc)?)?;
    Ok(sigs)
}
