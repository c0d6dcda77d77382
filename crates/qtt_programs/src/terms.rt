//! Terms as the worked programs have them.

ghost use Rattle.std.specs.Prelude.{◌≡◌, [], ◌∷◌, IfOk};
ghost use Rattle.qtt_usage.specs.Mult.{ω};
ghost use Rattle.qtt_term.specs.Signature.{prim_id, UnitTy, MkUnit, LineTy, EqTy, Refl, truth as truth_of};
ghost use Rattle.qtt_term.specs.Term.{Io, Action, Form, node, ε, ◌▸◌, IntLit, TextLit, Fam, Def, Call, Act, Trap};
ghost use Rattle.qtt_term.specs.Programs.{item as item_of, bound, io_unit as io_unit_of, put as put_of, shown as shown_of, then_do as then_do_of, with_handle as with_handle_of, opened_a as opened_a_of, written as written_of, closed_after as closed_after_of};
ghost use Rattle.qtt_term.specs.FullRun.{pure_unit};
ghost use Rattle.qtt_term.specs.View.{term, terms, side_by_side, action};
ghost use Rattle.qtt_programs.specs.Programs.{choice as choice_of};

use qtt_base::{GlobalId, ModuleId};
use qtt_prims::{ActKind, Lit, Primitive, Text};
use qtt_term::{Branch, Case, ConId, IoKind, Term, TermError};
use qtt_usage::mult::Mult;
use std::alloc::Global;

pub type Made = Result<Term, TermError>;

/// The item of that number of the module Main.
pub fn item(number: u32) -> GlobalId
    ensures { result ≡ item_of number }
{
    GlobalId {
        module: ModuleId(1),
        item: number,
    }
}

/// The item of that number of the module Prim.
pub fn prim_item(number: u32) -> GlobalId
    ensures { result ≡ prim_id number }
{
    GlobalId {
        module: ModuleId(0),
        item: number,
    }
}

pub fn int(number: i64) -> Term
    ensures { term result ≡ IntLit number }
{
    Term::Lit(Lit::Int(number))
}

pub fn text(alloc: Global, content: &str) -> Made
    ensures { IfOk result (λ t. term t ≡ TextLit content.now) }
{
    Ok(Term::Lit(Lit::Text(Text::from_str(alloc, content)?)))
}

/// A definition of Main.
pub fn def(number: u32) -> Term
    ensures { term result ≡ Def (item_of number) }
{
    Term::Def(item(number))
}

/// A family without parameters and indices.
pub fn family(alloc: Global, id: GlobalId) -> Term
    ensures { term result ≡ Fam id ε }
{
    Term::Fam(id, Vec::new(alloc))
}

pub fn unit(alloc: Global) -> Term
    ensures { term result ≡ UnitTy }
{
    family(alloc, prim_item(3))
}

/// A constructor of a family without parameters.
pub fn constructor(family: GlobalId, place: u32, fields: Vec<Term>, none: Vec<Term>) -> Term
    requires { none.items ≡ [] }
    ensures { term result ≡ node (Form.con family place 0) (side_by_side (terms fields.items)) }
{
    let con = ConId { family, place };
    Term::Con(con, none, fields)
}

pub fn make_unit(alloc: Global) -> Term
    ensures { term result ≡ MkUnit }
{
    constructor(prim_item(3), 0, Vec::new(alloc), Vec::new(alloc))
}

pub fn truth(alloc: Global, yes: bool) -> Term
    ensures { term result ≡ truth_of yes }
{
    let place = if yes { 1 } else { 0 };
    constructor(prim_item(4), place, Vec::new(alloc), Vec::new(alloc))
}

/// `Eq ty left right`
pub fn equality(alloc: Global, ty: Term, left: Term, right: Term) -> Made
    ensures { IfOk result (λ t. term t ≡ EqTy (term ty) (term left) (term right)) }
{
    Ok(Term::Fam(prim_item(13), vec![in alloc; ty, left, right]?))
}

/// The proof that a point of a type equals itself.
pub fn reflexivity(alloc: Global, ty: Term, point: Term) -> Made
    ensures { IfOk result (λ t. term t ≡ Refl (term ty) (term point)) }
{
    let con = ConId {
        family: prim_item(13),
        place: 0,
    };
    Ok(Term::Con(con, vec![in alloc; ty, point]?, Vec::new(alloc)))
}

/// The type `IO Unit`.
pub fn io_unit(alloc: Global) -> Made
    ensures { IfOk result (λ t. term t ≡ io_unit_of) }
{
    Ok(Term::IoTy(IoKind::Io, Box::new(alloc, unit(alloc))?))
}

/// A primitive at two arguments.
pub fn call(alloc: Global, prim: Primitive, left: Term, right: Term) -> Made
    ensures { IfOk result (λ t. term t ≡ Call prim (term left ▸ term right ▸ ε)) }
{
    Ok(Term::Prim(prim, vec![in alloc; left, right]?))
}

pub fn shown(alloc: Global, number: Term) -> Made
    ensures { IfOk result (λ t. term t ≡ shown_of (term number)) }
{
    Ok(Term::Prim(Primitive::ShowInt, vec![in alloc; number]?))
}

/// An action without type arguments.
fn act(alloc: Global, kind: ActKind, args: Vec<Term>) -> Term
    ensures { term result ≡ Act (action kind) 0 (side_by_side (terms args.items)) }
{
    Term::Act(kind, Vec::new(alloc), args)
}

pub fn put(alloc: Global, line: Term) -> Made
    ensures { IfOk result (λ t. term t ≡ put_of (term line)) }
{
    Ok(act(alloc, ActKind::PutLine, vec![in alloc; line]?))
}

pub fn get_line(alloc: Global) -> Term
    ensures { term result ≡ Act Action.get_line 0 ε }
{
    act(alloc, ActKind::GetLine, Vec::new(alloc))
}

/// `open "a"`
pub fn opened_a(alloc: Global) -> Made
    ensures { IfOk result (λ t. term t ≡ opened_a_of) }
{
    Ok(act(alloc, ActKind::Open, vec![in alloc; text(alloc, "a")?]?))
}

/// `write handle line`
pub fn written(alloc: Global, handle: Term, line: Term) -> Made
    ensures { IfOk result (λ t. term t ≡ written_of (term handle) (term line)) }
{
    Ok(act(alloc, ActKind::Write, vec![in alloc; handle, line]?))
}

/// `close handle`
pub fn closed_after(alloc: Global, handle: Term) -> Made
    ensures { IfOk result (λ t. term t ≡ closed_after_of (term handle)) }
{
    Ok(act(alloc, ActKind::Close, vec![in alloc; handle]?))
}

/// `pure MkUnit`
pub fn done(alloc: Global) -> Made
    ensures { IfOk result (λ t. term t ≡ pure_unit) }
{
    let value = vec![in alloc; make_unit(alloc)]?;
    Ok(Term::Act(ActKind::Pure, vec![in alloc; unit(alloc)]?, value))
}

/// `first; next`
pub fn then_do(alloc: Global, first: Term, next: Term) -> Made
    ensures { IfOk result (λ t. term t ≡ then_do_of (term first) (term next)) }
{
    let types = vec![in alloc; unit(alloc), unit(alloc)]?;
    let next = Term::lam(alloc, Mult::Many, unit(alloc), next)?;
    Ok(Term::Act(ActKind::BindIoIo, types, vec![in alloc; first, next]?))
}

/// `handle <- first; next`
pub fn with_handle(alloc: Global, first: Term, next: Term) -> Made
    ensures { IfOk result (λ t. term t ≡ with_handle_of (term first) (term next)) }
{
    let types = vec![in alloc; Term::HandleTy, unit(alloc)]?;
    let next = Term::lam(alloc, Mult::One, Term::HandleTy, next)?;
    Ok(Term::Act(ActKind::BindIo1Io, types, vec![in alloc; first, next]?))
}

/// `line <- first; next`
pub fn line_then(alloc: Global, first: Term, next: Term) -> Made
    ensures { IfOk result (λ t. term t ≡ bound Io.io Io.io LineTy UnitTy (term first)
        (term next) ω) }
{
    let line = family(alloc, prim_item(5));
    let types = vec![in alloc; line, unit(alloc)]?;
    let line = family(alloc, prim_item(5));
    let next = Term::lam(alloc, Mult::Many, line, next)?;
    Ok(Term::Act(ActKind::BindIoIo, types, vec![in alloc; first, next]?))
}

/// A branch under so many fields.
pub fn branch(fields: u32, body: Term) -> Branch
    ensures { result ≡ record { fields = fields; body = body } }
{
    Branch { fields, body }
}

/// A match on a family without parameters and indices that has two constructors.
pub fn matched(
    alloc: Global,
    family: GlobalId,
    motive: Term,
    first: Branch,
    second: Branch,
    scrutinee: Term,
) -> Made
    ensures { IfOk result (λ t. term t ≡ node
        (Form.case ω family 0 1 (first.fields ∷ second.fields ∷ []))
        (term motive ▸ term first.body ▸ term second.body ▸ term scrutinee ▸ ε)) }
{
    let case = Case {
        mult: Mult::Many,
        family,
        params: Vec::new(alloc),
        indices: 0,
        motive,
        branches: vec![in alloc; first, second]?,
        scrutinee,
    };
    Ok(Term::Case(Box::new(alloc, case)?))
}

/// A match on a Bool with an Int as answer.
pub fn choice(alloc: Global, no: Term, yes: Term, scrutinee: Term) -> Made
    ensures { IfOk result (λ t. term t ≡ choice_of (term no) (term yes) (term scrutinee)) }
{
    let no = branch(0, no);
    let yes = branch(0, yes);
    matched(alloc, prim_item(4), Term::IntTy, no, yes, scrutinee)
}

pub fn trap(alloc: Global, ty: Term) -> Made
    ensures { IfOk result (λ t. term t ≡ Trap (term ty)) }
{
    Ok(Term::Trap(Box::new(alloc, ty)?))
}
