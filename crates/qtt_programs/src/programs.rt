//! The worked programs without families of their own.

ghost use Rattle.std.specs.Prelude.{◌≡◌, ◌∷◌, [], IfOk, codes, pos, true};
ghost use Rattle.qtt_usage.specs.Mult.{𝟘, 𝟙, ω};
ghost use Rattle.qtt_term.specs.Term.{Io, Action, Form, node, ε, ◌▸◌, Pi, Lam, App, Def, IntLit, TextLit, Act, Trap, var};
ghost use Rattle.qtt_term.specs.Signature.{line_id, IntTy, UnitTy, MkUnit, BoolTy, LineTy, Refl, truth as truth_of};
ghost use Rattle.qtt_programs.specs.Closed.{listed_item};
ghost use Rattle.qtt_term.specs.Globals.{env};
ghost use Rattle.qtt_term.specs.Programs.{item as item_of, bound, added, then_do as then_do_of, with_handle as with_handle_of, written as written_of, closed_after as closed_after_of, io_unit as io_unit_of, put as put_of, shown as shown_of, hello as hello_env, identity as identity_env, loops as loops_env, forever as forever_env, partial_no as partial_no_env, one_by_zero as one_by_zero_of, no_of_false as no_of_false_of, handles as handles_env, trapping as trapping_env, echo as echo_env, shows as shows_env, deletes as deletes_env};
ghost use Rattle.qtt_term.specs.FullRun.{pure_unit};
ghost use Rattle.qtt_term.specs.Substitution.{Closed};
ghost use Rattle.qtt_term.specs.View.{term};
ghost use Rattle.qtt_programs.specs.Programs.{choice as choice_of, least_by_minus_one as least_by_minus_one_of, greatest_and_one as greatest_and_one_of, two_lines as two_lines_env, counting as counting_env, counted_down as counted_down_of, closing_later as closing_later_env, overlapping as overlapping_env, overlapping_body as overlapping_body_of, deleting_type as deleting_type_of, deleting_body as deleting_body_of};

use crate::building::{Item, definition, plain};
use crate::terms::{
    Made, branch, call, choice, closed_after, def, done, equality, family, get_line, int, io_unit,
    line_then, make_unit, matched, opened_a, prim_item, put, reflexivity, shown, text, then_do,
    trap, truth, unit, with_handle, written,
};
use qtt_prims::Primitive;
use qtt_term::{Delete, Globals, Term};
use qtt_usage::mult::Mult;
use std::alloc::Global;
use std::test::Fail;

/// `main = do putLine "hello"`
pub fn hello(alloc: Global) -> Result<Globals, Fail>
    ensures { IfOk result (λ g. env g ≡ hello_env) }
{
    let main = put(alloc, text(alloc, "hello")?)?;
    plain(alloc, vec![in alloc; definition(0, io_unit(alloc)?, main)]?)
}

/// `id : (1 x : Int) -> Int; id x = x`
fn identity_function(alloc: Global) -> Result<Item, Fail>
    ensures { IfOk result (λ x. listed_item x.number (term x.ty) (term x.body) ≡ listed_item 0
        (Pi 𝟙 IntTy IntTy) (Lam 𝟙 IntTy (var 0))) }
{
    let ty = Term::pi(alloc, Mult::One, Term::IntTy, Term::IntTy)?;
    let id = Term::lam(alloc, Mult::One, Term::IntTy, Term::Var(0))?;
    Ok(definition(0, ty, id))
}

/// `main = putLine (showInt (id 3))`
fn identity_main(alloc: Global) -> Result<Item, Fail>
    ensures { IfOk result (λ x. listed_item x.number (term x.ty) (term x.body) ≡
        listed_item 1 io_unit_of (put_of (shown_of (App 𝟙 (Def (item_of 0)) (IntLit (pos 3)))))) }
{
    let called = Term::app(alloc, Mult::One, def(0), int(3))?;
    let main = put(alloc, shown(alloc, called)?)?;
    Ok(definition(1, io_unit(alloc)?, main))
}

/// The two: `id`, and `main` which shows `id 3`.
pub fn identity(alloc: Global) -> Result<Globals, Fail>
    ensures { IfOk result (λ g. env g ≡ identity_env) }
{
    let id = identity_function(alloc)?;
    let main = identity_main(alloc)?;
    plain(alloc, vec![in alloc; main, id]?)
}

/// `(0 u : Unit) -> Int`
fn erased_unit_to_int(alloc: Global) -> Made
    ensures { IfOk result (λ t. term t ≡ Pi 𝟘 UnitTy IntTy) }
{
    Term::pi(alloc, Mult::Zero, unit(alloc), Term::IntTy)
}

/// `loopy : (0 u : Unit) -> Int; loopy u = loopy u`
fn loopy(alloc: Global) -> Result<Item, Fail>
    ensures { IfOk result (λ x. listed_item x.number (term x.ty) (term x.body) ≡
        listed_item 0 (Pi 𝟘 UnitTy IntTy) (Lam 𝟘 UnitTy (App 𝟘 (Def (item_of 0)) (var 0)))) }
{
    let again = Term::app(alloc, Mult::Zero, def(0), Term::Var(0))?;
    let body = Term::lam(alloc, Mult::Zero, unit(alloc), again)?;
    Ok(definition(0, erased_unit_to_int(alloc)?, body))
}

/// `use : ((0 u : Unit) -> Int) -> IO Unit; use f = putLine "ok"`
fn use_of_function(alloc: Global) -> Result<Item, Fail>
    ensures { IfOk result (λ x. listed_item x.number (term x.ty) (term x.body) ≡
        listed_item 1 (Pi ω (Pi 𝟘 UnitTy IntTy) io_unit_of)
        (Lam ω (Pi 𝟘 UnitTy IntTy) (put_of (TextLit (codes "ok"))))) }
{
    let function = erased_unit_to_int(alloc)?;
    let ty = Term::pi(alloc, Mult::Many, function, io_unit(alloc)?)?;
    let line = put(alloc, text(alloc, "ok")?)?;
    let body = Term::lam(alloc, Mult::Many, erased_unit_to_int(alloc)?, line)?;
    Ok(definition(1, ty, body))
}

/// `main = use loopy`
fn use_of_loopy(alloc: Global) -> Result<Item, Fail>
    ensures { IfOk result (λ x. listed_item x.number (term x.ty) (term x.body) ≡
        listed_item 2 io_unit_of (App ω (Def (item_of 1)) (Def (item_of 0)))) }
{
    let main = Term::app(alloc, Mult::Many, def(1), def(0))?;
    Ok(definition(2, io_unit(alloc)?, main))
}

/// `loopy`, which calls itself, and `main`, which hands it on and does not call it.
pub fn loops(alloc: Global) -> Result<Globals, Fail>
    ensures { IfOk result (λ g. env g ≡ loops_env) }
{
    let loopy = loopy(alloc)?;
    let using = use_of_function(alloc)?;
    let main = use_of_loopy(alloc)?;
    plain(alloc, vec![in alloc; main, using, loopy]?)
}

/// `loop : IO Unit; loop = do putLine "x"; loop`
fn looping(alloc: Global) -> Result<Item, Fail>
    ensures { IfOk result (λ x. listed_item x.number (term x.ty) (term x.body) ≡
        listed_item 0 io_unit_of (then_do_of (put_of (TextLit (codes "x"))) (Def (item_of 0)))) }
{
    let turn = then_do(alloc, put(alloc, text(alloc, "x")?)?, def(0))?;
    Ok(definition(0, io_unit(alloc)?, turn))
}

/// `main = loop`
fn main_is_loop(alloc: Global) -> Result<Item, Fail>
    ensures { IfOk result (λ x. listed_item x.number (term x.ty) (term x.body) ≡
        listed_item 1 io_unit_of (Def (item_of 0))) }
{
    Ok(definition(1, io_unit(alloc)?, def(0)))
}

/// `loop`, which writes a line and goes on, and `main`, which is `loop`.
pub fn forever(alloc: Global) -> Result<Globals, Fail>
    ensures { IfOk result (λ g. env g ≡ forever_env) }
{
    let turn = looping(alloc)?;
    let main = main_is_loop(alloc)?;
    plain(alloc, vec![in alloc; main, turn]?)
}

/// `divInt 1 0`
fn one_by_zero(alloc: Global) -> Made
    ensures { IfOk result (λ t. term t ≡ one_by_zero_of) }
{
    call(alloc, Primitive::DivInt, int(1), int(0))
}

/// `no False`
fn no_of_false(alloc: Global) -> Made
    ensures { IfOk result (λ t. term t ≡ no_of_false_of) }
{
    Term::app(alloc, Mult::Many, def(0), truth(alloc, false))
}

fn bool_type(alloc: Global) -> Term
    ensures { term result ≡ BoolTy }
{
    family(alloc, prim_item(4))
}

/// `no True = 1`
fn no_body(alloc: Global) -> Made
    ensures { IfOk result (λ t. term t ≡ Lam ω BoolTy
        (choice_of (Trap IntTy) (IntLit (pos 1)) (var 0))) }
{
    let trapping = trap(alloc, Term::IntTy)?;
    let body = choice(alloc, trapping, int(1), Term::Var(0))?;
    Term::lam(alloc, Mult::Many, bool_type(alloc), body)
}

/// `partial no : Bool -> Int`
fn no_clause(alloc: Global) -> Result<Item, Fail>
    ensures { IfOk result (λ x. listed_item x.number (term x.ty) (term x.body) ≡
        listed_item 0 (Pi ω BoolTy IntTy)
        (Lam ω BoolTy (choice_of (Trap IntTy) (IntLit (pos 1)) (var 0)))) }
{
    let ty = Term::pi(alloc, Mult::Many, bool_type(alloc), Term::IntTy)?;
    let body = no_body(alloc)?;
    Ok(definition(0, ty, body))
}

/// `main = putLine (showInt (addInt left right))`
fn shown_sum(alloc: Global, left: Term, right: Term) -> Result<Item, Fail>
    requires left { Closed (term left) }
    requires right { Closed (term right) }
    ensures { IfOk result (λ x. listed_item x.number (term x.ty) (term x.body) ≡
        listed_item 1 io_unit_of (put_of (shown_of (added (term left) (term right))))) }
{
    let sum = call(alloc, Primitive::AddInt, left, right)?;
    let main = put(alloc, shown(alloc, sum)?)?;
    Ok(definition(1, io_unit(alloc)?, main))
}

/// `no`, which has no clause for `False`, and the sum of two numbers.
fn partial_no(alloc: Global, left: Term, right: Term) -> Result<Globals, Fail>
    requires left { Closed (term left) }
    requires right { Closed (term right) }
    ensures { IfOk result (λ g. env g ≡ partial_no_env (term left) (term right)) }
{
    let no = no_clause(alloc)?;
    let main = shown_sum(alloc, left, right)?;
    plain(alloc, vec![in alloc; main, no]?)
}

/// The same with `divInt 1 0` and `no False`.
pub fn zero_first(alloc: Global) -> Result<Globals, Fail>
    ensures { IfOk result (λ g. env g ≡ partial_no_env one_by_zero_of no_of_false_of) }
{
    partial_no(alloc, one_by_zero(alloc)?, no_of_false(alloc)?)
}

/// The same with `no False` and `divInt 1 0`.
pub fn no_clause_first(alloc: Global) -> Result<Globals, Fail>
    ensures { IfOk result (λ g. env g ≡ partial_no_env no_of_false_of one_by_zero_of) }
{
    partial_no(alloc, no_of_false(alloc)?, one_by_zero(alloc)?)
}

/// `h2 <- write h "x"; h3 <- write h2 "y"; close h3`
fn two_writes(alloc: Global) -> Made
    ensures { IfOk result (λ t. term t ≡
        with_handle_of (written_of (var 0) (TextLit (codes "x")))
        (with_handle_of (written_of (var 0) (TextLit (codes "y"))) (closed_after_of (var 0)))) }
{
    let second = written(alloc, Term::Var(0), text(alloc, "y")?)?;
    let closing = with_handle(alloc, second, closed_after(alloc, Term::Var(0))?)?;
    let first = written(alloc, Term::Var(0), text(alloc, "x")?)?;
    with_handle(alloc, first, closing)
}

/// `main = do h <- open "a"; h2 <- write h "x"; h3 <- write h2 "y"; close h3`
pub fn handles(alloc: Global) -> Result<Globals, Fail>
    ensures { IfOk result (λ g. env g ≡ handles_env) }
{
    let main = with_handle(alloc, opened_a(alloc)?, two_writes(alloc)?)?;
    plain(alloc, vec![in alloc; definition(0, io_unit(alloc)?, main)]?)
}

/// `h2 <- write h (showInt (divInt 1 0)); close h2`
fn trapping_write(alloc: Global) -> Made
    ensures { IfOk result (λ t. term t ≡ with_handle_of
        (written_of (var 0) (shown_of one_by_zero_of)) (closed_after_of (var 0))) }
{
    let writing = written(alloc, Term::Var(0), shown(alloc, one_by_zero(alloc)?)?)?;
    with_handle(alloc, writing, closed_after(alloc, Term::Var(0))?)
}

/// `main = do h <- open "a"; h2 <- write h (showInt (divInt 1 0)); close h2`
pub fn trapping(alloc: Global) -> Result<Globals, Fail>
    ensures { IfOk result (λ g. env g ≡ trapping_env) }
{
    let main = with_handle(alloc, opened_a(alloc)?, trapping_write(alloc)?)?;
    plain(alloc, vec![in alloc; definition(0, io_unit(alloc)?, main)]?)
}

fn line_type(alloc: Global) -> Term
    ensures { term result ≡ LineTy }
{
    family(alloc, prim_item(5))
}

/// `pure MkUnit` at `Eof`, and `putLine s; main` at `Got s`
fn step_body(alloc: Global) -> Made
    ensures { IfOk result (λ t. term t ≡
        node (Form.case ω line_id 0 1 (0 ∷ 1 ∷ []))
        (io_unit_of ▸ pure_unit ▸ then_do_of (put_of (var 0)) (Def (item_of 1)) ▸ var 0 ▸ ε)) }
{
    let eof = branch(0, done(alloc)?);
    let got = branch(1, then_do(alloc, put(alloc, Term::Var(0))?, def(1))?);
    matched(alloc, prim_item(5), io_unit(alloc)?, eof, got, Term::Var(0))
}

/// `step : Line -> IO Unit`, which writes the line and goes on with `main`, or ends
fn step(alloc: Global) -> Result<Item, Fail>
    ensures { IfOk result (λ x. listed_item x.number (term x.ty) (term x.body) ≡
        listed_item 0 (Pi ω LineTy io_unit_of)
        (Lam ω LineTy (node (Form.case ω line_id 0 1 (0 ∷ 1 ∷ []))
        (io_unit_of ▸ pure_unit ▸ then_do_of (put_of (var 0)) (Def (item_of 1)) ▸ var 0 ▸ ε)))) }
{
    let ty = Term::pi(alloc, Mult::Many, line_type(alloc), io_unit(alloc)?)?;
    let body = Term::lam(alloc, Mult::Many, line_type(alloc), step_body(alloc)?)?;
    Ok(definition(0, ty, body))
}

/// `main = do l <- getLine; step l`
fn reading(alloc: Global) -> Result<Item, Fail>
    ensures { IfOk result (λ x. listed_item x.number (term x.ty) (term x.body) ≡
        listed_item 1 io_unit_of (bound Io.io Io.io LineTy UnitTy (Act Action.get_line 0 ε)
        (App ω (Def (item_of 0)) (var 0)) ω)) }
{
    let next = Term::app(alloc, Mult::Many, def(0), Term::Var(0))?;
    let main = line_then(alloc, get_line(alloc), next)?;
    Ok(definition(1, io_unit(alloc)?, main))
}

/// `main` reads a line, and `step` writes it, up to the end of the input.
pub fn echo(alloc: Global) -> Result<Globals, Fail>
    ensures { IfOk result (λ g. env g ≡ echo_env) }
{
    let step = step(alloc)?;
    let main = reading(alloc)?;
    plain(alloc, vec![in alloc; main, step]?)
}

/// `main = putLine (showInt number)`
fn shows(alloc: Global, number: Term) -> Result<Globals, Fail>
    requires { Closed (term number) }
    ensures { IfOk result (λ g. env g ≡ shows_env (term number)) }
{
    let main = put(alloc, shown(alloc, number)?)?;
    plain(alloc, vec![in alloc; definition(0, io_unit(alloc)?, main)]?)
}

/// `main = putLine (showInt (divInt -9223372036854775808 -1))`
pub fn least_by_minus_one(alloc: Global) -> Result<Globals, Fail>
    ensures { IfOk result (λ g. env g ≡ shows_env least_by_minus_one_of) }
{
    shows(
        alloc,
        call(alloc, Primitive::DivInt, int(i64::MIN), int(-1))?,
    )
}

/// `main = putLine (showInt (addInt 9223372036854775807 1))`
pub fn greatest_and_one(alloc: Global) -> Result<Globals, Fail>
    ensures { IfOk result (λ g. env g ≡ shows_env greatest_and_one_of) }
{
    shows(
        alloc,
        call(alloc, Primitive::AddInt, int(i64::MAX), int(1))?,
    )
}

/// `main = putLine (showInt (divInt 1 0))`
pub fn divides_by_zero(alloc: Global) -> Result<Globals, Fail>
    ensures { IfOk result (λ g. env g ≡ shows_env one_by_zero_of) }
{
    shows(alloc, one_by_zero(alloc)?)
}

/// The type of `f` below, `(0 a : Type) -> (0 x : a) -> (p : Eq a x x) -> Int`.
fn deleting_type(alloc: Global) -> Made
    ensures { IfOk result (λ t. term t ≡ deleting_type_of) }
{
    let same = equality(alloc, Term::Var(1), Term::Var(0), Term::Var(0))?;
    let inner = Term::pi(alloc, Mult::Many, same, Term::IntTy)?;
    let inner = Term::pi(alloc, Mult::Zero, Term::Var(0), inner)?;
    Term::pi(alloc, Mult::Zero, Term::Sort(0), inner)
}

/// `f a x Refl = 1`
fn deleting_body(alloc: Global) -> Made
    ensures { IfOk result (λ t. term t ≡ deleting_body_of) }
{
    let delete = Delete {
        mult: Mult::Many,
        ty: Term::Var(2),
        point: Term::Var(1),
        motive: Term::IntTy,
        branch: int(1),
        scrutinee: Term::Var(0),
    };
    let same = equality(alloc, Term::Var(1), Term::Var(0), Term::Var(0))?;
    let delete = Term::Delete(Box::new(alloc, delete)?);
    let inner = Term::lam(alloc, Mult::Many, same, delete)?;
    let inner = Term::lam(alloc, Mult::Zero, Term::Var(0), inner)?;
    Term::lam(alloc, Mult::Zero, Term::Sort(0), inner)
}

/// `f a x Refl = 1`
fn deleting(alloc: Global) -> Result<Item, Fail>
    ensures { IfOk result (λ x. listed_item x.number (term x.ty) (term x.body) ≡
        listed_item 0 deleting_type_of deleting_body_of) }
{
    Ok(definition(0, deleting_type(alloc)?, deleting_body(alloc)?))
}

/// `f Int 3 Refl`
fn deleted_three(alloc: Global) -> Made
    ensures { IfOk result (λ t. term t ≡ App ω
        (App 𝟘 (App 𝟘 (Def (item_of 0)) IntTy) (IntLit (pos 3))) (Refl IntTy (IntLit (pos 3)))) }
{
    let called = Term::app(alloc, Mult::Zero, def(0), Term::IntTy)?;
    let called = Term::app(alloc, Mult::Zero, called, int(3))?;
    let proof = reflexivity(alloc, Term::IntTy, int(3))?;
    Term::app(alloc, Mult::Many, called, proof)
}

/// `main = putLine (showInt (f Int 3 Refl))`
fn shown_deletion(alloc: Global) -> Result<Item, Fail>
    ensures { IfOk result (λ x. listed_item x.number (term x.ty) (term x.body) ≡
        listed_item 1 io_unit_of (put_of (shown_of
        (App ω (App 𝟘 (App 𝟘 (Def (item_of 0)) IntTy) (IntLit (pos 3)))
        (Refl IntTy (IntLit (pos 3))))))) }
{
    let main = put(alloc, shown(alloc, deleted_three(alloc)?)?)?;
    Ok(definition(1, io_unit(alloc)?, main))
}

/// `f`, which takes a proof of `Eq a x x`, at `Refl`.
pub fn deletes(alloc: Global) -> Result<Globals, Fail>
    ensures { IfOk result (λ g. env g ≡ deletes_env) }
{
    let f = deleting(alloc)?;
    let main = shown_deletion(alloc)?;
    plain(alloc, vec![in alloc; main, f]?)
}

/// `putLine "a"; putLine "b"`
fn two_puts(alloc: Global) -> Made
    ensures { IfOk result (λ t. term t ≡ then_do_of (put_of (TextLit (codes "a")))
        (put_of (TextLit (codes "b")))) }
{
    let first = put(alloc, text(alloc, "a")?)?;
    let second = put(alloc, text(alloc, "b")?)?;
    then_do(alloc, first, second)
}

/// `main = do putLine "a"; putLine "b"`
pub fn two_lines(alloc: Global) -> Result<Globals, Fail>
    ensures { IfOk result (λ g. env g ≡ two_lines_env) }
{
    let main = two_puts(alloc)?;
    plain(alloc, vec![in alloc; definition(0, io_unit(alloc)?, main)]?)
}

/// `count n` is 0 where `ltInt n 1`, and else `count (subInt n 1)`.
fn counted_down(alloc: Global) -> Made
    ensures { IfOk result (λ t. term t ≡ counted_down_of) }
{
    let less = call(alloc, Primitive::SubInt, Term::Var(0), int(1))?;
    let again = Term::app(alloc, Mult::Many, def(0), less)?;
    let ends = call(alloc, Primitive::LtInt, Term::Var(0), int(1))?;
    let body = choice(alloc, again, int(0), ends)?;
    Term::lam(alloc, Mult::Many, Term::IntTy, body)
}

/// `count : Int -> Int`
fn counting_down(alloc: Global) -> Result<Item, Fail>
    ensures { IfOk result (λ x. listed_item x.number (term x.ty) (term x.body) ≡
        listed_item 0 (Pi ω IntTy IntTy) counted_down_of) }
{
    let ty = Term::pi(alloc, Mult::Many, Term::IntTy, Term::IntTy)?;
    Ok(definition(0, ty, counted_down(alloc)?))
}

/// `main = putLine (showInt (count turns))`
fn shown_count(alloc: Global, turns: i64) -> Result<Item, Fail>
    ensures { IfOk result (λ x. listed_item x.number (term x.ty) (term x.body) ≡
        listed_item 1 io_unit_of (put_of (shown_of (App ω (Def (item_of 0)) (IntLit turns))))) }
{
    let counted = Term::app(alloc, Mult::Many, def(0), int(turns))?;
    let main = put(alloc, shown(alloc, counted)?)?;
    Ok(definition(1, io_unit(alloc)?, main))
}

/// `count` at a number of turns.
pub fn counting(alloc: Global, turns: i64) -> Result<Globals, Fail>
    ensures { IfOk result (λ g. env g ≡ counting_env turns) }
{
    let count = counting_down(alloc)?;
    let main = shown_count(alloc, turns)?;
    plain(alloc, vec![in alloc; main, count]?)
}

/// `let 1 f : Unit -> IO Unit = \u => close h; f MkUnit`
fn closing_function(alloc: Global) -> Made
    ensures { IfOk result (λ t. term t ≡
        App 𝟙 (Lam 𝟙 (Pi ω UnitTy io_unit_of) (App ω (var 0) MkUnit))
        (Lam ω UnitTy (closed_after_of (var 1)))) }
{
    let ty = Term::pi(alloc, Mult::Many, unit(alloc), io_unit(alloc)?)?;
    let called = Term::app(alloc, Mult::Many, Term::Var(0), make_unit(alloc))?;
    let rest = Term::lam(alloc, Mult::One, ty, called)?;
    let closing = closed_after(alloc, Term::Var(1))?;
    let function = Term::lam(alloc, Mult::Many, unit(alloc), closing)?;
    Term::app(alloc, Mult::One, rest, function)
}

/// `main = do h <- open "a"; let 1 f : Unit -> IO Unit = \u => close h; f MkUnit`
pub fn closing_later(alloc: Global) -> Result<Globals, Fail>
    ensures { IfOk result (λ g. env g ≡ closing_later_env) }
{
    let main = with_handle(alloc, opened_a(alloc)?, closing_function(alloc)?)?;
    plain(alloc, vec![in alloc; definition(0, io_unit(alloc)?, main)]?)
}

/// `f True b = 1; f a True = 2; f a b = 3`
fn overlapping_body(alloc: Global) -> Made
    ensures { IfOk result (λ t. term t ≡ overlapping_body_of) }
{
    let second = choice(alloc, int(3), int(2), Term::Var(0))?;
    let first = choice(alloc, second, int(1), Term::Var(1))?;
    let inner = Term::lam(alloc, Mult::Many, bool_type(alloc), first)?;
    Term::lam(alloc, Mult::Many, bool_type(alloc), inner)
}

/// `f : Bool -> Bool -> Int`
fn overlapping_function(alloc: Global) -> Result<Item, Fail>
    ensures { IfOk result (λ x. listed_item x.number (term x.ty) (term x.body) ≡
        listed_item 0 (Pi ω BoolTy (Pi ω BoolTy IntTy)) overlapping_body_of) }
{
    let ty = Term::pi(alloc, Mult::Many, bool_type(alloc), Term::IntTy)?;
    let ty = Term::pi(alloc, Mult::Many, bool_type(alloc), ty)?;
    Ok(definition(0, ty, overlapping_body(alloc)?))
}

/// `main = putLine (showInt (f True True))`
fn shown_overlap(alloc: Global) -> Result<Item, Fail>
    ensures { IfOk result (λ x. listed_item x.number (term x.ty) (term x.body) ≡
        listed_item 1 io_unit_of (put_of (shown_of
        (App ω (App ω (Def (item_of 0)) (truth_of true)) (truth_of true))))) }
{
    let called = Term::app(alloc, Mult::Many, def(0), truth(alloc, true))?;
    let called = Term::app(alloc, Mult::Many, called, truth(alloc, true))?;
    let main = put(alloc, shown(alloc, called)?)?;
    Ok(definition(1, io_unit(alloc)?, main))
}

/// `f`, whose clauses overlap, at `True` and `True`.
pub fn overlapping(alloc: Global) -> Result<Globals, Fail>
    ensures { IfOk result (λ g. env g ≡ overlapping_env) }
{
    let f = overlapping_function(alloc)?;
    let main = shown_overlap(alloc)?;
    plain(alloc, vec![in alloc; main, f]?)
}
