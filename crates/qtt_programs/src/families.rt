//! The worked programs with a family of their own, which is the first item of Main.

ghost use Rattle.std.specs.Prelude.{◌≡◌, ◌∷◌, [], IfOk, codes, pos};
ghost use Rattle.qtt_usage.specs.Mult.{𝟘, 𝟙, ω};
ghost use Rattle.qtt_term.specs.Globals.{env};
ghost use Rattle.qtt_term.specs.Programs.{program, io_unit as io_unit_of, put as put_of, item as item_of, box as box_of, boxed as boxed_env};
ghost use Rattle.qtt_term.specs.Signature.{plain_constructor, plain_family as plain_of, IntTy, StringTy};
ghost use Rattle.qtt_term.specs.Term.{Pi, Lam, App, Def, IntLit, TextLit};
ghost use Rattle.qtt_term.specs.View.{term};
ghost use Rattle.qtt_programs.specs.Closed.{listed_item};
ghost use Rattle.qtt_programs.specs.Programs.{filled_box, tree as tree_of, tree_family, leaf as leaf_of, doubled as doubled_of, twice as twice_of, four_times as four_times_of, left_depth as left_depth_of, four as four_of, depth_of_doubled as depth_of_doubled_of, doubling as doubling_env, same as same_of, same_family, cast_type as cast_type_of, cast_body as cast_body_of, cast as cast_of, false_proof as false_proof_env};

use crate::building::{Item, constructor, define_all, definition, plain_family, with_family};
use crate::terms::{
    Made, branch, call, def, family, int, io_unit, item, matched, put, shown, text,
};
use qtt_prims::Primitive;
use qtt_term::{Case, ConId, Family, Globals, Term};
use qtt_usage::mult::Mult;
use std::alloc::Global;
use std::test::Fail;

/// `data Box : Type where MkBox : (0 n : Int) -> (1 s : Int) -> Box`
fn boxes(alloc: Global) -> Result<Globals, Fail>
    ensures { IfOk result (λ g. env g ≡ program
        ((0, plain_of (plain_constructor ((𝟘, IntTy) ∷ (𝟙, IntTy) ∷ []) ∷ [])) ∷ []) []) }
{
    let fields = vec![in alloc; (Mult::Zero, Term::IntTy), (Mult::One, Term::IntTy)]?;
    let make = constructor(alloc, 1, "Main.MkBox", fields, Vec::new(alloc))?;
    with_family(
        alloc,
        plain_family(alloc, "Main.Box", vec![in alloc; make]?)?,
    )
}

fn a_box(alloc: Global) -> Term
    ensures { term result ≡ box_of }
{
    family(alloc, item(0))
}

/// `MkBox (divInt 1 0) 4`
fn filled(alloc: Global) -> Made
    ensures { IfOk result (λ t. term t ≡ filled_box) }
{
    let con = ConId {
        family: item(0),
        place: 0,
    };
    let erased = call(alloc, Primitive::DivInt, int(1), int(0))?;
    Ok(Term::Con(con, Vec::new(alloc), vec![in alloc; erased, int(4)]?))
}

/// `use x = putLine "boxed"`
fn use_of_box(alloc: Global) -> Made
    ensures { IfOk result (λ t. term t ≡ Lam ω box_of (put_of (TextLit (codes "boxed")))) }
{
    let line = put(alloc, text(alloc, "boxed")?)?;
    Term::lam(alloc, Mult::Many, a_box(alloc), line)
}

/// `b : Box; b = MkBox (divInt 1 0) 4`
fn filled_item(alloc: Global) -> Result<Item, Fail>
    ensures { IfOk result (λ x. listed_item x.number (term x.ty) (term x.body) ≡
        listed_item 2 box_of filled_box) }
{
    Ok(definition(2, a_box(alloc), filled(alloc)?))
}

/// `use : Box -> IO Unit; use x = putLine "boxed"`
fn using(alloc: Global) -> Result<Item, Fail>
    ensures { IfOk result (λ x. listed_item x.number (term x.ty) (term x.body) ≡
        listed_item 3 (Pi ω box_of io_unit_of) (Lam ω box_of (put_of (TextLit (codes "boxed"))))) }
{
    let ty = Term::pi(alloc, Mult::Many, a_box(alloc), io_unit(alloc)?)?;
    Ok(definition(3, ty, use_of_box(alloc)?))
}

/// `main = use b`
fn use_of_filled(alloc: Global) -> Result<Item, Fail>
    ensures { IfOk result (λ x. listed_item x.number (term x.ty) (term x.body) ≡
        listed_item 4 io_unit_of (App ω (Def (item_of 3)) (Def (item_of 2)))) }
{
    let main = Term::app(alloc, Mult::Many, def(3), def(2))?;
    Ok(definition(4, io_unit(alloc)?, main))
}

/// `b`, whose erased field is never evaluated, and `main`, which uses it.
pub fn boxed(alloc: Global) -> Result<Globals, Fail>
    ensures { IfOk result (λ g. env g ≡ boxed_env) }
{
    let b = filled_item(alloc)?;
    let using = using(alloc)?;
    let main = use_of_filled(alloc)?;
    define_all(alloc, boxes(alloc)?, vec![in alloc; main, using, b]?)
}

fn tree(alloc: Global) -> Term
    ensures { term result ≡ tree_of }
{
    family(alloc, item(0))
}

/// `data Tree : Type where Leaf : Tree; Node : Tree -> Tree -> Tree`
fn trees(alloc: Global) -> Result<Globals, Fail>
    ensures { IfOk result (λ g. env g ≡ program ((0, tree_family) ∷ []) []) }
{
    let leaf = constructor(alloc, 1, "Main.Leaf", Vec::new(alloc), Vec::new(alloc))?;
    let sides = vec![in alloc; (Mult::Many, tree(alloc)), (Mult::Many, tree(alloc))]?;
    let fork = constructor(alloc, 2, "Main.Node", sides, Vec::new(alloc))?;
    with_family(
        alloc,
        plain_family(alloc, "Main.Tree", vec![in alloc; leaf, fork]?)?,
    )
}

fn leaf(alloc: Global) -> Term
    ensures { term result ≡ leaf_of }
{
    let con = ConId {
        family: item(0),
        place: 0,
    };
    Term::Con(con, Vec::new(alloc), Vec::new(alloc))
}

/// `dbl t = Node t t`
fn doubled(alloc: Global) -> Made
    ensures { IfOk result (λ t. term t ≡ doubled_of) }
{
    let con = ConId {
        family: item(0),
        place: 1,
    };
    let fork = Term::Con(
        con,
        Vec::new(alloc),
        vec![in alloc; Term::Var(0), Term::Var(0)]?,
    );
    Term::lam(alloc, Mult::Many, tree(alloc), fork)
}

fn tree_function(alloc: Global) -> Made
    ensures { IfOk result (λ t. term t ≡ Pi ω tree_of tree_of) }
{
    Term::pi(alloc, Mult::Many, tree(alloc), tree(alloc))
}

/// `f (f tree)`
fn twice(alloc: Global, tree: Term) -> Made
    ensures { IfOk result (λ t. term t ≡ twice_of (term tree)) }
{
    let once = Term::app(alloc, Mult::Many, Term::Var(1), tree)?;
    Term::app(alloc, Mult::Many, Term::Var(1), once)
}

/// `four f t = f (f (f (f t)))`
fn four_times(alloc: Global) -> Made
    ensures { IfOk result (λ t. term t ≡ four_times_of) }
{
    let body = twice(alloc, twice(alloc, Term::Var(0))?)?;
    let inner = Term::lam(alloc, Mult::Many, tree(alloc), body)?;
    Term::lam(alloc, Mult::Many, tree_function(alloc)?, inner)
}

/// `left Leaf = 0; left (Node a b) = addInt 1 (left a)`
fn left_depth(alloc: Global) -> Made
    ensures { IfOk result (λ t. term t ≡ left_depth_of) }
{
    let deeper = Term::app(alloc, Mult::Many, def(5), Term::Var(1))?;
    let deeper = call(alloc, Primitive::AddInt, int(1), deeper)?;
    let leaf = branch(0, int(0));
    let body = matched(
        alloc,
        item(0),
        Term::IntTy,
        leaf,
        branch(2, deeper),
        Term::Var(0),
    )?;
    Term::lam(alloc, Mult::Many, tree(alloc), body)
}

/// `four function`
fn four(alloc: Global, function: Term) -> Made
    ensures { IfOk result (λ t. term t ≡ four_of (term function)) }
{
    Term::app(alloc, Mult::Many, def(4), function)
}

/// `main = putLine (showInt (left (four (four (four dbl)) Leaf)))`
fn depth_of_doubled(alloc: Global) -> Made
    ensures { IfOk result (λ t. term t ≡ depth_of_doubled_of) }
{
    let doubling = four(alloc, four(alloc, four(alloc, def(3))?)?)?;
    let made = Term::app(alloc, Mult::Many, doubling, leaf(alloc))?;
    put(
        alloc,
        shown(alloc, Term::app(alloc, Mult::Many, def(5), made)?)?,
    )
}

/// `dbl : Tree -> Tree`
fn doubling_item(alloc: Global) -> Result<Item, Fail>
    ensures { IfOk result (λ x. listed_item x.number (term x.ty) (term x.body) ≡
        listed_item 3 (Pi ω tree_of tree_of) doubled_of) }
{
    Ok(definition(3, tree_function(alloc)?, doubled(alloc)?))
}

/// `four : (Tree -> Tree) -> Tree -> Tree`
fn four_item(alloc: Global) -> Result<Item, Fail>
    ensures { IfOk result (λ x. listed_item x.number (term x.ty) (term x.body) ≡
        listed_item 4 (Pi ω (Pi ω tree_of tree_of) (Pi ω tree_of tree_of)) four_times_of) }
{
    let ty = tree_function(alloc)?;
    let ty = Term::pi(alloc, Mult::Many, tree_function(alloc)?, ty)?;
    Ok(definition(4, ty, four_times(alloc)?))
}

/// `left : Tree -> Int`
fn left_item(alloc: Global) -> Result<Item, Fail>
    ensures { IfOk result (λ x. listed_item x.number (term x.ty) (term x.body) ≡
        listed_item 5 (Pi ω tree_of IntTy) left_depth_of) }
{
    let ty = Term::pi(alloc, Mult::Many, tree(alloc), Term::IntTy)?;
    Ok(definition(5, ty, left_depth(alloc)?))
}

/// `main : IO Unit`
fn depth_item(alloc: Global) -> Result<Item, Fail>
    ensures { IfOk result (λ x. listed_item x.number (term x.ty) (term x.body) ≡
        listed_item 6 io_unit_of depth_of_doubled_of) }
{
    Ok(definition(6, io_unit(alloc)?, depth_of_doubled(alloc)?))
}

/// `dbl`, `four` and `left`, and `main`, which shows how deep a tree is on its left.
pub fn doubling(alloc: Global) -> Result<Globals, Fail>
    ensures { IfOk result (λ g. env g ≡ doubling_env) }
{
    let dbl = doubling_item(alloc)?;
    let four = four_item(alloc)?;
    let left = left_item(alloc)?;
    let main = depth_item(alloc)?;
    define_all(alloc, trees(alloc)?, vec![in alloc; main, left, four, dbl]?)
}

/// `Same left right`
fn same(alloc: Global, left: Term, right: Term) -> Made
    ensures { IfOk result (λ t. term t ≡ same_of (term left) (term right)) }
{
    Ok(Term::Fam(item(0), vec![in alloc; left, right]?))
}

/// `data Same (x : Type) : Type -> Type where MkSame : Same x x`
fn sames(alloc: Global) -> Result<Globals, Fail>
    ensures { IfOk result (λ g. env g ≡ program ((0, same_family) ∷ []) []) }
{
    let targets = vec![in alloc; Term::Var(0)]?;
    let make = constructor(alloc, 1, "Main.MkSame", Vec::new(alloc), targets)?;
    let plain = plain_family(alloc, "Main.Same", vec![in alloc; make]?)?;
    let family = Family {
        params: vec![in alloc; Term::Sort(0)]?,
        indices: vec![in alloc; Term::Sort(0)]?,
        ..plain
    };
    with_family(alloc, family)
}

/// `cast : (0 a : Type) -> (0 b : Type) -> (p : Same a b) -> a -> b`
fn cast_type(alloc: Global) -> Made
    ensures { IfOk result (λ t. term t ≡ cast_type_of) }
{
    let inner = Term::pi(alloc, Mult::Many, Term::Var(2), Term::Var(2))?;
    let proof = same(alloc, Term::Var(1), Term::Var(0))?;
    let inner = Term::pi(alloc, Mult::Many, proof, inner)?;
    let inner = Term::pi(alloc, Mult::Zero, Term::Sort(0), inner)?;
    Term::pi(alloc, Mult::Zero, Term::Sort(0), inner)
}

/// `cast a _ MkSame x = x`
fn cast_body(alloc: Global) -> Made
    ensures { IfOk result (λ t. term t ≡ cast_body_of) }
{
    let case = Case {
        mult: Mult::Many,
        family: item(0),
        params: vec![in alloc; Term::Var(3)]?,
        indices: 1,
        motive: Term::Var(1),
        branches: vec![in alloc; branch(0, Term::Var(0))]?,
        scrutinee: Term::Var(1),
    };
    let body = Term::Case(Box::new(alloc, case)?);
    let inner = Term::lam(alloc, Mult::Many, Term::Var(2), body)?;
    let proof = same(alloc, Term::Var(1), Term::Var(0))?;
    let inner = Term::lam(alloc, Mult::Many, proof, inner)?;
    let inner = Term::lam(alloc, Mult::Zero, Term::Sort(0), inner)?;
    Term::lam(alloc, Mult::Zero, Term::Sort(0), inner)
}

/// `cast Int String bad 3`
fn cast_three(alloc: Global) -> Made
    ensures { IfOk result (λ t. term t ≡ cast_of IntTy StringTy (Def (item_of 2))
        (IntLit (pos 3))) }
{
    let cast = Term::app(alloc, Mult::Zero, def(3), Term::IntTy)?;
    let cast = Term::app(alloc, Mult::Zero, cast, Term::StringTy)?;
    let cast = Term::app(alloc, Mult::Many, cast, def(2))?;
    Term::app(alloc, Mult::Many, cast, int(3))
}

/// `bad : Same Int String; bad = bad`
fn bad(alloc: Global) -> Result<Item, Fail>
    ensures { IfOk result (λ x. listed_item x.number (term x.ty) (term x.body) ≡
        listed_item 2 (same_of IntTy StringTy) (Def (item_of 2))) }
{
    let ty = same(alloc, Term::IntTy, Term::StringTy)?;
    Ok(definition(2, ty, def(2)))
}

/// `cast a _ MkSame x = x`
fn cast_item(alloc: Global) -> Result<Item, Fail>
    ensures { IfOk result (λ x. listed_item x.number (term x.ty) (term x.body) ≡
        listed_item 3 cast_type_of cast_body_of) }
{
    Ok(definition(3, cast_type(alloc)?, cast_body(alloc)?))
}

/// `main = putLine (cast Int String bad 3)`
fn shown_cast(alloc: Global) -> Result<Item, Fail>
    ensures { IfOk result (λ x. listed_item x.number (term x.ty) (term x.body) ≡
        listed_item 4 io_unit_of
        (put_of (cast_of IntTy StringTy (Def (item_of 2)) (IntLit (pos 3))))) }
{
    let main = put(alloc, cast_three(alloc)?)?;
    Ok(definition(4, io_unit(alloc)?, main))
}

/// `bad`, a proof of what is false that never ends, and `main`, which rests on it.
pub fn false_proof(alloc: Global) -> Result<Globals, Fail>
    ensures { IfOk result (λ g. env g ≡ false_proof_env) }
{
    let bad = bad(alloc)?;
    let cast = cast_item(alloc)?;
    let main = shown_cast(alloc)?;
    define_all(alloc, sames(alloc)?, vec![in alloc; main, cast, bad]?)
}
