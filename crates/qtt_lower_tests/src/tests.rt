//! Small programs as wholes.

mod fixtures;
mod vectors;

use fixtures::{case, define, functions, listed, trap};
use qtt_base::{GlobalId, ModuleId};
use qtt_lower::{Bases, Size, lower_all, lower_one, size_of};
use qtt_prims::{ActKind, Lit, Primitive, Text};
use qtt_programs::terms::{branch, item};
use qtt_term::{Delete, Globals, Term};
use qtt_usage::mult::Mult;
use std::alloc::Global;
use std::test::Fail;

/// The family of lines, whose second constructor has a field.
const LINE: GlobalId = GlobalId {
    module: ModuleId(0),
    item: 5,
};

fn int(number: i64) -> Term {
    Term::Lit(Lit::Int(number))
}

fn shown(alloc: Global, number: Term) -> Result<Term, Fail> {
    Ok(Term::Prim(Primitive::ShowInt, vec![in alloc; number]?))
}

fn put(alloc: Global, text: Term) -> Result<Term, Fail> {
    Ok(Term::Act(ActKind::PutLine, Vec::new(alloc), vec![in alloc; text]?))
}

/// `id : (1 x : Int) -> Int; id x = x; main : IO Unit; main = putLine (showInt (id 3))`.
fn identity(alloc: Global) -> Result<Globals, Fail> {
    let mut globals = Globals::prim(alloc)?;
    let id = functions(alloc, &[Mult::One], Term::Var(0))?;
    define(alloc, &mut globals, 0, "Main.id", Mult::Many, id)?;
    let called = Term::app(alloc, Mult::One, Term::Def(item(0)), int(3))?;
    let main = put(alloc, shown(alloc, called)?)?;
    define(alloc, &mut globals, 1, "Main.main", Mult::Many, main)?;
    Ok(globals)
}

const IDENTITY: &str = "block 0 Main.id captured 0 takes 0
  closure 1 0
  return
block 1 Main.id captured 0 takes 1
  local 0
  return
block 2 Main.main captured 0 takes 0
  enter 0
  int 3
  call
  prim showInt
  action putLine 1
  return
";

#[test]
fn the_identity_is_lowered(rt: HostRuntime) -> Result<(), Fail> {
    let alloc = rt.alloc();
    let globals = identity(alloc)?;
    assert_eq!(rt;
        listed(&rt, alloc, &globals, 1)?.as_slice(),
        IDENTITY.as_bytes()
    );
    assert_eq!(rt;
        listed(&rt, alloc, &globals, 8)?.as_slice(),
        IDENTITY.as_bytes()
    );
    assert_eq!(rt;
        listed(&rt, alloc, &globals, 64)?.as_slice(),
        IDENTITY.as_bytes()
    );
    Ok(())
}

#[test]
fn definitions_are_lowered_one_by_one(rt: HostRuntime) -> Result<(), Fail> {
    let alloc = rt.alloc();
    let globals = identity(alloc)?;
    let compiled = lower_all(&rt, alloc, &globals, 2)?;
    assert_eq!(rt; compiled.entry(item(1)), Some(2));
    assert_eq!(rt; compiled.entry(item(2)), None);
    let size = Size {
        blocks: 2,
        instrs: 4,
    };
    assert_eq!(rt; size_of(alloc, &globals, item(0))?, size);
    let bases = Bases {
        firsts: vec![in alloc; (item(0), 5)]?,
    };
    assert_eq!(rt; lower_one(alloc, &globals, item(0), &bases)?.len(), 2);
    Ok(())
}

const NO: &str = "block 0 Main.no captured 0 takes 0
  closure 1 0
  return
block 1 Main.no captured 0 takes 1
  local 0
  switch 2 3
  trap
  int 1
  return
";

/// `partial no : Bool -> Int; no True = 1`, and a definition at 0.
#[test]
fn a_trap_ends_the_code(rt: HostRuntime) -> Result<(), Fail> {
    let alloc = rt.alloc();
    let bool_id = GlobalId {
        module: ModuleId(0),
        item: 4,
    };
    let mut globals = Globals::prim(alloc)?;
    let branches = vec![in alloc; branch(0, trap(alloc)?), branch(0, int(1))]?;
    let chosen = case(alloc, Mult::Many, bool_id, Term::Var(0), branches)?;
    let no = functions(alloc, &[Mult::Many], chosen)?;
    define(alloc, &mut globals, 0, "Main.gone", Mult::Zero, int(2))?;
    define(alloc, &mut globals, 1, "Main.no", Mult::Many, no)?;
    assert_eq!(rt; listed(&rt, alloc, &globals, 1)?.as_slice(), NO.as_bytes());
    Ok(())
}

const SHOW: &str = "block 0 Main.show captured 0 takes 0
  closure 1 0
  return
block 1 Main.show captured 0 takes 1
  local 0
  switch 2 4
  trap
  jump 6
  trap
  leave 1
  prim showInt
  return
";

/// A Case outside tail position: each branch goes on behind it.
#[test]
fn a_trap_inside_is_left(rt: HostRuntime) -> Result<(), Fail> {
    let alloc = rt.alloc();
    let mut globals = Globals::prim(alloc)?;
    let branches = vec![in alloc; branch(0, trap(alloc)?), branch(1, trap(alloc)?)]?;
    let number = case(alloc, Mult::Many, LINE, Term::Var(0), branches)?;
    let show = functions(alloc, &[Mult::Many], shown(alloc, number)?)?;
    define(alloc, &mut globals, 0, "Main.show", Mult::Many, show)?;
    assert_eq!(rt;
        listed(&rt, alloc, &globals, 1)?.as_slice(),
        SHOW.as_bytes()
    );
    Ok(())
}

/// `bad : Same Int String; bad = bad; cast : (0 a : Type) -> (0 b : Type) -> (p : Same a b) -> a
/// -> b; cast a _ MkSame x = x;
/// main = putLine (cast Int String bad 3)`.
fn casts(alloc: Global) -> Result<Globals, Fail> {
    let mut globals = Globals::prim(alloc)?;
    define(
        alloc,
        &mut globals,
        2,
        "Main.bad",
        Mult::Many,
        Term::Def(item(2)),
    )?;
    let branches = vec![in alloc; branch(0, Term::Var(0))]?;
    let matched = case(alloc, Mult::Many, item(0), Term::Var(1), branches)?;
    let mults = [Mult::Zero, Mult::Zero, Mult::Many, Mult::Many];
    let cast = functions(alloc, &mults, matched)?;
    define(alloc, &mut globals, 3, "Main.cast", Mult::Many, cast)?;
    let of_int = Term::app(alloc, Mult::Zero, Term::Def(item(3)), Term::IntTy)?;
    let to_string = Term::app(alloc, Mult::Zero, of_int, Term::StringTy)?;
    let by_bad = Term::app(alloc, Mult::Many, to_string, Term::Def(item(2)))?;
    let main = put(alloc, Term::app(alloc, Mult::Many, by_bad, int(3))?)?;
    define(alloc, &mut globals, 4, "Main.main", Mult::Many, main)?;
    Ok(globals)
}

const CASTS: &str = "block 0 Main.bad captured 0 takes 0
  tail-enter 0
block 1 Main.cast captured 0 takes 0
  closure 2 0
  return
block 2 Main.cast captured 0 takes 0
  closure 3 0
  return
block 3 Main.cast captured 0 takes 0
  closure 4 0
  return
block 4 Main.cast captured 0 takes 1
  local 0
  closure 5 1
  return
block 5 Main.cast captured 1 takes 1
  captured 0
  switch 2
  local 0
  return
block 6 Main.main captured 0 takes 0
  enter 1
  force
  force
  enter 0
  call
  int 3
  call
  action putLine 1
  return
";

/// The match on the proof is kept, and the two arguments at 0 become closures without argument.
#[test]
fn a_match_on_a_proof_is_kept(rt: HostRuntime) -> Result<(), Fail> {
    let alloc = rt.alloc();
    let globals = casts(alloc)?;
    assert_eq!(rt;
        listed(&rt, alloc, &globals, 8)?.as_slice(),
        CASTS.as_bytes()
    );
    Ok(())
}

const DELETE: &str = "block 0 Main.f captured 0 takes 0
  closure 1 0
  return
block 1 Main.f captured 0 takes 1
  local 0
  switch 2
  int 1
  return
";

/// `f : (p : Eq Int 3 3) -> Int; f Refl = 1`.
#[test]
fn a_delete_is_a_case_with_one_branch(rt: HostRuntime) -> Result<(), Fail> {
    let alloc = rt.alloc();
    let mut globals = Globals::prim(alloc)?;
    let delete = Delete {
        mult: Mult::Many,
        ty: Term::IntTy,
        point: int(3),
        motive: Term::IntTy,
        branch: int(1),
        scrutinee: Term::Var(0),
    };
    let matched = Term::Delete(Box::new(alloc, delete)?);
    let f = functions(alloc, &[Mult::Many], matched)?;
    define(alloc, &mut globals, 0, "Main.f", Mult::Many, f)?;
    assert_eq!(rt;
        listed(&rt, alloc, &globals, 1)?.as_slice(),
        DELETE.as_bytes()
    );
    Ok(())
}

const SMALL: &str = "block 0 Main.t captured 0 takes 0
  type
  return
block 1 Main.s captured 0 takes 0
  text \"a\"
  return
block 2 Main.f captured 0 takes 0
  closure 3 0
  return
block 3 Main.f captured 0 takes 0
  tail-enter 1
block 4 Main.g captured 0 takes 0
  enter 2
  tail-force
";

/// `t : Type; t = Int; s : String; s = "a"; f : (0 a : Type) -> String; f a = s; g : String; g =
/// f Int`.
#[test]
fn calls_in_tail_position_are_tail_calls(rt: HostRuntime) -> Result<(), Fail> {
    let alloc = rt.alloc();
    let mut globals = Globals::prim(alloc)?;
    let text = Term::Lit(Lit::Text(Text::from_str(alloc, "a")?));
    let function = functions(alloc, &[Mult::Zero], Term::Def(item(1)))?;
    let forced = Term::app(alloc, Mult::Zero, Term::Def(item(2)), Term::IntTy)?;
    define(alloc, &mut globals, 0, "Main.t", Mult::Many, Term::IntTy)?;
    define(alloc, &mut globals, 1, "Main.s", Mult::Many, text)?;
    define(alloc, &mut globals, 2, "Main.f", Mult::Many, function)?;
    define(alloc, &mut globals, 3, "Main.g", Mult::Many, forced)?;
    assert_eq!(rt;
        listed(&rt, alloc, &globals, 1)?.as_slice(),
        SMALL.as_bytes()
    );
    Ok(())
}
