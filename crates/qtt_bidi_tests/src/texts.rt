//! Texts whose definitions have no patterns, item by item through the calls that elaborate.

use qtt_base::{GlobalId, ModuleId, Name};
use qtt_bidi::{Elaborator, Scope, check};
use qtt_conv::BySubst;
use qtt_core_print::print_definition;
use qtt_diag::message;
use qtt_grammar::parse;
use qtt_layout::blocks;
use qtt_lexer::lex;
use qtt_names::resolve;
use qtt_programs::naturals::program;
use qtt_rules::{ElabError, Refusal};
use qtt_syntax::{Clause, Item, ModuleText, SignatureDecl};
use qtt_term::{Ctx, Globals, Rule, Sigma, Term};
use qtt_usage::mult::Mult;
use std::alloc::Global;
use std::test::Fail;

const MAIN: ModuleId = ModuleId(1);

/// What stands in an environment before a text is read.
#[derive(Clone, Copy)]
pub enum Before {
    Nothing,
    Naturals,
}

/// The family and the definition of `Before::Naturals`, lines 2 to 7.
const NATURALS: &str = "data Nat : Type where
  Z : Nat
  S : Nat -> Nat
plus : Nat -> Nat -> Nat
plus Z m = m
plus (S n) m = S (plus n m)
";

fn item(number: u32) -> GlobalId {
    GlobalId {
        module: MAIN,
        item: number,
    }
}

/// A number that stands so far behind another.
fn behind(number: u32, count: usize) -> Result<u32, Fail> {
    let Ok(count) = u32::try_from(count) else {
        return Err(Fail::from("too many items for a test"));
    };
    match number.checked_add(count) {
        Some(number) => Ok(number),
        None => Err(Fail::from("too many items for a test")),
    }
}

/// The tree of a text, with what its names stand for.
fn read(alloc: Global, text: &str) -> Result<ModuleText, Fail> {
    if text.len() > 100_000 {
        return Err(Fail::from("the text is too long for a test"));
    }
    let Ok(tokens) = lex(alloc, text.as_bytes()) else {
        return Err(Fail::from("the text has no tokens"));
    };
    let Ok(laid) = blocks(alloc, &tokens) else {
        return Err(Fail::from("the tokens have no blocks"));
    };
    let Ok(tree) = parse(alloc, &laid) else {
        return Err(Fail::from("the blocks have no tree"));
    };
    let scope = qtt_names::Scope::new(alloc, MAIN, &tree, &[])?;
    match resolve(alloc, &tree, &scope) {
        Ok(resolved) => Ok(resolved),
        Err(_) => Err(Fail::from("a name is not found")),
    }
}

/// An item's name behind that of the module.
fn qualified(alloc: Global, name: &str) -> Result<Name, Fail> {
    let text = format!(in alloc; "Main.{name}")?;
    match Name::new(alloc, text.as_str()) {
        Ok(name) => Ok(name),
        Err(_) => Err(Fail::from("a name is too long for a test")),
    }
}

fn add(globals: &mut Globals, id: GlobalId, name: Name, mult: Mult, ty: Term) -> Result<(), Fail> {
    if !globals.is_absent(id) {
        return Err(Fail::from("the id is taken"));
    }
    globals.add_signature(id, name, mult, ty)?;
    Ok(())
}

fn set(globals: &mut Globals, id: GlobalId, body: Term) -> Result<(), Fail> {
    if !globals.is_open(id) || !body.is_closed() {
        return Err(Fail::from("the body cannot be set"));
    }
    globals.set_body(id, body)?;
    Ok(())
}

/// Prim, with Nat and plus.
fn naturals(alloc: Global) -> Result<Globals, Fail> {
    let worked = program(alloc)?;
    let mut globals = Globals::prim(alloc)?;
    let (Some(family), Some(sum)) = (worked.family(item(0)), worked.definition(item(3))) else {
        return Err(Fail::from("the program has no naturals"));
    };
    let family = family.copy(alloc)?;
    if !globals.can_add(&family) {
        return Err(Fail::from("the family is taken"));
    }
    globals.add_family(alloc, family)?;
    let name = qualified(alloc, "plus")?;
    add(&mut globals, item(3), name, Mult::Many, sum.ty.copy(alloc)?)?;
    if let Some(body) = &sum.body {
        set(&mut globals, item(3), body.copy(alloc)?)?;
    }
    Ok(globals)
}

/// Adds a signature, whose type is judged as one, but where it stands there already.
fn signed(
    alloc: Global,
    budget: u64,
    globals: &mut Globals,
    id: GlobalId,
    signature: &SignatureDecl,
) -> Result<Option<ElabError>, Fail> {
    if globals.definition(id).is_some() {
        return Ok(None);
    }
    let outer = Ctx {
        vars: Vec::new(alloc),
        names: Vec::new(alloc),
    };
    let elaborator = Elaborator {
        alloc,
        converter: &BySubst,
        budget,
        globals: &*globals,
    };
    match elaborator.is_type(&Scope::Outer(&outer), &signature.ty, Rule::Families, 8) {
        Ok(found) => {
            let name = qualified(alloc, signature.name.as_str())?;
            add(globals, id, name, signature.mult, found.core)?;
            Ok(None)
        }
        Err(error) => Ok(Some(error)),
    }
}

/// Gives the definition of this name the core of a clause, but where it has a body.
fn defined(
    alloc: Global,
    budget: u64,
    globals: &mut Globals,
    clause: &Clause,
) -> Result<Option<ElabError>, Fail> {
    let name = qualified(alloc, clause.name.as_str())?;
    let of_name = |d: &&qtt_term::Definition| d.name.as_str() == name.as_str();
    let Some(definition) = globals.definitions().iter().find(of_name) else {
        return Err(Fail::from("the clause has no signature"));
    };
    if definition.body.is_some() {
        return Ok(None);
    }
    let outer = Ctx {
        vars: Vec::new(alloc),
        names: Vec::new(alloc),
    };
    let sigma = match definition.mult {
        Mult::Zero => Sigma::Erased,
        Mult::One | Mult::Many => Sigma::Run,
    };
    let id = definition.id;
    let side = &clause.side;
    match check(
        alloc,
        &BySubst,
        budget,
        globals,
        &outer,
        sigma,
        side,
        &definition.ty,
    ) {
        Ok(found) => {
            set(globals, id, found.core)?;
            Ok(None)
        }
        Err(error) => Ok(Some(error)),
    }
}

/// The line of a refusal, behind which stand its rule and premise.
fn told(alloc: Global, names: Globals, error: ElabError) -> Result<String, Fail> {
    let ElabError::Refused(detail, span, rule, premise) = error else {
        return Err(Fail::from("no memory"));
    };
    let refusal = Refusal {
        module: Name::new(alloc, "Main")?,
        span,
        rule,
        premise,
        detail,
        names,
    };
    let line = message(alloc, &refusal)?;
    let line = str::from_utf8(line.as_slice()).ok().unwrap_or("?");
    Ok(format!(in alloc; "{line} by {rule:?} {premise}")?)
}

/// The line of the last definition.
fn printed(alloc: Global, globals: &Globals) -> Result<String, Fail> {
    let Some(definition) = globals.definitions().last() else {
        return Err(Fail::from("there is no definition"));
    };
    let line = print_definition(alloc, globals, definition)?;
    let mut out = String::new(alloc);
    out.push_str(str::from_utf8(line.as_slice()).ok().unwrap_or("?"))?;
    Ok(out)
}

/// The line of the last definition of a text behind what stands before it, where each question has
/// so many contractions; or that of its refusal.
pub fn elaborated(alloc: Global, before: Before, budget: u64, text: &str) -> Result<String, Fail> {
    let (front, mut globals) = match before {
        Before::Nothing => ("", Globals::prim(alloc)?),
        Before::Naturals => (NATURALS, naturals(alloc)?),
    };
    let whole = format!(in alloc; "module Main\n{front}{text}\n")?;
    let tree = read(alloc, whole.as_str())?;
    let mut number = 0;
    for of_text in &tree.items {
        let ended = match of_text {
            Item::Family(family) => {
                number = behind(behind(number, 1)?, family.constructors.len())?;
                None
            }
            Item::Signature(signature) => {
                let id = item(number);
                number = behind(number, 1)?;
                signed(alloc, budget, &mut globals, id, signature)?
            }
            Item::Clause(clause) => defined(alloc, budget, &mut globals, clause)?,
        };
        if let Some(error) = ended {
            return told(alloc, globals, error);
        }
    }
    printed(alloc, &globals)
}
