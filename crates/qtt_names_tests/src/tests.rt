//! Small modules: what their names stand for, and each kind of fault with its place. The table
//! of Prim, and what workers share.

use indexmap::IndexMap;
use qtt_base::{GlobalId, ModuleId, Name, Span};
use qtt_names::{Exports, NamesError, Scope, resolve};
use qtt_syntax::{
    Argument, Clause, ConDecl, Expr, FamilyDecl, Item, Mark, ModuleText, Named, Pattern,
    SignatureDecl, Target, print,
};
use qtt_usage::mult::Mult;
use std::alloc::Global;
use std::test::Fail;

fn takes_shared<T: Sync>(value: &T) -> &T {
    value
}

fn takes_moved<T: Send>(value: T) -> T {
    value
}

fn at(line: u32, col: u32) -> Span {
    Span { line, col, len: 1 }
}

fn id(module: u32, item: u32) -> GlobalId {
    GlobalId {
        module: ModuleId(module),
        item,
    }
}

// ---- parts of a module

fn used(alloc: Global, path: &str, place: Span) -> Result<Expr, Fail> {
    Ok(Expr::Name(Named {
        path: Name::new(alloc, path)?,
        target: Target::Unknown,
        span: place,
    }))
}

/// `(NAME : Int) -> .. -> PATH`, all at one place
fn chain(alloc: Global, binders: &[&str], path: &str, place: Span) -> Result<Expr, Fail> {
    let mut ty = used(alloc, path, place)?;
    for name in binders.iter().rev() {
        ty = Expr::Pi {
            mark: Mark::Written,
            mult: Mult::Many,
            name: Name::new(alloc, name)?,
            domain: Box::new(alloc, used(alloc, "Int", place)?)?,
            codomain: Box::new(alloc, ty)?,
            span: place,
        };
    }
    Ok(ty)
}

/// `PATH ARGUMENT`
fn applied(alloc: Global, path: &str, place: Span, argument: Expr) -> Result<Expr, Fail> {
    Ok(Expr::Apply {
        function: Box::new(alloc, used(alloc, path, place)?)?,
        arguments: vec![in alloc; Argument::Written(argument)]?,
        span: place,
    })
}

fn number(value: i64, place: Span) -> Expr {
    Expr::Number { value, span: place }
}

fn variable(alloc: Global, name: &str, place: Span) -> Result<Pattern, Fail> {
    Ok(Pattern::Variable {
        mark: Mark::Written,
        name: Name::new(alloc, name)?,
        span: place,
    })
}

/// `NAME : TYPE` on this line
fn signature(alloc: Global, name: &str, line: u32, ty: Expr) -> Result<Item, Fail> {
    Ok(Item::Signature(SignatureDecl {
        partial: false,
        mult: Mult::Many,
        name: Name::new(alloc, name)?,
        name_span: at(line, 1),
        ty,
        span: at(line, 1),
    }))
}

/// `NAME : Int` on this line
fn int(alloc: Global, name: &str, line: u32) -> Result<Item, Fail> {
    signature(alloc, name, line, used(alloc, "Int", at(line, 5))?)
}

/// `NAME PATTERNS = SIDE` on this line
fn clause(
    alloc: Global,
    name: &str,
    line: u32,
    patterns: Vec<Pattern>,
    side: Expr,
) -> Result<Item, Fail> {
    Ok(Item::Clause(Clause {
        name: Name::new(alloc, name)?,
        patterns,
        side,
        span: at(line, 1),
    }))
}

/// `data D : TYPE where` and these constructors
fn family(alloc: Global, ty: Expr, constructors: Vec<ConDecl>) -> Result<Item, Fail> {
    Ok(Item::Family(FamilyDecl {
        name: Name::new(alloc, "D")?,
        name_span: at(2, 6),
        params: Vec::new(alloc),
        ty,
        constructors,
        span: at(2, 1),
    }))
}

fn module_text(alloc: Global, name: &str, items: Vec<Item>) -> Result<ModuleText, Fail> {
    Ok(ModuleText {
        header: at(1, 1),
        name: Name::new(alloc, name)?,
        name_span: at(1, 8),
        imports: Vec::new(alloc),
        items,
    })
}

// ---- names in a module

/// The module of this number with one item, `inc`
fn exports_of_inc(alloc: Global, module: u32, name: &str) -> Result<Exports, Fail> {
    let mut items = IndexMap::new(alloc);
    items.insert(Name::new(alloc, "inc")?, id(module, 0))?;
    Ok(Exports {
        module: ModuleId(module),
        name: Name::new(alloc, name)?,
        items,
        sigs: Vec::new(alloc),
    })
}

/// Looks up the names of the module Main with these items, which is number 1 and imports `A` and
/// `B`, numbers 2 and 3.
fn looked_up(alloc: Global, items: Vec<Item>) -> Result<Result<ModuleText, NamesError>, Fail> {
    let imports = vec![in alloc;
        exports_of_inc(alloc, 2, "A")?,
        exports_of_inc(alloc, 3, "B")?,
    ]?;
    let text = module_text(alloc, "Main", items)?;
    let scope = Scope::new(alloc, ModuleId(1), &text, &imports)?;
    Ok(resolve(alloc, &text, takes_shared(&scope)))
}

/// The kind and the place of the first fault
fn fault_of(alloc: Global, items: Vec<Item>) -> Result<(u8, Span), Fail> {
    match looked_up(alloc, items)? {
        Err(NamesError::Fault(fault)) => Ok((fault.kind, fault.span)),
        _ => Err(Fail::from("no fault")),
    }
}

fn target(e: &Expr) -> Option<Target> {
    match e {
        Expr::Name(named) => Some(named.target),
        _ => None,
    }
}

fn behind_binder(ty: &Expr) -> &Expr {
    match ty {
        Expr::Pi { codomain, .. } => codomain,
        _ => ty,
    }
}

/// What stands at the end of a signature's type, behind up to two binders
fn target_in_signature(item: &Item) -> Option<Target> {
    match item {
        Item::Signature(signature) => target(behind_binder(behind_binder(&signature.ty))),
        _ => None,
    }
}

/// `g : Int`, `inc : Int` and `f : TYPE`: the newest binder of a name is found first, then an
/// own item, then an import's
#[test]
fn names_of_types_are_found(rt: HostRuntime) -> Result<(), Fail> {
    let alloc = rt.alloc();
    let cases: [(&[&str], &str, Target); 9] = [
        (&["x"], "x", Target::Local(0)),
        (&["x", "x"], "x", Target::Local(0)),
        (&["x", "y"], "x", Target::Local(1)),
        (&["inc"], "inc", Target::Local(0)),
        (&["x"], "inc", Target::Global(id(1, 1))),
        (&[], "Main.g", Target::Global(id(1, 0))),
        (&[], "B.inc", Target::Global(id(3, 0))),
        (&[], "close", Target::Global(id(0, 31))),
        (&[], "Prim.Int", Target::Global(id(0, 0))),
    ];
    for (binders, path, wanted) in cases {
        let ty = chain(alloc, binders, path, at(4, 5))?;
        let last = signature(alloc, "f", 4, ty)?;
        let items = vec![in alloc; int(alloc, "g", 2)?, int(alloc, "inc", 3)?, last]?;
        let resolved = looked_up(alloc, items)??;
        let found = match resolved.items.last() {
            Some(item) => target_in_signature(item),
            None => None,
        };
        assert_eq!(rt; found, Some(wanted), "of {path}");
    }
    Ok(())
}

/// `f : (x : Int) -> (y : Int) -> Int` and `f .(y) y = A.inc`: a dot pattern sees a variable
/// behind it
#[test]
fn variables_are_found(rt: HostRuntime) -> Result<(), Fail> {
    let alloc = rt.alloc();
    let first = signature(alloc, "f", 2, chain(alloc, &["x", "y"], "Int", at(2, 5))?)?;
    let dot = Pattern::Dot {
        mark: Mark::Written,
        value: used(alloc, "y", at(3, 5))?,
        span: at(3, 3),
    };
    let patterns = vec![in alloc; dot, variable(alloc, "y", at(3, 8))?]?;
    let second = clause(alloc, "f", 3, patterns, used(alloc, "A.inc", at(3, 12))?)?;
    let resolved = looked_up(alloc, vec![in alloc; first, second]?)??;
    match resolved.items.last() {
        Some(Item::Clause(clause)) => {
            let inside = match clause.patterns.first() {
                Some(Pattern::Dot { value, .. }) => target(value),
                _ => None,
            };
            assert_eq!(rt; inside, Some(Target::Local(0)));
            assert_eq!(rt; target(&clause.side), Some(Target::Global(id(2, 0))));
            Ok(())
        }
        _ => Err(Fail::from("no clause")),
    }
}

// ---- faults

/// `x : Int` and `x = y`
fn unbound_name(alloc: Global) -> Result<Vec<Item>, Fail> {
    let side = used(alloc, "y", at(3, 5))?;
    let second = clause(alloc, "x", 3, Vec::new(alloc), side)?;
    Ok(vec![in alloc; int(alloc, "x", 2)?, second]?)
}

/// `main : IO Unit` and `main = putLine (showInt (inc 41))`, behind two imports
fn ambiguous_name(alloc: Global) -> Result<Vec<Item>, Fail> {
    let unit = used(alloc, "Unit", at(4, 11))?;
    let first = signature(alloc, "main", 4, applied(alloc, "IO", at(4, 8), unit)?)?;
    let sum = applied(alloc, "inc", at(5, 26), number(41, at(5, 30)))?;
    let shown = applied(alloc, "showInt", at(5, 17), sum)?;
    let side = applied(alloc, "putLine", at(5, 8), shown)?;
    let second = clause(alloc, "main", 5, Vec::new(alloc), side)?;
    Ok(vec![in alloc; first, second]?)
}

/// `f : Int -> Int` and `f x x = 1`
fn second_variable(alloc: Global) -> Result<Vec<Item>, Fail> {
    let first = signature(alloc, "f", 2, chain(alloc, &["_"], "Int", at(2, 5))?)?;
    let patterns = vec![in alloc;
        variable(alloc, "x", at(3, 3))?,
        variable(alloc, "x", at(3, 5))?,
    ]?;
    let second = clause(alloc, "f", 3, patterns, number(1, at(3, 9)))?;
    Ok(vec![in alloc; first, second]?)
}

/// `f : Int`, `f = 1`, `g : Int` and `f = 1`
fn second_group(alloc: Global) -> Result<Vec<Item>, Fail> {
    let clause_of_f = clause(alloc, "f", 3, Vec::new(alloc), number(1, at(3, 5)))?;
    let later = clause(alloc, "f", 5, Vec::new(alloc), number(1, at(5, 5)))?;
    let first = int(alloc, "f", 2)?;
    let second = int(alloc, "g", 4)?;
    Ok(vec![in alloc; first, clause_of_f, second, later]?)
}

/// `f : Int` and `f : Int`
fn second_signature(alloc: Global) -> Result<Vec<Item>, Fail> {
    Ok(vec![in alloc; int(alloc, "f", 2)?, int(alloc, "f", 3)?]?)
}

/// `f : f`
fn own_signature(alloc: Global) -> Result<Vec<Item>, Fail> {
    let ty = used(alloc, "f", at(2, 5))?;
    Ok(vec![in alloc; signature(alloc, "f", 2, ty)?]?)
}

/// `inc = 1`, where only imports have an `inc`
fn clause_of_import(alloc: Global) -> Result<Vec<Item>, Fail> {
    let item = clause(alloc, "inc", 2, Vec::new(alloc), number(1, at(2, 7)))?;
    Ok(vec![in alloc; item]?)
}

/// `data D : Type where` and `C : C`
fn constructor_in_its_family(alloc: Global) -> Result<Vec<Item>, Fail> {
    let constructor = ConDecl {
        name: Name::new(alloc, "C")?,
        ty: used(alloc, "C", at(3, 7))?,
        span: at(3, 3),
    };
    let ty = Expr::Type {
        level: 0,
        level_span: at(2, 10),
        span: at(2, 10),
    };
    Ok(vec![in alloc; family(alloc, ty, vec![in alloc; constructor]?)?]?)
}

/// `data D : (i : Int) -> i where`
fn name_of_index(alloc: Global) -> Result<Vec<Item>, Fail> {
    let ty = chain(alloc, &["i"], "i", at(2, 22))?;
    Ok(vec![in alloc; family(alloc, ty, Vec::new(alloc))?]?)
}

#[test]
fn faults_have_their_kinds_and_places(rt: HostRuntime) -> Result<(), Fail> {
    let alloc = rt.alloc();
    assert_eq!(rt; fault_of(alloc, unbound_name(alloc)?)?, (10, at(3, 5)));
    assert_eq!(rt; fault_of(alloc, own_signature(alloc)?)?, (10, at(2, 5)));
    assert_eq!(rt; fault_of(alloc, clause_of_import(alloc)?)?, (10, at(2, 1)));
    assert_eq!(rt;
        fault_of(alloc, constructor_in_its_family(alloc)?)?,
        (10, at(3, 7))
    );
    assert_eq!(rt; fault_of(alloc, name_of_index(alloc)?)?, (10, at(2, 22)));
    assert_eq!(rt; fault_of(alloc, ambiguous_name(alloc)?)?, (11, at(5, 26)));
    assert_eq!(rt; fault_of(alloc, second_variable(alloc)?)?, (12, at(3, 5)));
    assert_eq!(rt; fault_of(alloc, second_signature(alloc)?)?, (12, at(3, 1)));
    assert_eq!(rt; fault_of(alloc, second_group(alloc)?)?, (12, at(5, 1)));
    Ok(())
}

// ---- Prim

/// Names and types of Prim, each on a line as the printer writes it, in the order of the
/// numbers.
const TABLE: &str = "module Prim
Int : Type
String : Type
Handle : Type
Unit : Type
Bool : Type
Line : Type
IO : (0 _ : Type) -> Type
IO1 : (0 _ : Type) -> Type
MkUnit : Unit
False : Bool
True : Bool
Eof : Line
Got : String -> Line
Eq : (0 a : Type) -> (0 x : a) -> a -> Type
Refl : (0 a : Type) -> (0 x : a) -> Eq a x x
addInt : Int -> Int -> Int
subInt : Int -> Int -> Int
mulInt : Int -> Int -> Int
divInt : Int -> Int -> Int
modInt : Int -> Int -> Int
eqInt : Int -> Int -> Bool
ltInt : Int -> Int -> Bool
appendString : String -> String -> String
eqString : String -> String -> Bool
showInt : Int -> String
pure : (0 a : Type) -> a -> IO a
pure1 : (0 a : Type) -> (1 x : a) -> IO1 a
putLine : String -> IO Unit
getLine : IO Line
open : String -> IO1 Handle
write : (1 h : Handle) -> String -> IO1 Handle
close : (1 h : Handle) -> IO Unit
";

/// How many binders in front no text writes.
fn unwritten(name: &str) -> u32 {
    match name {
        "Refl" => 2,
        "pure" | "pure1" => 1,
        _ => 0,
    }
}

#[test]
fn prim_is_as_its_table(rt: HostRuntime) -> Result<(), Fail> {
    let alloc = rt.alloc();
    let made = takes_moved(Exports::prim(alloc)?);
    let prim = takes_shared(&made).copy(alloc)?;
    assert_eq!(rt;
        (prim.module, prim.items.len(), prim.sigs.len()),
        (ModuleId(0), 32, 32)
    );
    let mut items = Vec::new(alloc);
    for ((name, found), sig) in prim.items.iter().zip(prim.sigs.iter()) {
        assert_eq!(rt; found.module, ModuleId(0));
        assert_eq!(rt; found.item as usize, items.len());
        assert_eq!(rt; (sig.braces, sig.params), (0, unwritten(name.as_str())));
        let ty = sig.copy(alloc)?.ty;
        items.push(signature(alloc, name.as_str(), 1, ty)?)?;
    }
    let text = module_text(alloc, prim.name.as_str(), items)?;
    let printed = print(alloc, &text)?;
    assert_eq!(rt; printed.as_slice(), TABLE.as_bytes());
    Ok(())
}
