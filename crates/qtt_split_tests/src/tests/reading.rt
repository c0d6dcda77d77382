//! Clauses as they are read.

use qtt_base::ModuleId;
use qtt_grammar::parse;
use qtt_layout::blocks;
use qtt_lexer::lex;
use qtt_names::{Scope, resolve};
use qtt_syntax::{Clause, Item, ModuleText};
use std::alloc::Global;
use std::test::Fail;

/// The tree of a text of Main, with what its names stand for.
fn read(alloc: Global, text: &str) -> Result<ModuleText, Fail> {
    if text.len() > 100_000 {
        return Err(Fail::from("the text is too long for a test"));
    }
    let Ok(tokens) = lex(alloc, text.as_bytes()) else {
        return Err(Fail::from("the text has no tokens"));
    };
    let Ok(laid) = blocks(alloc, &tokens) else {
        return Err(Fail::from("the tokens have no blocks"));
    };
    let Ok(tree) = parse(alloc, &laid) else {
        return Err(Fail::from("the blocks have no tree"));
    };
    let scope = Scope::new(alloc, ModuleId(1), &tree, &[])?;
    match resolve(alloc, &tree, &scope) {
        Ok(resolved) => Ok(resolved),
        Err(_) => Err(Fail::from("a name is not found")),
    }
}

/// The clauses of a definition of a text.
pub fn clauses(alloc: Global, text: &str, name: &str) -> Result<Vec<Clause>, Fail> {
    let tree = read(alloc, text)?;
    let mut clauses = Vec::new(alloc);
    for item in tree.items {
        if let Item::Clause(clause) = item {
            if clause.name.as_str() == name {
                clauses.push(clause)?;
            }
        }
    }
    Ok(clauses)
}
