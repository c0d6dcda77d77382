//! The stages of reading, each with its first fault as what a refusal keeps of it.

ghost use Rattle.std.specs.Prelude.{◌<◌, ◌^◌, length};
ghost use Rattle.qtt_lexer.specs.Lexed.{lexed};
ghost use Rattle.qtt_layout.specs.Rules.{laid};
ghost use Rattle.qtt_syntax.specs.View.{module_of};
ghost use Rattle.qtt_grammar.specs.Parsed.{parsed};
ghost use Rattle.qtt_fault_laws.specs.Kept.{IsKept};
ghost use Rattle.qtt_load.specs.Reading.{staged};
ghost use Rattle.qtt_load.specs.Answer.{Gives, Says, items_seen, why};

use crate::errors::TextError;
use qtt_base::{Fault, MemoryError};
use qtt_diag::fault_detail;
use qtt_fault_laws::faults_are_kept;
use qtt_grammar::{GrammarError, parse};
use qtt_layout::{Laid, LayoutError, blocks};
use qtt_lexer::{LexError, Token, lex};
use qtt_syntax::ModuleText;
use std::alloc::Global;

/// Why a text of this fault is refused.
fn refused(alloc: Global, fault: Fault) -> TextError
    requires { IsKept fault.kind fault.word.items fault.count }
    ensures { Says result (why fault) }
{
    let span = fault.span;
    match fault_detail(alloc, fault) {
        Ok(Some(detail)) => TextError::Refused(span, detail),
        Ok(None) => unreachable!(),
        Err(MemoryError) => TextError::Memory,
    }
}

/// The tokens of a text.
pub fn tokens(alloc: Global, text: &[u8]) -> Result<Vec<Token>, TextError>
    requires { length text.now < 2 ^ 29 }
    ensures { Gives items_seen result (staged (lexed text.now)) }
{
    match lex(alloc, text) {
        Ok(tokens) => Ok(tokens),
        Err(LexError::Fault(fault)) => {
            faults_are_kept();
            Err(refused(alloc, fault))
        }
        Err(LexError::Memory) => Err(TextError::Memory),
    }
}

/// The tokens with the marks of their blocks.
pub fn marks(alloc: Global, tokens: &[Token]) -> Result<Vec<Laid>, TextError>
    ensures { Gives items_seen result (staged (laid tokens.now)) }
{
    match blocks(alloc, tokens) {
        Ok(marks) => Ok(marks),
        Err(LayoutError::Fault(fault)) => {
            faults_are_kept();
            Err(refused(alloc, fault))
        }
        Err(LayoutError::Memory) => Err(TextError::Memory),
    }
}

/// The tree of tokens with marks.
pub fn tree(alloc: Global, marks: &[Laid]) -> Result<ModuleText, TextError>
    ensures { Gives module_of result (staged (parsed marks.now)) }
{
    match parse(alloc, marks) {
        Ok(tree) => Ok(tree),
        Err(GrammarError::Fault(fault)) => {
            faults_are_kept();
            Err(refused(alloc, fault))
        }
        Err(GrammarError::Memory) => Err(TextError::Memory),
    }
}
