//! The tree of a text.

ghost use Rattle.std.specs.Prelude.{◌≡◌, List, None, Ok, Err, IfOk, IfErr};
ghost use Rattle.std.specs.List.{list_all};
ghost use Rattle.qtt_lexer.specs.Lexed.{seen};
ghost use Rattle.qtt_phrase.specs.Phrase.{FirstBad};
ghost use Rattle.qtt_phrase.specs.Reading.{Kind, Read};
ghost use Rattle.qtt_phrase.specs.Reading.Read.{over};
ghost use Rattle.qtt_syntax.specs.Tree.{Module};
ghost use Rattle.qtt_syntax.specs.View.{module_of};
ghost use Rattle.qtt_grammar.specs.Grammar.{of, IsText};
ghost use Rattle.qtt_grammar.specs.Classes.{is_close};
ghost use Rattle.qtt_grammar.specs.Lexeme.{lexemes};
ghost use Rattle.qtt_grammar.specs.Outcome.{is_before, Exceeds, Never, HasOutcome};
ghost use Rattle.qtt_grammar.specs.Outcome.Outcome.{passed};
ghost use Rattle.qtt_grammar.specs.Joined.{joined, read_whole};
ghost use Rattle.qtt_grammar.specs.Parsed.{place_of_first, word_of_first, found_word, bad_token, above, whole, parsed, Gives, HasKind, IsWithin, KeepsFault};
ghost use Rattle.qtt_grammar.specs.View.{Answers, Fails, kind_of};

use crate::chain_text::text_chain;
use crate::class::{Class, Pass};
use crate::errors::GrammarError;
use crate::lexeme::Lexeme;
use crate::lexemes::lexemes;
use crate::stop::{Excess, Reason, Stop};
use crate::text::text;
use crate::token::{Reading, Rest};
use qtt_base::{Fault, MemoryError, Span};
use qtt_layout::Laid;
use qtt_syntax::ModuleText;
use std::alloc::Global;

// Where the first one stands; with none left, the start of the text.
fn place_of_first(rest: Rest<'_>) -> Span
    ensures { result ≡ place_of_first rest.now }
{
    match rest {
        [first, ..] => first.place,
        [] => Span {
            line: 1,
            col: 1,
            len: 0,
        },
    }
}

fn word_of_first(rest: Rest<'_>) -> &[u8]
    ensures { result.now ≡ word_of_first rest.now }
{
    match rest {
        [first, ..] => first.found.as_slice(),
        [] => &[],
    }
}

// They are the last Close marks of a text.
fn is_end(rest: Rest<'_>) -> bool
    ensures { result ≡ list_all (of is_close) rest.now }
{
    rest.iter().all(|one| Class::Close.same(one.class))
}

fn found_word(rest: Rest<'_>) -> &[u8]
    ensures { result.now ≡ found_word rest.now }
{
    if is_end(rest) {
        b"end"
    } else {
        word_of_first(rest)
    }
}

fn bad_token(alloc: Global, reason: Reason, rest: Rest<'_>) -> Result<Fault, MemoryError>
    ensures { IfOk result (λ fault. seen fault ≡ bad_token (kind_of reason) rest.now) }
{
    let span = place_of_first(rest);
    let (kind, word) = match reason {
        Reason::Unexpected => (8, Vec::from_slice(alloc, found_word(rest))?),
        Reason::TooDeep => (9, Vec::new(alloc)),
    };
    Ok(Fault {
        kind,
        span,
        word,
        count: 0,
    })
}

fn above(alloc: Global, excess: Excess) -> Result<Fault, MemoryError>
    ensures { IfOk result (λ fault. seen fault ≡ above excess) }
{
    Ok(Fault {
        kind: 31,
        span: excess.place,
        word: excess.quantity.words().as_bytes().to_vec(alloc)?,
        count: excess.count,
    })
}

// What is told of a text where reading stopped.
fn refused(alloc: Global, stop: Stop<'_>) -> Result<Fault, MemoryError>
    ensures { IfOk result (λ fault. (read : Read Lexeme Excess Module) → Fails stop.entry read →
        whole read ≡ Err (seen fault)) }
{
    match stop {
        Stop::Memory => Err(MemoryError),
        Stop::Bad(reason, rest) => bad_token(alloc, reason, rest),
        Stop::Over(excess, _) => above(alloc, excess),
    }
}

// One place is before another one in the text.
fn is_before(one: Span, other: Span) -> bool
    ensures { result ≡ is_before one other }
{
    one.line < other.line || (one.line == other.line && one.col < other.col)
}

// What is told of a text in which an index or field is one too many.
fn exceeded<'a>(read: Reading<'a, ModuleText>, excess: Excess, rest: Rest<'a>) -> Stop<'a>
    ensures { (first : Read Lexeme Excess Module) → Answers module_of read.entry first →
        Fails result (joined first (over excess rest.now)) }
{
    match read {
        Err(Stop::Memory) => Stop::Memory,
        Err(Stop::Over(first, behind)) if is_before(first.place, excess.place) => {
            Stop::Over(first, behind)
        }
        _ => Stop::Over(excess, rest),
    }
}

// A text, with every limit.
fn read_whole<'a>(alloc: Global, lexemes: Rest<'a>) -> Reading<'a, ModuleText>
    ensures { Answers module_of result (read_whole lexemes.now) }
{
    let read = text(alloc, Pass::Counts, lexemes);
    match text_chain(alloc, lexemes) {
        Err(Stop::Memory) => Err(Stop::Memory),
        Err(Stop::Over(excess, rest)) => Err(exceeded(read, excess, rest)),
        _ => read,
    }
}

fn parse_lexemes(alloc: Global, lexemes: &[Lexeme]) -> Result<ModuleText, GrammarError>
    ensures { Gives result (whole (read_whole lexemes.now)) }
{
    match read_whole(alloc, lexemes) {
        Ok((text, [])) => Ok(text),
        Ok((_, rest)) => Err(GrammarError::Fault(bad_token(alloc, Reason::Unexpected, rest)?)),
        Err(stop) => Err(GrammarError::Fault(refused(alloc, stop)?)),
    }
}

/// The tree of a text, or its first fault: kind 8 at a token that no text has behind those
/// before it, with the found word; kind 9 at the token that opens level 201; kind 31 for the
/// limits on items, clauses, constructors, parameters, patterns, statements, the bytes of a text
/// and the number after `Type`, and at the first token of an index or field that is the 101st,
/// with the words of the quantity and its count.
pub fn parse(alloc: Global, laid: &[Laid]) -> Result<ModuleText, GrammarError>
    // Exactly the tree, or the first fault.
    ensures exact { Gives result (parsed laid.now) }
    // The answer is the tree of a text, no index or field of which is one too many.
    ensures text { IfOk result
        (λ text. IsText Pass.Counts (lexemes laid.now) (module_of text) None ×
        Never (Exceeds (lexemes laid.now))) }
    // Each text within the limit on indices and fields has its only tree as the answer.
    ensures texts { (t : Module) → IsText Pass.Counts (lexemes laid.now) t None →
        Never (Exceeds (lexemes laid.now)) → Gives result (Ok t) }
    // A fault is the first limit that is passed, or else the first bad token.
    ensures fault { IfErr result (KeepsFault (lexemes laid.now)) }
    // Each limit that is passed first is told.
    ensures limit { (e : Excess) → HasOutcome (lexemes laid.now) (passed e) →
        Gives result (Err (above e)) }
    // Where the tokens are no text and pass no limit, the first bad one is told.
    ensures bad { (kind : Kind) (rest : List Lexeme)
        (first : FirstBad (IsText Pass.Counts) (lexemes laid.now) rest) →
        HasKind kind first.front rest → IsWithin (lexemes laid.now) →
        ((t : Module) → IsText Pass.Counts (lexemes laid.now) t None → ⊥) →
        Gives result (Err (bad_token kind rest)) }
{
    let lexemes = lexemes(alloc, laid)?;
    parse_lexemes(alloc, lexemes.as_slice())
}
