//! Laws of the grammar.

ghost use Rattle.std.specs.Prelude.{◌≡◌, List, None};
ghost use Rattle.qtt_phrase.specs.Phrase.{FirstBad, Settles};
ghost use Rattle.qtt_syntax.specs.Tree.{Module};
ghost use Rattle.qtt_grammar.specs.declared.class.Pass.{Pass};
ghost use Rattle.qtt_grammar.specs.declared.stop.Excess.{Excess};
ghost use Rattle.qtt_grammar.specs.declared.lexeme.Lexeme.{Lexeme};
ghost use Rattle.qtt_grammar.specs.Grammar.{IsText};
ghost use Rattle.qtt_grammar.specs.Answer.{HasAnswer};
ghost use Rattle.qtt_grammar.specs.Outcome.{Outcome, HasOutcome};

/// Tokens are those of a module text, or they settle that a limit is passed, or they have a
/// first bad token before which no limit is passed.
pub fn texts_have_one_answer()
    ensures { (pass : Pass) (ls : List Lexeme) → HasAnswer pass ls }
{}

/// No tokens have two trees.
pub fn trees_are_unique()
    ensures { (pass : Pass) (ls : List Lexeme) (t u : Module) →
        IsText pass ls t None → IsText pass ls u None → t ≡ u }
{}

/// The first limit that is passed, its count and its place are settled once.
pub fn excesses_are_settled_once()
    ensures { (pass : Pass) (ls : List Lexeme) (e f : Excess) →
        Settles (IsText pass) ls e → Settles (IsText pass) ls f → e ≡ f }
{}

/// There is one first bad token.
pub fn first_bad_tokens_are_unique()
    ensures { (pass : Pass) (ls rest more : List Lexeme) →
        FirstBad (IsText pass) ls rest → FirstBad (IsText pass) ls more → rest ≡ more }
{}

/// Tokens are those of a module text within every limit, or a limit is passed, also that on
/// indices and fields, or they have a first bad token before which none is passed; and there is
/// one such answer.
pub fn texts_have_one_outcome()
    ensures { (ls : List Lexeme) →
        (a : Outcome) × HasOutcome ls a × ((b : Outcome) → HasOutcome ls b → a ≡ b) }
{}
