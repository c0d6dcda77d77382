//! Laws of printed texts.

ghost use Rattle.std.specs.Prelude.{◌≡◌, ℕ, List, None, Ok, map};
ghost use Rattle.qtt_lexer.specs.Forms as text;
ghost use Rattle.qtt_lexer.specs.Lexed.{lexed};
ghost use Rattle.qtt_lexer.specs.declared.token.Token.{Token};
ghost use Rattle.qtt_layout.specs.Laws.{tokens_in, kept};
ghost use Rattle.qtt_layout.specs.Rules.{laid};
ghost use Rattle.qtt_layout.specs.declared.laid.Laid.{Laid};
ghost use Rattle.qtt_syntax.specs.Printing.{module_words, printed};
ghost use Rattle.qtt_syntax.specs.Tree.{Module};
ghost use Rattle.qtt_grammar.specs.declared.class.Pass.{Pass};
ghost use Rattle.qtt_grammar.specs.declared.lexeme.Lexeme.{Lexeme};
ghost use Rattle.qtt_grammar.specs.Grammar.{IsText};
ghost use Rattle.qtt_grammar.specs.Lexeme.{lexemes};
ghost use Rattle.qtt_reprint.specs.Sketch.{unplaced, sketched};
ghost use Rattle.qtt_reprint.specs.Spelled.{HaveForms};
ghost use Rattle.qtt_reprint.specs.Unplaced.{bare_module};

/// The printed words of a text's tree, wherever they stand, are those of a text with the same
/// tree but for places. So a tree that is read within the limits prints within them.
pub fn printed_words_are_read_again()
    ensures { (pass : Pass) (ls ms : List Lexeme) (t : Module) →
        HaveForms ls → IsText pass ls t None → map unplaced ms ≡ sketched (module_words t) →
        (u : Module) × IsText pass ms u None × (bare_module u ≡ bare_module t) }
{}

/// In the tokens of a text, laid out, each name has the form of its spelling.
pub fn names_have_forms()
    ensures { (bytes : List ℕ) (ts : List Token) (ms : List Laid) →
        text.IsText bytes ts → tokens_in ms ≡ kept ts → HaveForms (lexemes ms) }
{}

/// The printed text of a text's tree is lexed, laid out and read as the same tree but for
/// places.
pub fn printed_texts_are_read_again()
    ensures { (pass : Pass) (bytes : List ℕ) (ts : List Token) (ms : List Laid) (t : Module) →
        lexed bytes ≡ Ok ts → tokens_in ms ≡ kept ts → IsText pass (lexemes ms) t None →
        (us : List Token) × (ns : List Laid) × (u : Module) × (lexed (printed t) ≡ Ok us)
        × (laid us ≡ Ok ns) × IsText pass (lexemes ns) u None × (bare_module u ≡ bare_module t) }
{}
