//! Laws of lists of questions, whatever a false premise leaves, wherever a question is asked and
//! whatever is answered. Each function does nothing: its contract is the law.

ghost use Rattle.qtt_term.specs.Signature.{Env};
ghost use Rattle.qtt_confluence.specs.Lists.{EndingsAreSo, OneEnding, LargerBudgetsKeepEndings, SameDefinitions, QuestionsReadDefinitions, ListsReadDefinitions};

/// What a list answers within a budget is so without one: an answer, a premise that is false, or
/// the first question that is spent.
pub fn endings_are_so<F, P, A>()
    ensures { EndingsAreSo F P A }
{}

/// A list has one ending.
pub fn one_ending<F, P, A>()
    ensures { OneEnding F P A }
{}

/// A larger budget keeps every ending but a question that is spent.
pub fn larger_budgets_keep_endings<F, P, A>()
    ensures { LargerBudgetsKeepEndings F P A }
{}

/// Heads, comparisons and conversion read definitions alone.
pub fn questions_read_definitions()
    ensures { (E D : Env) → SameDefinitions E D → QuestionsReadDefinitions E D }
{}

/// A list without a reading reads definitions alone.
pub fn lists_read_definitions<F, P, A>()
    ensures { (E D : Env) → SameDefinitions E D → ListsReadDefinitions F P A E D }
{}
