//! Laws of the judgement of modules. Each function does nothing: its contract is the law.

ghost use Rattle.qtt_module.specs.Laws.{
  AnswersAreSo,
  ConstructorsAskForNoReading,
  DeclarationsAreDerived,
  GroupsAreDerived,
  MainsAreDerived,
  ModulesAreDerived,
};
ghost use Rattle.qtt_module.specs.TextCalls.{MainsAreJudged, TextsAreJudged};

/// Without a bound, the premises of families and signatures end with an answer exactly where their
/// rules derive it.
pub fn declarations_are_derived()
    ensures { DeclarationsAreDerived }
{}

/// Without a bound, the premises of a group of clauses end with a body, or with holes, exactly
/// where its rules derive them.
pub fn groups_are_derived()
    ensures { GroupsAreDerived }
{}

/// Without a bound, the items of a module in turn end with a stage exactly where the rules derive
/// it, so a module is accepted exactly where it declares what is kept of it.
pub fn modules_are_derived()
    ensures { ModulesAreDerived }
{}

/// Without a bound, the test of a main ends with a definition exactly where it is the program's
/// main.
pub fn mains_are_derived()
    ensures { MainsAreDerived }
{}

/// Constructors ask for no reading, so it makes no difference to them that their family stands
/// already.
pub fn constructors_ask_for_no_reading()
    ensures { ConstructorsAskForNoReading }
{}

/// What is accepted or refused within a budget is so without one, and what is spent is the first
/// question that the budget does not answer.
pub fn answers_are_so()
    ensures { AnswersAreSo }
{}

/// A text that is accepted declares what is kept of it, by the rules and without a budget. One
/// that is refused is so for its header, a name or what is filled in, for a premise that is false
/// without a budget, or for the first question that takes more than the budget.
pub fn texts_are_judged()
    ensures { TextsAreJudged }
{}

/// A definition that is given is the program's main. What is refused is not one, or its type is not
/// compared within the budget.
pub fn mains_are_judged()
    ensures { MainsAreJudged }
{}
