//! Laws of the definitions. Each function does nothing: its contract is the law.

ghost use Rattle.qtt_term.specs.Growth.{EnvironmentsGrow, GlobalsKeepTheirFacts};
ghost use Rattle.qtt_term.specs.Entries.{EntriesAreTheEnvironment};
ghost use Rattle.qtt_term.specs.Shape.{ShapeLaws, CasesLaws};
ghost use Rattle.qtt_term.specs.Literals.{StepsKeepRange};
ghost use Rattle.qtt_term.specs.Laws.{SubstitutionLaws, ValuesAreKept, FullStepsContract, StepsKeepClosed, TapesAreOfEvents};

/// Simultaneous substitutions compose, keep what they do not mention, and commute with renaming.
pub fn substitution_laws()
    ensures { SubstitutionLaws }
{}

/// The terms that full evaluation keeps are exactly the values.
pub fn values_are_kept()
    ensures { ValuesAreKept }
{}

/// Each full step is a contraction.
pub fn full_steps_contract()
    ensures { FullStepsContract }
{}

/// No contraction brings a free variable into a term.
pub fn steps_keep_closed()
    ensures { StepsKeepClosed }
{}

/// The tapes at the end of a run are those of its events, also where it trapped and closed its
/// open tapes.
pub fn tapes_are_of_events()
    ensures { TapesAreOfEvents }
{}

/// An environment that grows has its new items at their ids, and the others as before.
pub fn environments_grow()
    ensures { EnvironmentsGrow }
{}

/// The environment that a list of entries makes up is the one that the code's environment of
/// these entries stands for.
pub fn entries_are_the_environment()
    ensures { EntriesAreTheEnvironment }
{}

/// No contraction brings in a literal that is out of the range of 64 bits.
pub fn steps_keep_range()
    ensures { StepsKeepRange }
{}

/// In every environment no variable is free in a body, each constructor's result has one term
/// for each index of its family, and items stand in the order of their ids.
pub fn globals_keep_their_facts()
    ensures { GlobalsKeepTheirFacts }
{}

/// What is in shape stays so under renaming, substitution and contraction, and where its
/// environment grows; and Prim is in shape.
pub fn shape_is_kept()
    ensures { ShapeLaws }
{}

/// In a Case in shape the branch of a constructor stands under as many binders as the
/// constructor has fields. So a Case whose scrutinee is a constructor of its family contracts,
/// and asks for that constructor's number of fields.
pub fn cases_have_their_fields()
    ensures { CasesLaws }
{}
