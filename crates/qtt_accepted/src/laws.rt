//! Laws of what elaboration accepts. Each function does nothing: its contract is the law.

ghost use Rattle.qtt_accepted.specs.Laws.{BuildsAreFormed, GroupsMakeNoTape, ModulesKeepForm, ElaborationMakesNoTape, ElaborationStaysInScope, WellFormedIsTapeless, GoodFieldsHoldNoCase, SignaturesKeepForm, FamiliesKeepForm, BodiesKeepForm};
ghost use Rattle.qtt_accepted.specs.Clauses.{ByClausesStay, ClausesAreFollowed, PrimIsApart, TextsGoByClauses};
ghost use Rattle.qtt_accepted.specs.Refusals.{PremisesAreFalseSo};
ghost use Rattle.qtt_accepted.specs.Texts.{TextsAreWellNamed, TextsDeclareOnce, TextsKeepForm, TextsKeepFormBeside};

/// No Tape stands in what elaboration gives.
pub fn elaboration_makes_no_tape()
    ensures { ElaborationMakesNoTape }
{}

/// What elaboration gives mentions no variable past its scope.
pub fn elaboration_stays_in_scope()
    ensures { ElaborationStaysInScope }
{}

/// No Tape stands in a well-formed environment.
pub fn well_formed_environments_hold_no_tape()
    ensures { WellFormedIsTapeless }
{}

/// Strict positivity leaves no Case of the family that is being declared.
pub fn good_fields_hold_no_case()
    ensures { GoodFieldsHoldNoCase }
{}

/// An accepted signature keeps the environment well formed.
pub fn signatures_keep_form()
    ensures { SignaturesKeepForm }
{}

/// An accepted family keeps the environment well formed.
pub fn families_keep_form()
    ensures { FamiliesKeepForm }
{}

/// An accepted body without a Tape keeps the environment well formed.
pub fn bodies_keep_form()
    ensures { BodiesKeepForm }
{}

/// No Tape stands in the body that an accepted group of clauses gives.
pub fn groups_make_no_tape()
    ensures { GroupsMakeNoTape }
{}

/// An accepted module keeps the environment well formed: each of its families, signatures and
/// bodies is typed by the core judgement. Without a hole it keeps the environment complete.
pub fn modules_keep_form()
    ensures { ModulesKeepForm }
{}

/// What an accepted build declares is well formed and, without a hole, complete.
pub fn builds_are_formed()
    ensures { BuildsAreFormed }
{}

/// What reading a text gives its declarations: no two signatures and no two groups of clauses are
/// of one name, and marks stay.
pub fn texts_are_well_named()
    ensures { TextsAreWellNamed }
{}

/// An accepted text keeps the environment well formed, once its part is adopted, and without a
/// hole complete.
pub fn texts_keep_form()
    ensures { TextsKeepForm }
{}

/// So it does beside others that were judged over the same environment.
pub fn texts_keep_form_beside()
    ensures { TextsKeepFormBeside }
{}

/// A text declares one thing alone, and one that is refused for another cause than a budget
/// declares nothing.
pub fn texts_declare_once()
    ensures { TextsDeclareOnce }
{}

/// A definition that has the body of accepted clauses goes on as these say, in each well-formed
/// environment that is larger than the one in which they were accepted.
pub fn clauses_are_followed()
    ensures { ClausesAreFollowed }
{}

/// It does so still where more stands.
pub fn by_clauses_stay()
    ensures { ByClausesStay }
{}

/// No two families of Prim have a constructor of one id, and each has those of its module.
pub fn prim_is_apart()
    ensures { PrimIsApart }
{}

/// Each body that comes with an accepted text is that of its clauses, once the text's part is
/// adopted beside others.
pub fn texts_go_by_clauses()
    ensures { TextsGoByClauses }
{}

/// A premise for which a text is refused is false in the relation: what is asked for a head is
/// convertible to none of the form that the rule wants, and terms that are told apart are not
/// convertible.
pub fn premises_are_false_so()
    ensures { PremisesAreFalseSo }
{}
