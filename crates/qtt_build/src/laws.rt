//! Laws of builds. No function computes anything: the contract of each is its law.

ghost use Rattle.qtt_build.specs.Laws.{BuildLaws, BuildsAreJudged, BuildsDeclareOnce, BuildsFollowClauses, BuildsKeepForm, BuildRefusalsAreSo, RootsAreBuilt};

use qtt_accepted::laws::{
    by_clauses_stay, clauses_are_followed, premises_are_false_so, prim_is_apart,
    texts_declare_once, texts_go_by_clauses, texts_keep_form_beside,
};
use qtt_graph::laws::ranks_are_above;
use qtt_load::laws::loaded_are_builds;

/// What is built is declared by the rules, and a build stops for a rule that fails, for the first
/// question that takes more than the budget, or while loading.
pub fn builds_are_judged()
    ensures { BuildsAreJudged }
{}

/// The named module is among those that are built.
pub fn roots_are_built()
    ensures { RootsAreBuilt }
{
    loaded_are_builds();
    ranks_are_above();
}

/// What the build of a text declares is well formed and, where no module has a hole, complete.
pub fn builds_keep_form()
    ensures { BuildsKeepForm }
{
    texts_keep_form_beside();
}

/// The modules of a build declare one thing alone and, where it stops for another cause than a
/// budget, nothing.
pub fn builds_declare_once()
    ensures { BuildsDeclareOnce }
{
    texts_declare_once();
    texts_keep_form_beside();
}

/// Each body of a build is that of clauses of one of its modules, and its definition goes on as
/// these say: a typed application of it to values reaches the right side of the first clause that
/// fits, or a Trap where none does.
pub fn builds_follow_clauses()
    ensures { BuildsFollowClauses }
{
    texts_keep_form_beside();
    texts_go_by_clauses();
    by_clauses_stay();
    clauses_are_followed();
    prim_is_apart();
}

/// Where a build is refused for a premise, this is false in the relation, with convertible terms in
/// place of contractions and comparisons.
pub fn build_refusals_are_so()
    ensures { BuildRefusalsAreSo }
{
    texts_keep_form_beside();
    premises_are_false_so();
}

/// All of these together.
pub fn build_laws()
    ensures { BuildLaws }
{
    builds_are_judged();
    roots_are_built();
    builds_keep_form();
    builds_declare_once();
    builds_follow_clauses();
    build_refusals_are_so();
}
