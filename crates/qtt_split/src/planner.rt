//! What the making of a case tree is given, and its premises.

ghost use Rattle.std.specs.Prelude.{◌≡◌, ℕ, eqb, option_map, slice_get};
ghost use Rattle.qtt_rules.specs.Asks.{need, head_of};
ghost use Rattle.qtt_rules.specs.Refusal.{Cause};
ghost use Rattle.qtt_rules.specs.declared.errors.ElabError.TheVariants.{Refused};
ghost use Rattle.qtt_term.specs.Items.{constructor_entry as entry_of, constructor as constructor_seen};
ghost use Rattle.qtt_term.specs.Signature.{Env, family_at};
ghost use Rattle.qtt_term.specs.View.{term};
ghost use Rattle.qtt_term.specs.Globals.{env as env_of, families};
ghost use Rattle.qtt_match.specs.Constructors.{named_constructor as constructor_named};
ghost use Rattle.qtt_term.specs.declared.rule.Rule.TheVariants.{Clauses};
ghost use Rattle.qtt_split.specs.Answers.{Gives};
ghost use Rattle.qtt_split.specs.Calls.{Answers, test_of, told_as};
ghost use Rattle.qtt_split.specs.Constructors.{constructor_entry, fields_at as field_types};
ghost use Rattle.qtt_term.specs.Telescopes.{tele};
ghost use Rattle.qtt_split.specs.Tests.{at, number_of};
ghost use Rattle.qtt_term.specs.Entries.{entries};

use qtt_base::Span;
use qtt_rules::{Detail, ElabError};
use qtt_syntax::{Clause, Named, Target};
use qtt_term::{ConId, Constructor, Converter, Globals, Rule, Sigma, Term};
use qtt_unify::{Unifier, UnifyError};
use qtt_usage::mult::Mult;

/// The tests of a group of clauses that its tree makes, in their order.
#[derive(Clone, Copy, Debug, PartialEq, Eq)]
pub enum Test {
    OneWidth,
    Arities,
    Opens,
    OnVariable,
    OfFamily,
    Usable,
    Equations,
    Deletion,
    Endpoints,
    Parameters,
    Level,
    Leaves,
}

impl Test {
    pub fn number(self) -> u8
        ensures { result ≡ number_of (test_of self) }
    {
        match self {
            Test::OneWidth => 1,
            Test::Arities => 2,
            Test::Opens => 3,
            Test::OnVariable => 4,
            Test::OfFamily => 5,
            Test::Usable => 6,
            Test::Equations => 7,
            Test::Deletion => 8,
            Test::Endpoints => 9,
            Test::Parameters => 10,
            Test::Level => 11,
            Test::Leaves => 12,
        }
    }
}

/// The refusal of a test at a place.
pub fn refused(kept: Detail, span: Span, test: Test) -> ElabError
    ensures { result ≡ Refused kept span Clauses (number_of (test_of test)) }
{
    ElabError::Refused(kept, span, Rule::Clauses, test.number())
}

/// There are as many as are expected.
pub fn counted(expected: usize, found: usize, span: Span, test: Test) -> Result<(), ElabError>
    ensures { (E : Env) (n : ℕ) → Gives E n
        (need (eqb found expected) (Cause.wrong_arity expected found) (at span (test_of test)))
        (λ u. u) result }
{
    if found == expected {
        return Ok(());
    }
    let kept = Detail::WrongArity {
        expected: expected as u64,
        found: found as u64,
    };
    Err(refused(kept, span, test))
}

/// What a case tree is made of: the part in which the definition stands, its clauses, the first of
/// which stands at this place, and the greatest number of leaves.
#[derive(Drop)]
pub struct Planner<'a, C> {
    pub unifier: Unifier<'a, C>,
    pub sigma: Sigma,
    pub clauses: &'a [Clause],
    pub first: Span,
    pub limit: u32,
}

impl<'a, C: Converter> Planner<'a, C> {
    /// The refusal where a question of unification is spent.
    pub fn told(&self, error: UnifyError, span: Span, test: Test) -> ElabError
        ensures { result ≡ told_as self.now.unifier.budget span test error }
    {
        match error {
            UnifyError::Spent(question) => {
                let budget = self.unifier.budget;
                refused(Detail::BudgetSpent { budget, question }, span, test)
            }
            UnifyError::Memory => ElabError::Memory,
        }
    }

    /// The head of a term under so many variables.
    pub fn head(&self, depth: u32, t: &Term, span: Span, test: Test) -> Result<Term, ElabError>
        ensures { Answers self.now (head_of (at span (test_of test)) depth (term t.now)) term
            result }
    {
        match self.unifier.head(depth, t) {
            Ok(head) => Ok(head),
            Err(error) => Err(self.told(error, span, test)),
        }
    }
}

/// The constructor that a name stands for.
pub fn named_constructor(globals: &Globals, name: &Named) -> Option<ConId>
    ensures { result ≡ constructor_named (families globals.now) name.now.target }
{
    let Target::Global(id) = name.target else {
        return None;
    };
    match globals.constructor(id) {
        Some((family, place)) => Some(ConId {
            family: family.id,
            place,
        }),
        None => None,
    }
}

/// A constructor of a family.
pub fn constructor_of(globals: &Globals, con: ConId) -> Option<&Constructor>
    ensures entry { option_map (λ c. entry_of c.now) result ≡
        constructor_entry (entries globals.now) con }
    ensures constructor { option_map (λ c. constructor_seen c.now) result ≡
        slice_get (family_at (env_of globals.now) con.family).constructors con.place }
{
    let family = globals.family(con.family)?;
    family.constructors.get(con.place as usize)
}

/// The fields of a constructor.
pub fn fields_at(globals: &Globals, con: ConId) -> &[(Mult, Term)]
    ensures { tele result.now ≡ field_types (entries globals.now) con.family con.place }
{
    match constructor_of(globals, con) {
        Some(constructor) => &constructor.fields,
        None => &[],
    }
}
