//! Laws of conclusions. Each function does nothing: its contract is the law.

ghost use Rattle.qtt_term.specs.Term.{Term};
ghost use Rattle.qtt_term.specs.Signature.{Env};
ghost use Rattle.qtt_term.specs.Contraction.{BodiesClosed};
ghost use Rattle.qtt_conclusions.specs.Conclusions.{HeadOf};
ghost use Rattle.qtt_conclusions.specs.Laws.{NormalFormsAreSo, HeadsAreSo, EndingsConclude, NoOtherForm, RefusalsAreSo, OneConclusion, FormsAreAlike, JudgementIsOne, DefinitionsTell};

/// A weak head normal form is where the contractions toward the head end, and what is read is
/// where the contractions toward the reading end.
pub fn normal_forms_are_so()
    ensures { (E : Env) → NormalFormsAreSo E }
{}

/// The head that contraction comes to is a head, the reading it comes to a reading, and where a
/// term has a head at all contraction comes to one of its form.
pub fn heads_are_so()
    ensures { (E : Env) → BodiesClosed E → HeadsAreSo E }
{}

/// What a list of questions ends with it concludes with.
pub fn endings_conclude<F, P, A>()
    ensures { EndingsConclude F P A }
{}

/// Where the head of a term is no function type, no universe, not of this family or no such action,
/// no term of that form is convertible to it.
pub fn no_other_form()
    ensures { (E : Env) (t h : Term) → HeadOf E t h → NoOtherForm E t h }
{}

/// A list that looks for a form fails only where no term of the form is convertible, and a list
/// that compares answers as the terms are convertible or not.
pub fn refusals_are_so<F, P, A>()
    ensures { (E : Env) → RefusalsAreSo F P A E }
{}

/// Lists that ask the same of convertible terms conclude alike.
pub fn one_conclusion<F, P, A, B>()
    ensures { OneConclusion F P A B }
{}

/// Questions for a form, and comparisons, tell convertible terms not apart.
pub fn forms_are_alike<F, P>()
    ensures { (E : Env) → FormsAreAlike F P E }
{}

/// The core judgement tells convertible terms not apart, and concludes in one way: with one false
/// premise, or with convertible types and the same uses.
pub fn judgement_is_one()
    ensures { (E : Env) → BodiesClosed E → JudgementIsOne E }
{}

/// The laws speak of something: some terms are weak head normal forms, some of these are read, and
/// `f x` where `f : Int` is refused, as no function type is convertible to `Int`.
pub fn definitions_tell()
    ensures { DefinitionsTell }
{}
