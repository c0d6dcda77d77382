//! Questions about generated terms, answered alike both ways.

ghost use Rattle.std.specs.Prelude.{◌<◌};

use super::alike::{answer_both_ways, head_both_ways};
use super::terms::{case, con, delete, function, three_is_three};
use qtt_prims::{ActKind, Primitive};
use qtt_programs::families::doubling;
use qtt_programs::naturals::{main_family, program, successor, sum};
use qtt_programs::programs::{counting, loops};
use qtt_programs::terms::{
    branch, call, def, int, item, matched, prim_item, shown, text, trap, truth,
};
use qtt_term::{Answer, Globals, Head, IoKind, Term};
use qtt_usage::mult::Mult;
use std::alloc::Global;
use std::test::Fail;

/// How many forms are drawn from: the first 8 have no components, 4 have one, 8 have two, and the
/// others three.
const FORMS: u32 = 24;

/// Each two numbers of a draw are below this one.
const CHOICES: u32 = 13;

/// Numbers that follow no pattern, and are the same in each run: a linear congruence modulo 2^64,
/// with Knuth's multiplier.
#[derive(Drop)]
struct Numbers {
    state: u64,
}

/// What is drawn for one form: the form, and two numbers for what is fixed of it.
#[derive(Clone, Copy)]
struct Draw {
    form: u32,
    one: u32,
    other: u32,
}

impl Numbers {
    /// The next number, below this one.
    fn below(&mut self, bound: u32) -> u32
        requires { 0 < bound }
        ensures { result < bound }
    {
        self.state = self
            .state
            .wrapping_mul(6364136223846793005)
            .wrapping_add(1442695040888963407);
        (self.state >> 32) as u32 % bound
    }

    fn draw(&mut self) -> Draw {
        Draw {
            form: self.below(FORMS),
            one: self.below(CHOICES),
            other: self.below(CHOICES),
        }
    }
}

fn multiplicity(number: u32) -> Mult {
    match number % 3 {
        0 => Mult::Zero,
        1 => Mult::One,
        _ => Mult::Many,
    }
}

fn primitive(number: u32) -> Primitive {
    match number % 9 {
        0 => Primitive::AddInt,
        1 => Primitive::SubInt,
        2 => Primitive::MulInt,
        3 => Primitive::DivInt,
        4 => Primitive::ModInt,
        5 => Primitive::EqInt,
        6 => Primitive::LtInt,
        7 => Primitive::AppendString,
        _ => Primitive::EqString,
    }
}

/// A type without components.
fn simple_type(number: u32) -> Term {
    match number % 5 {
        0 => Term::IntTy,
        1 => Term::StringTy,
        2 => Term::HandleTy,
        3 => Term::Sort(0),
        _ => Term::Sort(1),
    }
}

/// A term without components.
fn simple(alloc: Global, draw: Draw) -> Result<Term, Fail> {
    match draw.form {
        0 | 1 => Ok(Term::Var(draw.one % 4)),
        2 => Ok(int(i64::from(draw.one % 3))),
        3 => Ok(def(draw.one)),
        4 => Ok(truth(alloc, draw.one % 2 == 0)),
        5 => Ok(con(alloc, item(0), 0, Vec::new(alloc))),
        6 => Ok(text(alloc, if draw.one % 2 == 0 { "a" } else { "b" })?),
        _ => Ok(simple_type(draw.one)),
    }
}

/// A form around one term.
fn around(alloc: Global, draw: Draw, inner: Term) -> Result<Term, Fail> {
    match draw.form {
        8 => Ok(successor(alloc, inner)?),
        9 => function(alloc, multiplicity(draw.one), inner),
        10 => Ok(shown(alloc, inner)?),
        _ if draw.one % 2 == 0 => Ok(trap(alloc, inner)?),
        _ => Ok(Term::IoTy(IoKind::Io1, Box::new(alloc, inner)?)),
    }
}

/// A function that is applied, of four times three times at its own multiplicity.
fn applied(alloc: Global, draw: Draw, body: Term, argument: Term) -> Result<Term, Fail> {
    let declared = multiplicity(draw.one);
    let mult = if draw.other % 4 == 0 {
        multiplicity(draw.other)
    } else {
        declared
    };
    Ok(Term::app(alloc, mult, function(alloc, declared, body)?, argument)?)
}

/// A form around two terms.
fn around_two(alloc: Global, draw: Draw, first: Term, second: Term) -> Result<Term, Fail> {
    match draw.form {
        12 | 13 => applied(alloc, draw, first, second),
        14 => Ok(Term::app(alloc, multiplicity(draw.one), first, second)?),
        15 => Ok(sum(alloc, first, second)?),
        16 | 17 => Ok(call(alloc, primitive(draw.one), first, second)?),
        18 => Ok(Term::pi(alloc, multiplicity(draw.one), first, second)?),
        _ => Ok(Term::Act(
            ActKind::BindIoIo,
            vec![in alloc; first]?,
            vec![in alloc; second]?,
        )),
    }
}

/// A form around three terms. A match on a number has the second under its field.
fn around_three(
    alloc: Global,
    draw: Draw,
    first: Term,
    second: Term,
    third: Term,
) -> Result<Term, Fail> {
    match draw.form {
        20 | 21 => {
            let zero = branch(0, first);
            let next = branch(1, second);
            Ok(matched(alloc, item(0), main_family(alloc, 0), zero, next, third)?)
        }
        22 => {
            let arguments = vec![in alloc; first, second]?;
            case(alloc, Term::Fam(prim_item(13), arguments), third)
        }
        _ if draw.one % 2 == 0 => delete(alloc, first, three_is_three(alloc)?),
        _ => delete(alloc, first, third),
    }
}

/// The term that was made last, or a variable where none is left.
fn taken(made: &mut Vec<Term>) -> Term {
    match made.pop() {
        Some(t) => t,
        None => Term::Var(0),
    }
}

/// The drawn form, around terms that were made before.
fn formed(alloc: Global, draw: Draw, made: &mut Vec<Term>) -> Result<Term, Fail> {
    if draw.form < 8 {
        return simple(alloc, draw);
    }
    let first = taken(made);
    if draw.form < 12 {
        return around(alloc, draw, first);
    }
    let second = taken(made);
    if draw.form < 20 {
        return around_two(alloc, draw, first, second);
    }
    let third = taken(made);
    around_three(alloc, draw, first, second, third)
}

/// The term of these numbers, of so many forms. At the form of the number `changed` something else
/// is fixed, so that two terms of the same numbers are nearly equal.
fn generated(alloc: Global, seed: u64, forms: u32, changed: u32) -> Result<Term, Fail> {
    let mut numbers = Numbers { state: seed };
    let mut made = Vec::new(alloc);
    for number in 0..forms {
        let mut draw = numbers.draw();
        if number == changed {
            draw.one = draw.one.wrapping_add(1);
        }
        let t = formed(alloc, draw, &mut made)?;
        made.push(t)?;
    }
    Ok(taken(&mut made))
}

/// How many answers there were of each kind.
#[derive(Debug, Drop)]
struct Tally {
    equal: u32,
    different: u32,
    spent: u32,
}

impl Tally {
    fn note(&mut self, answer: &Answer) {
        match answer {
            Answer::Equal => self.equal = self.equal.saturating_add(1),
            Answer::Different(_) => self.different = self.different.saturating_add(1),
            Answer::Spent => self.spent = self.spent.saturating_add(1),
        }
    }
}

/// Five questions: the head of a term; and whether it is equal to itself made again, to one that
/// is nearly equal, to another one, and to its head, where it has one.
fn ask(alloc: Global, env: &Globals, seed: u64, tally: &mut Tally) -> Result<(), Fail> {
    let mut numbers = Numbers { state: !seed };
    let n = u64::from(numbers.below(12));
    let forms = numbers.below(16) + 4;
    let changed = numbers.below(forms);
    let t = generated(alloc, seed, forms, forms)?;
    let again = generated(alloc, seed, forms, forms)?;
    let nearly = generated(alloc, seed, forms, changed)?;
    let other = generated(alloc, seed.wrapping_add(1), forms, forms)?;
    let head = match head_both_ways(alloc, n, env, &t)? {
        Head::Done(head, _) => head,
        Head::Spent => Term::IntTy,
    };
    for u in [&again, &nearly, &other, &head] {
        tally.note(&answer_both_ways(alloc, n, env, &t, u)?);
    }
    Ok(())
}

/// 10,000 questions, each at a budget below 12: five about each of 500 terms, over each of four
/// programs. More than 200 answers of each kind are among them.
#[test]
fn generated_questions_are_answered_alike(rt: HostRuntime) -> Result<(), Fail> {
    let alloc = rt.alloc();
    let mut tally = Tally {
        equal: 0,
        different: 0,
        spent: 0,
    };
    let programs = [
        program(alloc)?,
        loops(alloc)?,
        counting(alloc, 3)?,
        doubling(alloc)?,
    ];
    for env in &programs {
        for seed in 0..500 {
            ask(alloc, env, seed, &mut tally)?;
        }
    }
    assert!(rt;
        tally.equal > 200 && tally.different > 200 && tally.spent > 200,
        "{tally:?}"
    );
    Ok(())
}
