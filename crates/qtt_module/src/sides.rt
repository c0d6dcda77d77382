//! What the clauses of a group give at their leaves.

ghost use Rattle.std.specs.Prelude.{◌≡◌, map, bytes_eq, IfOk};
ghost use Rattle.std.specs.List.{list_any};
ghost use Rattle.qtt_usage.specs.Mult.{fits};
ghost use Rattle.qtt_usage.specs.Usage.{usage_at};
ghost use Rattle.qtt_term.specs.Contexts.{part, variables};
ghost use Rattle.qtt_term.specs.Judgement.Part.{run as run_part};
ghost use Rattle.qtt_term.specs.View.{term};
ghost use Rattle.qtt_rules.specs.Report.{uses_pass as uses_asks};
ghost use Rattle.qtt_bidi.specs.Elaboration.{judge};
ghost use Rattle.qtt_split.specs.Calls.{clause_of};
ghost use Rattle.qtt_split.specs.Group.{dots_agree as dots_asks, sides_of as sides_asks, all_sides as all_asks};
ghost use Rattle.qtt_split.specs.View.{leaf_of, report_of};
ghost use Rattle.qtt_holes.specs.Hole.{Hole as HoleSeen};
ghost use Rattle.qtt_holes.specs.View.{hole as hole_of, report_of as hole_report_of};
ghost use Rattle.qtt_module.specs.Sides.{side_or_hole};
ghost use Rattle.qtt_module.specs.GroupCalls.{Answers, Gathers, IsWith, collected, column_of, core_asks, defined_of, dot_of, globals_of, hole_asks, leaf_at, none_collected, same_asks, side_of, use_asks};

use crate::groups::Group;
use crate::pattern_parts::{Dot, dots_among, names_among};
use crate::tails::has_hole;
use qtt_base::{MemoryError, Name, Span};
use qtt_bidi::{Scope, check};
use qtt_holes::{Hole, Report as HoleReport, walk};
use qtt_rules::{Detail, ElabError};
use qtt_split::{Leaf, Report};
use qtt_syntax::Clause;
use qtt_term::telescopes::number;
use qtt_term::{Converter, Ctx, Rule, Sigma, Term};
use qtt_usage::mult::Mult;
use qtt_usage::usage::Usage;
use std::alloc::Global;

/// The numbers of these tests among those of a group of clauses.
const DOTS: u8 = 15;

const USES: u8 = 16;

/// What a clause gives at a leaf: the core of its right side, or its hole.
#[derive(Drop)]
pub enum Side {
    Core(Term),
    Hole(Hole),
}

/// The core of a right side, at the leaf with this number in tree order.
#[derive(Drop)]
pub struct RightSide {
    pub leaf: u32,
    pub core: Term,
}

/// The cores of right sides in the order of clauses, and the holes, each once, with what its first
/// leaf gives.
#[derive(Drop)]
pub struct Sides {
    pub cores: Vec<RightSide>,
    pub holes: Vec<Hole>,
}

impl Sides {
    /// With what a clause gives at one leaf more. Of the holes of one name the first stays.
    fn with(self, leaf: u32, side: Side) -> Result<Sides, MemoryError>
        ensures { IfOk result (λ more. IsWith self leaf side more) }
    {
        let Sides { cores, holes } = self;
        let mut cores = cores;
        let mut holes = holes;
        match side {
            Side::Core(core) => {
                cores.push(RightSide { leaf, core })?;
                Ok(Sides { cores, holes })
            }
            Side::Hole(hole) => {
                if has_name(&hole.name, &holes) {
                    return Ok(Sides { cores, holes });
                }
                holes.push(hole)?;
                Ok(Sides { cores, holes })
            }
        }
    }
}

/// Whether one of these holes has the name.
fn has_name(name: &Name, holes: &[Hole]) -> bool
    ensures { result ≡ list_any (λ (x : HoleSeen). bytes_eq x.name name.now)
        (map hole_of holes.now) }
{
    for hole in holes {
        if hole.name.same(name) {
            return true;
        }
    }
    false
}

/// The use of a variable.
#[tactic(auto, using(crate::proofs::Fitting::fitting))]
fn use_of(uses: &Usage, index: u32) -> Mult
    ensures { result ≡ usage_at uses.now index }
{
    let place = index as usize;
    if place < uses.len() {
        uses.get(place)
    } else {
        Mult::Zero
    }
}

/// A copy of a name that may be there.
fn copied_name(name: &Option<Name>) -> Result<Option<Name>, MemoryError>
    ensures { IfOk result (λ copy. copy ≡ name.now) }
{
    match name {
        Some(name) => Ok(Some(name.copy()?)),
        None => Ok(None),
    }
}

/// The same reports, as the way to a hole takes them.
fn hole_reports(alloc: Global, reports: &[Report]) -> Result<Vec<HoleReport>, MemoryError>
    ensures { IfOk result (λ v. map hole_report_of v.items ≡ map report_of reports.now) }
{
    let mut told = Vec::with_capacity(alloc, reports.len())?;
    for report in reports {
        told.push(HoleReport {
            variable: report.variable,
            name: copied_name(&report.name)?,
            place: report.place,
        })?;
    }
    Ok(told)
}

impl<'a, C: Converter> Group<'a, C> {
    /// What is found is the term of a dot pattern's column.
    fn agrees(
        &self,
        leaf: &Leaf,
        found: &Term,
        expected: &Term,
        span: Span,
    ) -> Result<(), ElabError>
        ensures { Answers self.now (same_asks (leaf_of leaf.now) (term found.now)
            (term expected.now) span) (λ u. u) result }
    {
        let alloc = self.elaborator.alloc;
        let depth = number(leaf.ctx.vars.len())?;
        if self.alike(depth, found, expected, span, DOTS)? {
            return Ok(());
        }
        let kept = Detail::DotMismatch {
            depth,
            expected: expected.copy(alloc)?,
            found: found.copy(alloc)?,
        };
        Err(ElabError::Refused(kept, span, Rule::Clauses, DOTS))
    }

    /// The expression of each dot pattern, in the erased part, is the term of its column.
    fn dots_agree(
        &self,
        leaf: &Leaf,
        dots: &[Dot<'_>],
        columns: &[(Term, Term)],
    ) -> Result<(), ElabError>
        ensures { Answers self.now
            (dots_asks (judge (globals_of self.now)) (leaf_of leaf.now) (map dot_of dots.now)
            (map column_of columns.now)) (λ u. u) result }
    {
        let [dot, dots @ ..] = dots else {
            return Ok(());
        };
        let [column, columns @ ..] = columns else {
            return Ok(());
        };
        let elaborator = &self.elaborator;
        let found = check(
            elaborator.alloc,
            elaborator.converter,
            elaborator.budget,
            elaborator.globals,
            &leaf.ctx,
            Sigma::Erased,
            dot.value,
            &column.1,
        )?;
        self.agrees(leaf, &found.core, &column.0, dot.span)?;
        self.dots_agree(leaf, dots, columns)
    }

    /// In the run part each variable that is reported was used as it is declared.
    fn uses_fit(&self, leaf: &Leaf, uses: &Usage) -> Result<(), ElabError>
        ensures { Answers self.now
            (uses_asks fits (part self.now.sigma) (leaf_of leaf.now).context uses.now
            (leaf_of leaf.now).reported) (λ u. u) result }
    {
        match self.sigma {
            Sigma::Erased => Ok(()),
            Sigma::Run => self.all_fit(&leaf.ctx, uses, &leaf.reported),
        }
    }

    fn all_fit(&self, context: &Ctx, uses: &Usage, reports: &[Report]) -> Result<(), ElabError>
        ensures { Answers self.now
            (uses_asks fits run_part (variables context.now) uses.now (map report_of reports.now))
            (λ u. u) result }
    {
        match reports {
            [] => Ok(()),
            [first, rest @ ..] => {
                self.use_fits(context, uses, first)?;
                self.all_fit(context, uses, rest)
            }
        }
    }

    /// The variable was used as it is declared; else this is told at its pattern.
    fn use_fits(&self, context: &Ctx, uses: &Usage, report: &Report) -> Result<(), ElabError>
        ensures { Answers self.now
            (use_asks (variables context.now) uses.now (report_of report.now)) (λ u. u) result }
    {
        let declared = Scope::Outer(context).mult(report.variable);
        let used = use_of(uses, report.variable);
        if Mult::fits(used, declared) {
            return Ok(());
        }
        let kept = Detail::WrongUsage {
            name: copied_name(&report.name)?,
            declared,
            used,
        };
        Err(ElabError::Refused(kept, report.place, Rule::Clauses, USES))
    }

    /// The core of a clause's right side at a leaf.
    fn core_at(&self, clause: &Clause, leaf: &Leaf) -> Result<Term, ElabError>
        ensures { Answers self.now
            (core_asks (globals_of self.now) (part self.now.sigma) (clause_of clause.now)
            (leaf_of leaf.now)) term result }
    {
        let elaborator = &self.elaborator;
        let found = check(
            elaborator.alloc,
            elaborator.converter,
            elaborator.budget,
            elaborator.globals,
            &leaf.ctx,
            self.sigma,
            &clause.side,
            &leaf.goal,
        )?;
        self.uses_fit(leaf, &found.usage)?;
        Ok(found.core)
    }

    /// The hole of a clause at a leaf.
    fn hole_at(&self, clause: &Clause, leaf: &Leaf) -> Result<Hole, ElabError>
        ensures { Answers self.now
            (hole_asks (globals_of self.now) (part self.now.sigma) (clause_of clause.now)
            (leaf_of leaf.now)) hole_of result }
    {
        let elaborator = &self.elaborator;
        let alloc = elaborator.alloc;
        let names = names_among(&clause.patterns, Vec::new(alloc))?;
        let reports = hole_reports(alloc, &leaf.reported)?;
        walk(
            alloc,
            elaborator.converter,
            elaborator.budget,
            elaborator.globals,
            &leaf.ctx,
            &names,
            &reports,
            self.sigma,
            &clause.side,
            &leaf.goal,
        )
    }

    /// What a clause gives at a leaf.
    fn side(&self, clause: &Clause, leaf: &Leaf) -> Result<Side, ElabError>
        ensures { Answers self.now
            (side_or_hole (globals_of self.now) (part self.now.sigma) (clause_of clause.now)
            (leaf_of leaf.now)) side_of result }
    {
        let dots = dots_among(&clause.patterns, Vec::new(self.elaborator.alloc))?;
        self.dots_agree(leaf, &dots, &leaf.dots)?;
        if has_hole(&clause.side) {
            Ok(Side::Hole(self.hole_at(clause, leaf)?))
        } else {
            Ok(Side::Core(self.core_at(clause, leaf)?))
        }
    }

    /// What the clause with this number gives at each of its leaves, in tree order, behind what
    /// those before it give.
    fn sides_of(
        &self,
        clause_number: u32,
        clause: &Clause,
        leaves: &[&Leaf],
        before: Sides,
    ) -> Result<Sides, ElabError>
        ensures { Gathers self.now
            (sides_asks (side_or_hole (globals_of self.now) (part self.now.sigma)) clause_number
            (clause_of clause.now) 0 (map leaf_at leaves.now)) (collected before) result }
    {
        let mut sides = before;
        for (place, leaf) in leaves.iter().enumerate() {
            if leaf.clause != clause_number {
                continue;
            }
            let side = self.side(clause, *leaf)?;
            sides = sides.with(number(place)?, side)?;
        }
        Ok(sides)
    }

    /// What the clauses give at these leaves, clause by clause.
    pub fn all_sides(&self, leaves: &[&Leaf]) -> Result<Sides, ElabError>
        ensures { Gathers self.now
            (all_asks (side_or_hole (globals_of self.now) (part self.now.sigma)) 0
            (defined_of self.now).group.clauses (map leaf_at leaves.now)) none_collected result }
    {
        let alloc = self.elaborator.alloc;
        let mut sides = Sides {
            cores: Vec::new(alloc),
            holes: Vec::new(alloc),
        };
        for (place, clause) in self.clauses.iter().enumerate() {
            sides = self.sides_of(number(place)?, clause, leaves, sides)?;
        }
        Ok(sides)
    }
}
