//! What the judgement of small modules gives. Each function does nothing: its contract is what was
//! computed.

ghost use Rattle.qtt_module.specs.ExportRows.{ExportRows};
ghost use Rattle.qtt_module.specs.FamilyRows.{FamilyRows, MainRows};
ghost use Rattle.qtt_module.specs.ModuleRuleRows.{ModuleRuleRows};
ghost use Rattle.qtt_module.specs.Rows.{ModuleRows};

/// Families and signatures as entries of the environment, and each of their premises, false once.
pub fn families_as_worked()
    ensures { FamilyRows }
{}

/// The test of a main.
pub fn mains_as_worked()
    ensures { MainRows }
{}

/// Modules accepted and refused, with holes and without.
pub fn modules_as_worked()
    ensures { ModuleRows }
{}

/// What modules declare by the rules, one of them with a hole.
pub fn modules_declared_as_worked()
    ensures { ModuleRuleRows }
{}

/// What modules give to those that import them.
pub fn exports_as_worked()
    ensures { ExportRows }
{}
