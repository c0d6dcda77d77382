//! Whether an environment is in shape: Prim's families are there, and each item is in shape.

ghost use Rattle.std.specs.Prelude.{◌≡◌, ◌↔◌, ◌&&◌, [], Some, IsTrue, map};
ghost use Rattle.std.specs.List.{list_all};
ghost use Rattle.qtt_usage.specs.Mult.{𝟘};
ghost use Rattle.qtt_term.specs.Environment.{HasPrim};
ghost use Rattle.qtt_term.specs.Globals.{env as env_of};
ghost use Rattle.qtt_term.specs.Items.{field, family as family_of, constructor as constructor_of, definition as definition_of};
ghost use Rattle.qtt_term.specs.Shape.{EnvInShape, constructor_in_shape as constructor_shape, family_in_shape as family_shape, definition_in_shape as definition_shape};
ghost use Rattle.qtt_term.specs.Signature.{prim_id as id_of, unit_family, bool_family, line_family, eq_family};
ghost use Rattle.qtt_term.specs.View.{terms, side_by_side};

use crate::conditions::are_counted;
use crate::equality::same_all;
use crate::globals::Globals;
use crate::items::{Constructor, Definition, Family};
use crate::prim_items::prim_id;
use crate::shape::{all_in_shape, in_shape, vars_in_shape};
use crate::term::Term;
use qtt_usage::mult::Mult;

impl Globals {
    /// Whether the families of Prim are there, each term of each item is in shape, and each
    /// constructor's result has one term for each index.
    pub fn is_in_shape(&self) -> bool
        ensures { IsTrue result ↔ EnvInShape (env_of self.now) }
    {
        let prims = has_prim(self);
        let families = families_in_shape(self, self.families());
        let definitions = definitions_in_shape(self, self.definitions());
        prims & (families & definitions)
    }
}

// ---- items
fn families_in_shape(env: &Globals, families: &[Family]) -> bool
    ensures { result ≡ list_all (λ F. family_shape (env_of env.now) (family_of F)) families.now }
{
    for family in families {
        if !family_in_shape(env, family) {
            return false;
        }
    }
    true
}

fn family_in_shape(env: &Globals, family: &Family) -> bool
    ensures { result ≡ family_shape (env_of env.now) (family_of family.now) }
{
    let params = all_in_shape(env, &family.params);
    let indices = all_in_shape(env, &family.indices);
    let constructors = constructors_in_shape(env, &family.constructors);
    let counted = are_counted(&family.constructors, family.indices.len());
    params & (indices & (constructors & counted))
}

fn constructors_in_shape(env: &Globals, constructors: &[Constructor]) -> bool
    ensures { result ≡ list_all (λ c. constructor_shape (env_of env.now) (constructor_of c))
        constructors.now }
{
    for constructor in constructors {
        if !constructor_in_shape(env, constructor) {
            return false;
        }
    }
    true
}

fn constructor_in_shape(env: &Globals, constructor: &Constructor) -> bool
    ensures { result ≡ constructor_shape (env_of env.now) (constructor_of constructor.now) }
{
    let fields = vars_in_shape(env, &constructor.fields);
    let point = all_in_shape(env, &constructor.result);
    fields & point
}

fn definitions_in_shape(env: &Globals, definitions: &[Definition]) -> bool
    ensures { result ≡ list_all (λ d. definition_shape (env_of env.now) (definition_of d))
        definitions.now }
{
    for definition in definitions {
        if !definition_in_shape(env, definition) {
            return false;
        }
    }
    true
}

fn definition_in_shape(env: &Globals, definition: &Definition) -> bool
    ensures { result ≡ definition_shape (env_of env.now) (definition_of definition.now) }
{
    let ty = in_shape(env, &definition.ty);
    let body = match &definition.body {
        Some(body) => in_shape(env, body),
        None => true,
    };
    ty & body
}

// ---- Prim
fn has_prim(env: &Globals) -> bool
    ensures { IsTrue result ↔ HasPrim (env_of env.now) }
{
    let units = has_units(env);
    let truths = has_truths(env);
    let lines = has_lines(env);
    let equalities = has_equalities(env);
    units & (truths & (lines & equalities))
}

fn has_units(env: &Globals) -> bool
    ensures { IsTrue result ↔ ((env_of env.now).family (id_of 3) ≡ Some unit_family) }
{
    match env.family(prim_id(3)) {
        Some(family) => has_header(family, &[], &[]) & is_unit(&family.constructors),
        None => false,
    }
}

fn has_truths(env: &Globals) -> bool
    ensures { IsTrue result ↔ ((env_of env.now).family (id_of 4) ≡ Some bool_family) }
{
    match env.family(prim_id(4)) {
        Some(family) => has_header(family, &[], &[]) & is_bool(&family.constructors),
        None => false,
    }
}

fn has_lines(env: &Globals) -> bool
    ensures { IsTrue result ↔ ((env_of env.now).family (id_of 5) ≡ Some line_family) }
{
    match env.family(prim_id(5)) {
        Some(family) => has_header(family, &[], &[]) & is_line(&family.constructors),
        None => false,
    }
}

fn has_equalities(env: &Globals) -> bool
    ensures { IsTrue result ↔ ((env_of env.now).family (id_of 13) ≡ Some eq_family) }
{
    let params = [Term::Sort(0), Term::Var(0)];
    let indices = [Term::Var(1)];
    match env.family(prim_id(13)) {
        Some(family) => has_header(family, &params, &indices) & is_eq(&family.constructors),
        None => false,
    }
}

/// Whether these are the parameters and indices of a family of level 0.
fn has_header(family: &Family, params: &[Term], indices: &[Term]) -> bool
    ensures { IsTrue result ↔ (family_of family.now ≡ record {
      params = map (λ t. (𝟘, t)) (terms params.now);
      indices = terms indices.now;
      level = 0;
      constructors = map constructor_of family.now.constructors.items;
    }) }
{
    let by_params = same_all(&family.params, params);
    let by_indices = same_all(&family.indices, indices);
    (family.level == 0) & (by_params & by_indices)
}

fn is_unit(constructors: &[Constructor]) -> bool
    ensures { IsTrue result ↔ (map constructor_of constructors.now ≡ unit_family.constructors) }
{
    match constructors {
        [make] => is_constructor(make, &[], &[]),
        _ => false,
    }
}

fn is_bool(constructors: &[Constructor]) -> bool
    ensures { IsTrue result ↔ (map constructor_of constructors.now ≡ bool_family.constructors) }
{
    match constructors {
        [no, yes] => is_constructor(no, &[], &[]) & is_constructor(yes, &[], &[]),
        _ => false,
    }
}

fn is_line(constructors: &[Constructor]) -> bool
    ensures { IsTrue result ↔ (map constructor_of constructors.now ≡ line_family.constructors) }
{
    let text = [(Mult::Many, Term::StringTy)];
    match constructors {
        [eof, got] => is_constructor(eof, &[], &[]) & is_constructor(got, &text, &[]),
        _ => false,
    }
}

fn is_eq(constructors: &[Constructor]) -> bool
    ensures { IsTrue result ↔ (map constructor_of constructors.now ≡ eq_family.constructors) }
{
    let point = [Term::Var(0)];
    match constructors {
        [reflexivity] => is_constructor(reflexivity, &[], &point),
        _ => false,
    }
}

/// Whether these are a constructor's fields and its result.
fn is_constructor(constructor: &Constructor, fields: &[(Mult, Term)], point: &[Term]) -> bool
    ensures { IsTrue result ↔ (constructor_of constructor.now ≡ record {
      fields = map field fields.now;
      results = side_by_side (terms point.now);
    }) }
{
    let by_fields = same_fields(&constructor.fields, fields);
    let by_result = same_all(&constructor.result, point);
    by_fields & by_result
}

fn same_fields(ones: &[(Mult, Term)], others: &[(Mult, Term)]) -> bool
    ensures { IsTrue result ↔ (map field ones.now ≡ map field others.now) }
{
    if ones.len() != others.len() {
        return false;
    }
    for (i, one) in ones.iter().enumerate() {
        if !same_field(one, &others[i]) {
            return false;
        }
    }
    true
}

fn same_field(one: &(Mult, Term), other: &(Mult, Term)) -> bool
    ensures { IsTrue result ↔ (field one.now ≡ field other.now) }
{
    one.0 == other.0 && one.1.same(&other.1)
}
