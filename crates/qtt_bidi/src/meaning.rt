//! What a global name stands for.

ghost use Rattle.std.specs.Prelude.{◌≡◌, option_map};
ghost use Rattle.qtt_syntax.specs.View.{tree_of};
ghost use Rattle.qtt_term.specs.Entries.{entries};
ghost use Rattle.qtt_bidi.specs.Meaning.{meaning as meaning_at, in_prim as prim_meaning, of_item, exact as exact_at};
ghost use Rattle.qtt_bidi.specs.Listed.{meaning_of, rule_of};

use qtt_base::GlobalId;
use qtt_prims::{ActKind, Primitive};
use qtt_syntax::{Expr, Target};
use qtt_term::{ConId, Globals, IoKind, Rule};

/// A type of Prim that is no family.
#[derive(Clone, Copy, Debug)]
pub enum TypeName {
    Int,
    Text,
    Handle,
    Io(IoKind),
}

/// What takes exactly the arguments of a signature.
#[derive(Clone, Copy, Debug)]
pub enum Listed {
    Family(GlobalId),
    Type(TypeName),
    Primitive(Primitive),
    Action(ActKind),
}

/// What a global name stands for.
#[derive(Clone, Copy, Debug)]
pub enum Meaning {
    Definition(GlobalId),
    Listed(Listed),
    Constructor(ConId),
    Pure(IoKind),
}

impl Listed {
    /// The rule that judges it.
    pub fn rule(self) -> Rule
        ensures { result ≡ rule_of self }
    {
        match self {
            Listed::Family(_) | Listed::Type(_) => Rule::Family,
            Listed::Primitive(_) => Rule::Prim,
            Listed::Action(_) => Rule::Act,
        }
    }
}

/// What this id stands for.
pub fn global_meaning(globals: &Globals, id: GlobalId) -> Meaning
    ensures { meaning_of result ≡ meaning_at (entries globals.now) id }
{
    match prim_meaning(id) {
        Some(meaning) => meaning,
        None => item_meaning(globals, id),
    }
}

/// What takes exactly its arguments, where an expression is its name.
pub fn exact(globals: &Globals, e: &Expr) -> Option<Meaning>
    ensures { option_map meaning_of result ≡ exact_at (entries globals.now) (tree_of e.now) }
{
    let Expr::Name(named) = e else {
        return None;
    };
    let Target::Global(id) = named.target else {
        return None;
    };
    match global_meaning(globals, id) {
        Meaning::Definition(_) => None,
        Meaning::Listed(listed) => Some(Meaning::Listed(listed)),
        Meaning::Constructor(con) => Some(Meaning::Constructor(con)),
        Meaning::Pure(kind) => Some(Meaning::Pure(kind)),
    }
}

/// The items of Prim that are neither families nor constructors, by their numbers there.
fn prim_meaning(id: GlobalId) -> Option<Meaning>
    ensures { option_map meaning_of result ≡ prim_meaning id }
{
    if id.module.0 != 0 {
        return None;
    }
    match id.item {
        0 => Some(Meaning::Listed(Listed::Type(TypeName::Int))),
        1 => Some(Meaning::Listed(Listed::Type(TypeName::Text))),
        2 => Some(Meaning::Listed(Listed::Type(TypeName::Handle))),
        6 => Some(Meaning::Listed(Listed::Type(TypeName::Io(IoKind::Io)))),
        7 => Some(Meaning::Listed(Listed::Type(TypeName::Io(IoKind::Io1)))),
        15 => Some(Meaning::Listed(Listed::Primitive(Primitive::AddInt))),
        16 => Some(Meaning::Listed(Listed::Primitive(Primitive::SubInt))),
        17 => Some(Meaning::Listed(Listed::Primitive(Primitive::MulInt))),
        18 => Some(Meaning::Listed(Listed::Primitive(Primitive::DivInt))),
        19 => Some(Meaning::Listed(Listed::Primitive(Primitive::ModInt))),
        20 => Some(Meaning::Listed(Listed::Primitive(Primitive::EqInt))),
        21 => Some(Meaning::Listed(Listed::Primitive(Primitive::LtInt))),
        22 => Some(Meaning::Listed(Listed::Primitive(Primitive::AppendString))),
        23 => Some(Meaning::Listed(Listed::Primitive(Primitive::EqString))),
        24 => Some(Meaning::Listed(Listed::Primitive(Primitive::ShowInt))),
        25 => Some(Meaning::Pure(IoKind::Io)),
        26 => Some(Meaning::Pure(IoKind::Io1)),
        27 => Some(Meaning::Listed(Listed::Action(ActKind::PutLine))),
        28 => Some(Meaning::Listed(Listed::Action(ActKind::GetLine))),
        29 => Some(Meaning::Listed(Listed::Action(ActKind::Open))),
        30 => Some(Meaning::Listed(Listed::Action(ActKind::Write))),
        31 => Some(Meaning::Listed(Listed::Action(ActKind::Close))),
        _ => None,
    }
}

/// A family, a constructor, or else a definition.
fn item_meaning(globals: &Globals, id: GlobalId) -> Meaning
    ensures { meaning_of result ≡ of_item (entries globals.now) id }
{
    if globals.family(id).is_some() {
        return Meaning::Listed(Listed::Family(id));
    }
    match globals.constructor(id) {
        Some((family, place)) => Meaning::Constructor(ConId {
            family: family.id,
            place,
        }),
        None => Meaning::Definition(id),
    }
}
