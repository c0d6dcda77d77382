//! What an action asks for.

ghost use Rattle.std.specs.Prelude.{◌≡◌, ℕ, List, [], ◌∷◌};
ghost use Rattle.qtt_prims.specs.declared.lit.Lit.TheVariants as literal;
ghost use Rattle.qtt_term.specs.View.{action};
ghost use Rattle.qtt_code.specs.Value.{Value, side_by_side};
ghost use Rattle.qtt_value.specs.View.{value as value_of, values};
ghost use Rattle.qtt_run.specs.Deed.{Asks, IsPerformed};

use qtt_prims::ActKind;
use qtt_value::Val;

/// What an action that was given asks for.
#[derive(Clone, Copy)]
pub(crate) enum Deed<'a> {
    /// This is its result, which goes to the newest continuation.
    Give(Val<'a>),
    GetLine,
    Else(Effect<'a>),
}

/// What always gives an action again.
#[derive(Clone, Copy)]
pub(crate) enum Effect<'a> {
    /// This action comes next, and this continuation waits for its result.
    Bind(Val<'a>, Val<'a>),
    PutLine(&'a str),
    Open(&'a str),
    Write(u32, &'a str),
    Close(u32),
}

/// What an action asks for.
pub(crate) fn asked<'a>(given: Val<'a>) -> Deed<'a>
    requires { IsPerformed (value_of given) }
    ensures { Asks (value_of given.entry) result }
{
    let (kind, parts) = as_action(given);
    match kind {
        ActKind::Pure | ActKind::Pure1 => Deed::Give(one(parts)),
        ActKind::GetLine => Deed::GetLine,
        ActKind::PutLine => Deed::Else(Effect::PutLine(as_text(one(parts)))),
        ActKind::Open => Deed::Else(Effect::Open(as_text(one(parts)))),
        ActKind::Write => {
            let (tape, line) = two(parts);
            Deed::Else(Effect::Write(as_tape(tape), as_text(line)))
        }
        ActKind::Close => Deed::Else(Effect::Close(as_tape(one(parts)))),
        ActKind::BindIoIo | ActKind::BindIoIo1 | ActKind::BindIo1Io | ActKind::BindIo1Io1 => {
            let (first, rest) = two(parts);
            Deed::Else(Effect::Bind(first, rest))
        }
    }
}

/// The kind of an action, and its parts.
fn as_action<'a>(given: Val<'a>) -> (ActKind, &'a [Val<'a>])
    requires { IsPerformed (value_of given) }
    ensures { value_of given.entry ≡ Value.action (action result.0)
        (side_by_side (values result.1.now)) }
{
    let Val::Act(kind, parts) = given else {
        unreachable!()
    };
    (kind, parts)
}

/// The only part.
fn one<'a>(parts: &'a [Val<'a>]) -> Val<'a>
    requires { (v : Value) × (values parts.now ≡ v ∷ []) }
    ensures { values parts.now ≡ value_of result ∷ [] }
{
    parts[0]
}

/// Both parts.
fn two<'a>(parts: &'a [Val<'a>]) -> (Val<'a>, Val<'a>)
    requires { (v : Value) × (w : Value) × (values parts.now ≡ v ∷ w ∷ []) }
    ensures { values parts.now ≡ value_of result.0 ∷ value_of result.1 ∷ [] }
{
    (parts[0], parts[1])
}

fn as_text<'a>(part: Val<'a>) -> &'a str
    requires { (s : List ℕ) × (value_of part ≡ Value.literal (literal.Text s)) }
    ensures { value_of part.entry ≡ Value.literal (literal.Text result.now) }
{
    let Val::Text(text) = part else {
        unreachable!()
    };
    text
}

fn as_tape(part: Val<'_>) -> u32
    requires { (n : ℕ) × (value_of part ≡ Value.tape n) }
    ensures { value_of part.entry ≡ Value.tape result }
{
    let Val::Tape(place) = part else {
        unreachable!()
    };
    place
}
