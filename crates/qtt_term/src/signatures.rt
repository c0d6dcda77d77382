//! The signatures of primitives and actions.

ghost use Rattle.std.specs.Prelude.{◌≡◌, IfOk};
ghost use Rattle.qtt_term.specs.Signature.{prim_signature, type_arguments, act_signature, prim_id as id_of, mult_of, IoTy};
ghost use Rattle.qtt_term.specs.Term.{Fam, ε, Action};
ghost use Rattle.qtt_term.specs.View.{term, action, io};
ghost use Rattle.qtt_term.specs.Telescopes.{signature};

use crate::term::{IoKind, Term, TermError};
use qtt_base::{GlobalId, ModuleId};
use qtt_prims::{ActKind, Primitive};
use qtt_usage::mult::Mult;
use std::alloc::Global;

/// Arguments, each type under those before it, and under all of them a type.
#[derive(Debug, Drop)]
pub struct Signature {
    pub arguments: Vec<(Mult, Term)>,
    pub ty: Term,
}

/// A family of Prim without parameters and indices, by its number there.
fn plain_type(alloc: Global, item: u32) -> Term
    ensures { term result ≡ Fam (id_of item) ε }
{
    let id = GlobalId {
        module: ModuleId(0),
        item,
    };
    Term::Fam(id, Vec::new(alloc))
}

/// The actions of this kind with that result.
fn io_type(alloc: Global, kind: IoKind, of: Term) -> Result<Term, TermError>
    ensures { IfOk result (λ t. term t ≡ IoTy (io kind) (term of)) }
{
    Ok(Term::IoTy(kind, Box::new(alloc, of)?))
}

/// How often the result of such an action may be used.
fn mult_of(kind: IoKind) -> Mult
    ensures { result ≡ mult_of (io kind) }
{
    match kind {
        IoKind::Io => Mult::Many,
        IoKind::Io1 => Mult::One,
    }
}

/// The signature of a primitive.
pub fn primitive_signature(alloc: Global, prim: Primitive) -> Result<Signature, TermError>
    ensures { IfOk result (λ s. signature s ≡ prim_signature prim) }
{
    let many = Mult::Many;
    let (arguments, ty) = match prim {
        Primitive::AddInt
        | Primitive::SubInt
        | Primitive::MulInt
        | Primitive::DivInt
        | Primitive::ModInt => (
            vec![in alloc; (many, Term::IntTy), (many, Term::IntTy)]?,
            Term::IntTy,
        ),
        Primitive::EqInt | Primitive::LtInt => (
            vec![in alloc; (many, Term::IntTy), (many, Term::IntTy)]?,
            plain_type(alloc, 4),
        ),
        Primitive::AppendString => (
            vec![in alloc; (many, Term::StringTy), (many, Term::StringTy)]?,
            Term::StringTy,
        ),
        Primitive::EqString => (
            vec![in alloc; (many, Term::StringTy), (many, Term::StringTy)]?,
            plain_type(alloc, 4),
        ),
        Primitive::ShowInt => (vec![in alloc; (many, Term::IntTy)]?, Term::StringTy),
    };
    Ok(Signature { arguments, ty })
}

/// The signature of the pure action of this kind.
fn pure_signature(alloc: Global, kind: IoKind) -> Result<Signature, TermError>
    ensures { IfOk result (λ s. signature s ≡ act_signature (Action.pure (io kind))) }
{
    Ok(Signature {
        arguments: vec![in alloc; (Mult::Zero, Term::Sort(0)), (mult_of(kind), Term::Var(0))]?,
        ty: io_type(alloc, kind, Term::Var(1))?,
    })
}

/// The signature of a bind from one kind to another.
fn bind_signature(alloc: Global, from: IoKind, to: IoKind) -> Result<Signature, TermError>
    ensures { IfOk result (λ s. signature s ≡ act_signature (Action.bind (io from) (io to))) }
{
    let first = io_type(alloc, from, Term::Var(1))?;
    let rest = io_type(alloc, to, Term::Var(2))?;
    let next = Term::pi(alloc, mult_of(from), Term::Var(2), rest)?;
    let arguments = vec![in alloc;
        (Mult::Zero, Term::Sort(0)),
        (Mult::Zero, Term::Sort(0)),
        (Mult::One, first),
        (Mult::One, next),
    ]?;
    let ty = io_type(alloc, to, Term::Var(2))?;
    Ok(Signature { arguments, ty })
}

/// How many type arguments an action takes.
pub fn type_arguments(kind: ActKind) -> usize
    ensures { result ≡ type_arguments (action kind) }
{
    match kind {
        ActKind::Pure | ActKind::Pure1 => 1,
        ActKind::BindIoIo | ActKind::BindIoIo1 | ActKind::BindIo1Io | ActKind::BindIo1Io1 => 2,
        ActKind::PutLine | ActKind::GetLine | ActKind::Open | ActKind::Write | ActKind::Close => 0,
    }
}

/// The signature of an action: its type arguments and its arguments.
pub fn action_signature(alloc: Global, kind: ActKind) -> Result<Signature, TermError>
    ensures { IfOk result (λ s. signature s ≡ act_signature (action kind)) }
{
    let (arguments, of, io) = match kind {
        ActKind::Pure => return pure_signature(alloc, IoKind::Io),
        ActKind::Pure1 => return pure_signature(alloc, IoKind::Io1),
        ActKind::BindIoIo => return bind_signature(alloc, IoKind::Io, IoKind::Io),
        ActKind::BindIoIo1 => return bind_signature(alloc, IoKind::Io, IoKind::Io1),
        ActKind::BindIo1Io => return bind_signature(alloc, IoKind::Io1, IoKind::Io),
        ActKind::BindIo1Io1 => return bind_signature(alloc, IoKind::Io1, IoKind::Io1),
        ActKind::PutLine => (
            vec![in alloc; (Mult::Many, Term::StringTy)]?,
            plain_type(alloc, 3),
            IoKind::Io,
        ),
        ActKind::GetLine => (Vec::new(alloc), plain_type(alloc, 5), IoKind::Io),
        ActKind::Open => (
            vec![in alloc; (Mult::Many, Term::StringTy)]?,
            Term::HandleTy,
            IoKind::Io1,
        ),
        ActKind::Write => (
            vec![in alloc; (Mult::One, Term::HandleTy), (Mult::Many, Term::StringTy)]?,
            Term::HandleTy,
            IoKind::Io1,
        ),
        ActKind::Close => (
            vec![in alloc; (Mult::One, Term::HandleTy)]?,
            plain_type(alloc, 3),
            IoKind::Io,
        ),
    };
    let ty = io_type(alloc, io, of)?;
    Ok(Signature { arguments, ty })
}
