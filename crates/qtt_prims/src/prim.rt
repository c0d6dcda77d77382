//! The primitives and the actions of the module `Prim`, with the names by which they are
//! printed.

ghost use Rattle.std.specs.Prelude.{◌≡◌, ◌↔◌, IsTrue};
ghost use Rattle.qtt_prims.specs.PrimNames.{prim_name, action_name};

/// A primitive on literals.
#[derive(Clone, Copy, Debug, PartialEq, Eq)]
pub enum Primitive {
    AddInt,
    SubInt,
    MulInt,
    DivInt,
    ModInt,
    EqInt,
    LtInt,
    AppendString,
    EqString,
    ShowInt,
}

/// What an action does. A bind is named by the kind of its first action and that of its result.
#[derive(Clone, Copy, Debug, PartialEq, Eq)]
pub enum ActKind {
    Pure,
    Pure1,
    PutLine,
    GetLine,
    Open,
    Write,
    Close,
    BindIoIo,
    BindIoIo1,
    BindIo1Io,
    BindIo1Io1,
}

impl Primitive {
    pub fn name(self) -> &'static str
        ensures { result.now ≡ prim_name self }
    {
        match self {
            Primitive::AddInt => "addInt",
            Primitive::SubInt => "subInt",
            Primitive::MulInt => "mulInt",
            Primitive::DivInt => "divInt",
            Primitive::ModInt => "modInt",
            Primitive::EqInt => "eqInt",
            Primitive::LtInt => "ltInt",
            Primitive::AppendString => "appendString",
            Primitive::EqString => "eqString",
            Primitive::ShowInt => "showInt",
        }
    }

    pub fn same(self, other: Primitive) -> bool
        ensures { IsTrue result ↔ (self ≡ other) }
    {
        self == other
    }
}

impl ActKind {
    pub fn name(self) -> &'static str
        ensures { result.now ≡ action_name self }
    {
        match self {
            ActKind::Pure => "pure",
            ActKind::Pure1 => "pure1",
            ActKind::PutLine => "putLine",
            ActKind::GetLine => "getLine",
            ActKind::Open => "open",
            ActKind::Write => "write",
            ActKind::Close => "close",
            ActKind::BindIoIo => "bind",
            ActKind::BindIoIo1 => "bind-1",
            ActKind::BindIo1Io => "bind1",
            ActKind::BindIo1Io1 => "bind1-1",
        }
    }

    pub fn same(self, other: ActKind) -> bool
        ensures { IsTrue result ↔ (self ≡ other) }
    {
        self == other
    }
}
