//! The marks that have been put.

ghost use Rattle.std.specs.Prelude.{◌≡◌, [], ◌∷◌, ◌++◌, None, replicate, OnOk, IfOk};

use crate::laid::Laid;
use qtt_base::{MemoryError, Span};
use qtt_lexer::Token;
use std::alloc::Global;

/// The marks and tokens so far, and the place of a Next that counts if no Close follows it.
#[derive(Debug, Drop)]
pub struct Marks {
    pub laid: Vec<Laid>,
    pub next: Option<Span>,
}

impl Marks {
    ghost use Rattle.qtt_layout.specs.Written.{Adds, written, held};
    ghost use Rattle.qtt_layout.specs.declared.laid.Laid.TheVariants.{Open, Next, Close, Tok};

    pub fn new(alloc: Global) -> Marks
        ensures laid { result.laid.items ≡ [] }
        ensures next { result.next ≡ None }
    {
        Marks {
            laid: Vec::new(alloc),
            next: None,
        }
    }

    pub fn put_next(&mut self, span: Span)
        ensures { Adds self.old self.new (Next span ∷ []) }
    {
        if self.next.is_none() {
            self.next = Some(span);
        }
    }

    pub fn put_close(&mut self, span: Span) -> Result<(), MemoryError>
        ensures { OnOk result (Adds self.old self.new (Close span ∷ [])) }
    {
        self.next = None;
        self.laid.push(Laid::Close(span))?;
        Ok(())
    }

    fn put_held(&mut self) -> Result<(), MemoryError>
        ensures laid { OnOk result
            (self.new.laid.items ≡ self.old.laid.items ++ held self.old.next) }
        ensures next { OnOk result (self.new.next ≡ None) }
    {
        if let Some(span) = self.next {
            self.laid.push(Laid::Next(span))?;
            self.next = None;
        }
        Ok(())
    }

    pub fn put_open(&mut self, span: Span) -> Result<(), MemoryError>
        ensures { OnOk result (Adds self.old self.new (Open span ∷ [])) }
    {
        self.put_held()?;
        self.laid.push(Laid::Open(span))?;
        Ok(())
    }

    pub fn put_token(&mut self, token: Token) -> Result<(), MemoryError>
        ensures { OnOk result (Adds self.old self.new (Tok token ∷ [])) }
    {
        self.put_held()?;
        self.laid.push(Laid::Tok(token))?;
        Ok(())
    }

    /// So many blocks close at a place.
    pub fn put_closes(&mut self, count: usize, span: Span) -> Result<(), MemoryError>
        ensures { OnOk result (Adds self.old self.new (replicate count (Close span))) }
    {
        'closes: for _ in 0..count {
            self.put_close(span)?;
        }
        Ok(())
    }

    /// The marks that count.
    pub fn into_laid(mut self) -> Result<Vec<Laid>, MemoryError>
        ensures { IfOk result (λ laid. laid.items ≡ written self []) }
    {
        self.put_held()?;
        Ok(self.laid)
    }
}
