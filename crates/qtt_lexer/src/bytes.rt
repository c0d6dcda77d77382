//! A list of bytes.

ghost use Rattle.std.specs.Prelude.{◌≡◌, IfOk};

use qtt_base::MemoryError;
use std::alloc::Global;
use std::marker::Model;

/// The bytes of a token or of a text's value. A contract sees the list of them.
#[derive(Debug, Drop)]
pub struct Bytes {
    items: Vec<u8>,
}

impl Model for Bytes {
    ghost use Rattle.std.specs.Prelude.{ℕ, List};

    ghost Value = { List ℕ };

    ghost view = { λ b. b.items.items };
}

impl Bytes {
    /// Copies a slice.
    pub fn from_slice(alloc: Global, items: &[u8]) -> Result<Bytes, MemoryError>
        ensures { IfOk result (λ bytes. bytes ≡ items.now) }
    {
        Ok(Bytes {
            items: Vec::from_slice(alloc, items)?,
        })
    }

    pub fn as_slice(&self) -> &[u8]
        ensures { result.now ≡ self.now }
    {
        self.items.as_slice()
    }

    pub fn copy(&self) -> Result<Bytes, MemoryError>
        ensures { IfOk result (λ bytes. bytes ≡ self.now) }
    {
        Ok(Bytes {
            items: self.items.clone()?,
        })
    }
}

impl From<Vec<u8>> for Bytes {
    ghost from_gives = { λ items bytes. bytes ≡ items.items };

    fn from(items: Vec<u8>) -> Bytes {
        Bytes { items }
    }
}
