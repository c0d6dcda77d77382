//! Signatures looked up.

ghost use Rattle.std.specs.Prelude.{◌≡◌, map, option_map, slice_get};
ghost use Rattle.qtt_implicit.specs.Known.{exported as exported_by, signature as signature_in, signature_named as named_in};
ghost use Rattle.qtt_implicit.specs.KnownItems.{import_of, known_of};
ghost use Rattle.qtt_implicit.specs.Signatures.{signature_of};

use crate::filling::known::{Import, Known};
use crate::filling::signature::Signature;
use qtt_base::{GlobalId, Name};

fn numbered<'a>(sigs: &[Signature<'a>], number: u32) -> Option<Signature<'a>>
    ensures { option_map signature_of result ≡ slice_get (map signature_of sigs.now) number }
{
    match sigs.get(number as usize) {
        Some(sig) => Some(*sig),
        None => None,
    }
}

fn exported<'a>(imports: &[Import<'a>], id: GlobalId) -> Option<Signature<'a>>
    ensures { option_map signature_of result ≡ exported_by (map import_of imports.now) id }
{
    for import in imports {
        if import.exports.module.0 == id.module.0 {
            return numbered(&import.sigs, id.item);
        }
    }
    None
}

impl<'a> Known<'a> {
    /// The signature of an item.
    pub fn signature(&self, id: GlobalId) -> Option<Signature<'a>>
        ensures { option_map signature_of result ≡ signature_in (known_of self.now) id }
    {
        if id.module.0 == self.home.0 {
            self.own.numbered(id.item)
        } else {
            exported(&self.imports, id)
        }
    }

    /// The signature of the own item of a name.
    pub fn signature_named(&self, name: &Name) -> Option<Signature<'a>>
        ensures { option_map signature_of result ≡ named_in (known_of self.now) name.now }
    {
        self.own.named(name)
    }
}
