//! The text of one module.

ghost use Rattle.std.specs.Prelude.{◌≡◌};
ghost use Rattle.qtt_syntax.specs.View.{module_of};
ghost use Rattle.qtt_load.specs.Reading as reading;
ghost use Rattle.qtt_load.specs.Reading.{tree_of_text, tree_of_module, has_name, is_asked};
ghost use Rattle.qtt_load.specs.Answer.{Gives, Says, nothing};

use crate::errors::TextError;
use crate::stage::{marks, tokens, tree};
use qtt_base::{Limits, Name, Quantity, Span};
use qtt_rules::Detail;
use qtt_syntax::ModuleText;
use std::alloc::Global;

/// The greatest number of bytes of a module's text.
pub const MAX_TEXT: usize = 1_048_576;

/// Where a text begins.
pub const FRONT: Span = Span {
    line: 1,
    col: 1,
    len: 0,
};

/// The tree of the text of the module of this name. Its first fault is told before another name
/// of its header.
pub fn tree_of_module(alloc: Global, asked: &Name, text: &[u8]) -> Result<ModuleText, TextError>
    ensures { Gives module_of result (tree_of_module asked.now text.now) }
{
    let tree = tree_of_text(alloc, text)?;
    has_name(asked, &tree)?;
    Ok(tree)
}

/// The tree of a text.
fn tree_of_text(alloc: Global, text: &[u8]) -> Result<ModuleText, TextError>
    ensures { Gives module_of result (tree_of_text text.now) }
{
    if text.len() > MAX_TEXT {
        return Err(too_long());
    }
    let tokens = tokens(alloc, text)?;
    let marks = marks(alloc, &tokens)?;
    tree(alloc, &marks)
}

/// The header has the name that was asked for, which is not Prim.
fn has_name(asked: &Name, tree: &ModuleText) -> Result<(), TextError>
    ensures { Gives nothing result (has_name asked.now (module_of tree.now)) }
{
    if is_asked(asked.as_str(), tree.name.as_str()) {
        return Ok(());
    }
    let detail = Detail::WrongModuleName {
        expected: asked.copy()?,
        found: tree.name.copy()?,
    };
    Err(TextError::Refused(tree.name_span, detail))
}

fn is_asked(asked: &str, name: &str) -> bool
    ensures { result ≡ is_asked asked.now name.now }
{
    name == asked && name != "Prim"
}

/// The text has more bytes than a module's may have.
fn too_long() -> TextError
    ensures { Says result reading.too_long }
{
    let detail = Detail::Limit {
        quantity: Quantity::TextBytes,
        count: Limits::standard().text_bytes + 1,
    };
    TextError::Refused(FRONT, detail)
}
