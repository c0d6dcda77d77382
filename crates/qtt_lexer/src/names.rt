//! What the parser asks of a name.

ghost use Rattle.std.specs.Prelude.{◌≡◌};
ghost use Rattle.qtt_lexer.specs.Names.{is_simple, is_big};

use qtt_base::Name;

/// Whether the text of a name has one part.
pub fn has_one_part(name: &str) -> bool
    ensures { result ≡ is_simple name.now }
{
    !name.as_bytes().contains(&b'.')
}

/// Whether a name has one part.
pub fn is_simple(name: &Name) -> bool
    ensures { result ≡ is_simple name.now }
{
    has_one_part(name.as_str())
}

/// Whether the last part of a name begins with one of `A` to `Z`.
pub fn is_big(name: &Name) -> bool
    ensures { result ≡ is_big name.now }
{
    let mut at_start = true;
    let mut big = false;
    for byte in name.as_str().as_bytes() {
        if *byte == b'.' {
            big = false;
        } else if at_start {
            big = byte.is_ascii_uppercase();
        }
        at_start = *byte == b'.';
    }
    big
}
