//! Numbers in words.

ghost use Rattle.std.specs.Prelude.{◌≡◌};
ghost use Rattle.std.specs.Char.{is_ascii_digit};
ghost use Rattle.std.specs.List.{list_all};
ghost use Rattle.qtt_words.specs.Asked.{number};

/// The number that a text writes with at most so many digits, where it is from 1 to `most`. The
/// standard parser alone would take a sign.
pub fn number(text: &str, digits: usize, most: u64) -> Option<u64>
    ensures { result ≡ number digits most text.now }
{
    if text.len() > digits || !are_digits(text.as_bytes()) {
        return None;
    }
    match text.parse::<u64>() {
        Ok(number) => (1..=most).contains(&number).then_some(number),
        Err(_) => None,
    }
}

fn are_digits(text: &[u8]) -> bool
    ensures { result ≡ list_all is_ascii_digit text.now }
{
    text.iter().all(|b| b.is_ascii_digit())
}
