//! Reads bytes and words of a line that is squeezed.

ghost use Rattle.std.specs.Prelude.{◌≡◌, ◌<◌, length, IfSome, MatchOption};
ghost use Rattle.reg_base.specs.Texts.{same_bytes};
ghost use Rattle.text_lines.specs.inner.Reading.{after_byte, after_word, behind_digits, behind_of, front_of, digits_of, digits_at, begins_with, titled_at};

use memchr::memchr;

/// What is behind the byte, where it stands first.
#[tactic(auto, unfolding(crate::specs::inner::Reading::after_byte))]
pub fn after_byte(bytes: &[u8], byte: u8) -> Option<&[u8]>
    ensures { MatchOption result (after_byte byte bytes.now ≡ None) (λ rest. after_byte byte bytes.now ≡ Some rest.now) }
{
    match bytes {
        [first, rest @ ..] if *first == byte => Some(rest),
        _ => None,
    }
}

/// What is behind the word, where it stands first.
#[tactic(auto, using(crate::proofs::Words::steps))]
pub fn after_word<'a>(bytes: &'a [u8], word: &[u8]) -> Option<&'a [u8]>
    ensures { MatchOption result (after_word word.now bytes.now ≡ None) (λ rest. after_word word.now bytes.now ≡ Some rest.now) }
{
    let mut rest = bytes;
    for byte in word {
        rest = after_byte(rest, *byte)?;
    }
    Some(rest)
}

/// Whether the word stands first.
pub fn begins_with(bytes: &[u8], word: &[u8]) -> bool
    ensures { result ≡ begins_with word.now bytes.now }
{
    after_word(bytes, word).is_some()
}

/// Whether the bytes are the word.
pub fn is_word(bytes: &[u8], word: &[u8]) -> bool
    ensures { result ≡ same_bytes bytes.now word.now }
{
    bytes == word
}

/// What stands before the first such byte, and what is behind it, if there is one.
#[tactic(auto, using(crate::proofs::Cuts::cut_steps))]
pub fn cut_at(bytes: &[u8], byte: u8) -> (&[u8], Option<&[u8]>)
    ensures front { result.0.now ≡ front_of byte bytes.now }
    ensures behind { MatchOption result.1 (behind_of byte bytes.now ≡ None) (λ rest. behind_of byte bytes.now ≡ Some rest.now) }
    ensures shorter { IfSome result.1 (λ rest. length rest.now < length bytes.now) }
{
    match memchr(byte, bytes) {
        Some(place) => (&bytes[..place], Some(&bytes[place + 1..])),
        None => (bytes, None),
    }
}

/// What stands between the word and the first colon, and what is behind the colon.
#[tactic(auto, unfolding(crate::specs::inner::Reading::titled_at))]
pub fn titled_at<'a>(bytes: &'a [u8], word: &[u8]) -> Option<(&'a [u8], &'a [u8])>
    ensures { MatchOption result (titled_at word.now bytes.now ≡ None) (λ x. titled_at word.now bytes.now ≡ Some (x.0.now, x.1.now)) }
{
    let rest = after_word(bytes, word)?;
    let (title, behind) = cut_at(rest, b':');
    let behind = behind?;
    Some((title, behind))
}

/// The digits that stand first, perhaps none, and what is behind them.
#[tactic(auto, using(crate::proofs::Digits::steps))]
fn split_digits(bytes: &[u8]) -> (&[u8], &[u8])
    ensures digits { result.0.now ≡ digits_of bytes.now }
    ensures behind { result.1.now ≡ behind_digits bytes.now }
{
    for (i, byte) in bytes.iter().enumerate() {
        if !byte.is_ascii_digit() {
            return (&bytes[..i], &bytes[i..]);
        }
    }
    (bytes, &[])
}

/// The digits that stand first, one at least, and what is behind them.
#[tactic(auto, unfolding(crate::specs::inner::Reading::digits_at))]
pub fn number_at(bytes: &[u8]) -> Option<(&[u8], &[u8])>
    ensures { MatchOption result (digits_at bytes.now ≡ None) (λ x. digits_at bytes.now ≡ Some (x.0.now, x.1.now)) }
{
    let (digits, rest) = split_digits(bytes);
    if digits.is_empty() {
        None
    } else {
        Some((digits, rest))
    }
}
