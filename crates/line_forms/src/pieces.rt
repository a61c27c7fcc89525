//! Reads words that stand for something.

ghost use Rattle.std.specs.Prelude.{◌≡◌, ◌↔◌, ◌≤◌, ℕ, IfSome, IsTrue, MatchOption, Some, false, true};
ghost use Rattle.std.specs.List.{list_all};
ghost use Rattle.std.specs.Char.{is_ascii_digit};
ghost use Rattle.chan_def.specs.declared.definition.ChanDef.{ChanDef};
ghost use Rattle.chan_flags.specs.Profiles.{has_some};
ghost use Rattle.line_forms.specs.Spelling.{IsChannelWord, IsHexWord, HasChannelNumber, IsSsid, IsWordForm, bands_of_word, code_of_word, is_hex_digit, is_iw_word, is_numeral, kind_of_word, number_within, radio_of_word, width_of_word};

use crate::words::{begins_number, is_word, number_of};
use chan_def::{ChanDef, Kind, Width, from_iw_word};
use chan_flags::Bands;
use freq_range::{Band, channel_khz};
use reg_hints::RadioNo;
use rule_tables::Alpha2;

/// Whether all bytes are digits.
fn are_digits(word: &[u8]) -> bool
    ensures { result ≡ list_all is_ascii_digit word.now }
{
    word.iter().all(|byte| byte.is_ascii_digit())
}

/// Whether the word is digits without a leading zero, of any value.
pub fn is_numeral(word: &[u8]) -> bool
    ensures { result ≡ is_numeral word.now }
{
    are_digits(word) && begins_number(word)
}

/// The number that the word spells, where it is from `least` to `most`.
#[tactic(auto, unfolding(crate::specs::Spelling::number_within))]
pub fn number_within(word: &[u8], least: u64, most: u64) -> Option<u64>
    ensures number { result ≡ number_within least most word.now }
    ensures some { IfSome result (λ n. least ≤ n) }
    ensures few { IfSome result (λ n. n ≤ most) }
{
    let number = number_of(word)?;
    if least <= number && number <= most {
        Some(number)
    } else {
        None
    }
}

/// The radio that the word names, `phy0` to `phy7`.
#[tactic(auto, unfolding(crate::specs::Spelling::radio_of_word))]
pub fn radio_of(word: &[u8]) -> Option<RadioNo>
    ensures { result ≡ radio_of_word word.now }
{
    let digits = word.strip_prefix(b"phy")?;
    let number = number_within(digits, 0, 7)?;
    RadioNo::new(number as u32)
}

/// The bands whose numbers the word lists, ascending and parted by commas.
#[tactic(auto, unfolding(crate::specs::Spelling::bands_of_word))]
pub fn bands_of(word: &[u8]) -> Option<Bands>
    ensures bands { result ≡ bands_of_word word.now }
    ensures some { IfSome result (λ bands. IsTrue (has_some bands)) }
{
    let (ghz2, ghz5, ghz6) = if is_word(word, b"2") {
        (true, false, false)
    } else if is_word(word, b"5") {
        (false, true, false)
    } else if is_word(word, b"6") {
        (false, false, true)
    } else if is_word(word, b"2,5") {
        (true, true, false)
    } else if is_word(word, b"2,6") {
        (true, false, true)
    } else if is_word(word, b"5,6") {
        (false, true, true)
    } else if is_word(word, b"2,5,6") {
        (true, true, true)
    } else {
        return None;
    };
    Some(Bands { ghz2, ghz5, ghz6 })
}

/// The code that the word is: two capital letters, or `00`.
#[tactic(auto, using(crate::proofs::Decided::steps), unfolding(crate::specs::Spelling::code_of_word))]
pub fn code_of(word: &[u8]) -> Option<Alpha2>
    ensures { result ≡ code_of_word word.now }
{
    let [a, b] = word else { return None };
    let code = Alpha2 { a: *a, b: *b };
    if code.is_code() { Some(code) } else { None }
}

/// The kind of an interface that the word names.
#[tactic(auto, unfolding(crate::specs::Spelling::kind_of_word))]
pub fn kind_of(word: &[u8]) -> Option<Kind>
    ensures { result ≡ kind_of_word word.now }
{
    if is_word(word, b"__ap") {
        Some(Kind::Ap)
    } else if is_word(word, b"ibss") {
        Some(Kind::Ibss)
    } else if is_word(word, b"adhoc") {
        Some(Kind::Ibss)
    } else if is_word(word, b"mesh") {
        Some(Kind::Mesh)
    } else if is_word(word, b"mp") {
        Some(Kind::Mesh)
    } else if is_word(word, b"managed") {
        Some(Kind::Station)
    } else if is_word(word, b"station") {
        Some(Kind::Station)
    } else if is_word(word, b"monitor") {
        Some(Kind::Monitor)
    } else {
        None
    }
}

/// The width of a channel that the word is, in MHz.
#[tactic(auto, unfolding(crate::specs::Spelling::width_of_word))]
pub fn width_of(word: &[u8]) -> Option<Width>
    ensures { result ≡ width_of_word word.now }
{
    if is_word(word, b"20") {
        Some(Width::W20)
    } else if is_word(word, b"40") {
        Some(Width::W40)
    } else if is_word(word, b"80") {
        Some(Width::W80)
    } else if is_word(word, b"160") {
        Some(Width::W160)
    } else if is_word(word, b"320") {
        Some(Width::W320)
    } else {
        None
    }
}

/// Whether the byte is a digit of hexadecimal.
fn is_hex_digit(byte: u8) -> bool
    ensures { result ≡ is_hex_digit byte }
{
    0x30 <= byte && byte <= 0x39 || 0x61 <= byte && byte <= 0x66 || 0x41 <= byte && byte <= 0x46
}

/// Whether all bytes are.
fn are_hex_digits(word: &[u8]) -> bool
    ensures { result ≡ list_all is_hex_digit word.now }
{
    word.iter().all(|byte| is_hex_digit(*byte))
}

/// Whether the word is 1 to 255 bytes in hexadecimal.
pub fn is_hex(word: &[u8]) -> bool
    ensures { IsTrue result ↔ IsHexWord word.now }
{
    2 <= word.len() && word.len() <= 510 && word.len() % 2 == 0 && are_hex_digits(word)
}

/// Whether the word has 1 to 32 bytes.
pub fn is_ssid(word: &[u8]) -> bool
    ensures { IsTrue result ↔ IsSsid word.now }
{
    1 <= word.len() && word.len() <= 32
}

/// The word of iw for a channel that the word is.
#[tactic(auto, unfolding(crate::specs::Spelling::is_iw_word))]
fn iw_word(word: &[u8]) -> Option<&'static str>
    ensures { MatchOption result (is_iw_word word.now ≡ false) (λ text. (text.now ≡ word.now) × (is_iw_word word.now ≡ true)) }
{
    if is_word(word, b"NOHT") {
        Some("NOHT")
    } else if is_word(word, b"HT20") {
        Some("HT20")
    } else if is_word(word, b"HT40+") {
        Some("HT40+")
    } else if is_word(word, b"HT40-") {
        Some("HT40-")
    } else if is_word(word, b"80MHz") {
        Some("80MHz")
    } else if is_word(word, b"160MHz") {
        Some("160MHz")
    } else {
        None
    }
}

/// Whether the word is one of the six words of iw for a channel.
pub fn is_iw_word(word: &[u8]) -> bool
    ensures { result ≡ is_iw_word word.now }
{
    match iw_word(word) {
        Some(_) => true,
        None => false,
    }
}

/// The channel round this control channel, in kHz, that the word of iw names, where its centre is
/// from 1 to 100,000 MHz.
pub fn channel_by_word(control_khz: u32, word: &[u8]) -> Option<ChanDef>
    ensures { MatchOption result ((c : ChanDef) → IsWordForm control_khz word.now c → ⊥) (IsWordForm control_khz word.now) }
{
    let text = iw_word(word)?;
    let c = from_iw_word(control_khz, text)?;
    if 1_000 <= c.centre_khz && c.centre_khz <= 100_000_000 {
        Some(c)
    } else {
        None
    }
}

/// The centre, in kHz, of the channel of this number: 1 to 14 in 2.4 GHz, others in 5 GHz.
fn channel_numbered(number: u8) -> Option<u32>
    ensures { MatchOption result ((khz : ℕ) → HasChannelNumber number khz → ⊥) (HasChannelNumber number) }
{
    if number <= 14 {
        channel_khz(Band::Ghz2, number)
    } else {
        channel_khz(Band::Ghz5, number)
    }
}

/// The centre, in kHz, of the channel whose number the word spells: 1 to 14 in 2.4 GHz, others in 5 GHz.
pub fn channel_by_number(word: &[u8]) -> Option<u32>
    ensures { MatchOption result ((khz : ℕ) → IsChannelWord word.now khz → ⊥) (IsChannelWord word.now) }
{
    let number = number_within(word, 1, 255)?;
    let khz = channel_numbered(number as u8)?;
    Some(khz)
}
