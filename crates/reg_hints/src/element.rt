//! The country element that a radio receives.

ghost use Rattle.std.specs.Prelude.{◌≡◌, MatchResult};
ghost use Rattle.reg_hints.specs.Element.{IsElement, IsElementFault};

use rule_tables::Alpha2;

/// What a country element says (`WLAN_EID_COUNTRY`).
#[derive(Clone, Copy, Debug, PartialEq, Eq)]
pub struct Element {
    pub alpha2: Alpha2,
    /// The third byte of its text: indoors, outdoors, or both (`enum environment_cap`).
    pub environment: u8,
}

/// What is wrong with the body of a country element.
#[derive(Clone, Copy, Debug, PartialEq, Eq)]
pub enum ElementFault {
    /// It has so many bytes, fewer than 6.
    Short(usize),
    /// It has so many bytes, an odd number.
    Odd(usize),
    /// One of its first two bytes is no capital letter.
    NotLetters,
}

/// Reads the body of a country element (`regulatory_hint_country_ie`), or the first of `Short`,
/// `Odd`, `NotLetters` that applies.
pub fn read_country_element(body: &[u8]) -> Result<Element, ElementFault>
    ensures element { MatchResult result (IsElement body.now) (IsElementFault body.now) }
{
    if body.len() < 6 {
        return Err(ElementFault::Short(body.len()));
    }
    if body.len() % 2 != 0 {
        return Err(ElementFault::Odd(body.len()));
    }
    if !(body[0].is_ascii_uppercase() && body[1].is_ascii_uppercase()) {
        return Err(ElementFault::NotLetters);
    }
    Ok(Element {
        alpha2: Alpha2 {
            a: body[0],
            b: body[1],
        },
        environment: body[2],
    })
}
