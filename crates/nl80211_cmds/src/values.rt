//! Values that attributes say.

ghost use Rattle.std.specs.Prelude.{◌≡◌, ℕ, ◌<◌, ◌^◌, Bool, List, MatchOption, IfSome, Some};
ghost use Rattle.std.specs.Option.{option_copied};
ghost use Rattle.nl_attrs.specs.Endian.{le32};
ghost use Rattle.chan_def.specs.declared.kind.Kind.{Kind};
ghost use Rattle.rule_tables.specs.declared.code.Alpha2.{Alpha2};
ghost use Rattle.nl80211_cmds.specs.Values.{payload_of, iftype_number, TellsNumber, TellsName, TellsCode, TellsKind, TellsMoment, TellsSwitch, TellsBody};

use chan_def::Kind;
use nl_attrs::{Attr, text_of, u8_of, u32_of, u64_of};
use radio_drv::Name;
use reg_hints::RadioNo;
use rule_tables::Alpha2;

/// The most bytes of a country element's body.
const MOST_BODY: usize = 255;

/// The payload of the last attribute of this kind.
pub fn payload_of(attrs: &[Attr], kind: u16) -> Option<&[u8]>
    ensures { option_copied result ≡ payload_of kind attrs.now }
{
    match attrs.iter().rev().find(|attr| attr.kind == kind) {
        Some(attr) => Some(attr.payload.as_slice()),
        None => None,
    }
}

/// The number, where it is in this range.
pub fn number_in(payload: Option<&[u8]>, least: u32, most: u32) -> Option<u32>
    ensures number { MatchOption result ((n : ℕ) → TellsNumber (option_copied payload.entry) least most n → ⊥)
        (λ n. TellsNumber (option_copied payload.entry) least most n) }
    ensures only { IfSome result (λ n. (m : ℕ) → TellsNumber (option_copied payload.entry) least most m → m ≡ n) }
{
    let number = u32_of(payload?)?;
    if least <= number && number <= most {
        Some(number)
    } else {
        None
    }
}

/// The number of a radio.
pub fn radio_in(payload: Option<&[u8]>) -> Option<RadioNo>
    ensures { MatchOption result ((n : ℕ) → TellsNumber (option_copied payload.entry) 0 7 n → ⊥)
        (λ n. TellsNumber (option_copied payload.entry) 0 7 n) }
{
    let number = number_in(payload, 0, 7)?;
    RadioNo::new(number)
}

/// The name of an interface.
pub fn name_in(payload: Option<&[u8]>) -> Option<Name>
    ensures { MatchOption result ((name : List ℕ) → TellsName (option_copied payload.entry) name → ⊥)
        (λ name. TellsName (option_copied payload.entry) name) }
{
    let text = text_of(payload?)?;
    let name = Name::new(text)?;
    // Its clause says that these are the bytes of a name.
    let _bytes = name.as_bytes();
    Some(name)
}

/// A country's code.
pub fn code_in(payload: Option<&[u8]>) -> Option<Alpha2>
    ensures { MatchOption result ((code : Alpha2) → TellsCode (option_copied payload.entry) code → ⊥)
        (λ code. TellsCode (option_copied payload.entry) code) }
{
    let text = text_of(payload?)?;
    let &[a, b] = text else {
        return None;
    };
    let code = Alpha2 { a, b };
    if code.is_code() { Some(code) } else { None }
}

/// The kind with this number.
fn kind_numbered(number: u32) -> Option<Kind>
    ensures { MatchOption result ((kind : Kind) → iftype_number kind ≡ number → ⊥)
        (λ kind. iftype_number kind ≡ number) }
{
    match number {
        1 => Some(Kind::Ibss),
        2 => Some(Kind::Station),
        3 => Some(Kind::Ap),
        6 => Some(Kind::Monitor),
        7 => Some(Kind::Mesh),
        _ => None,
    }
}

/// The kind of an interface.
pub fn kind_in(payload: Option<&[u8]>) -> Option<Kind>
    ensures { MatchOption result ((kind : Kind) → TellsKind (option_copied payload.entry) kind → ⊥)
        (λ kind. TellsKind (option_copied payload.entry) kind) }
{
    let number = number_in(payload, 0, 7)?;
    kind_numbered(number)
}

/// A moment, in ms.
pub fn moment_in(payload: Option<&[u8]>) -> Option<u64>
    ensures { MatchOption result ((moment : ℕ) → TellsMoment (option_copied payload.entry) moment → ⊥)
        (λ moment. TellsMoment (option_copied payload.entry) moment) }
{
    u64_of(payload?)
}

/// Whether something holds.
pub fn switch_in(payload: Option<&[u8]>) -> Option<bool>
    ensures { MatchOption result ((on : Bool) → TellsSwitch (option_copied payload.entry) on → ⊥)
        (λ on. TellsSwitch (option_copied payload.entry) on) }
{
    match u8_of(payload?)? {
        0 => Some(false),
        1 => Some(true),
        _ => None,
    }
}

/// The body of a country element.
pub fn body_in(payload: Option<&[u8]>) -> Option<&[u8]>
    ensures { MatchOption result ((body : List ℕ) → TellsBody (option_copied payload.entry) body → ⊥)
        (λ body. TellsBody (option_copied payload.entry) body.now) }
{
    let body = payload?;
    if body.is_empty() || body.len() > MOST_BODY {
        None
    } else {
        Some(body)
    }
}
