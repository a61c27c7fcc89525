//! Effects as attributes.

ghost use Rattle.std.specs.Prelude.{◌≡◌, ◌≤◌, ◌<◌, ◌++◌, ◌∷◌, [], length, map, OnOk};
ghost use Rattle.nl_attrs.specs.Attributes.{attr_bytes, attrs_bytes};
ghost use Rattle.nl_attrs.specs.Payloads.{attr_with, payload_bytes};
ghost use Rattle.nl80211_replies.specs.Plain.{effect_attr, effect_code, effect_list, effect_name};

use crate::attribute::{CODE, EFFECT, NAME, NUMBER};
use nl_attrs::{Attr, AttrList, EncodeFault, Payload, put_plain};
use radio_drv::Name;
use reg_base::Bytes;
use reg_journal::Effect;
use reg_lists::OutOfMemory;

/// Writes an attribute behind what the buffer holds. Its payload is short.
fn put_short(out: &mut Bytes, kind: u16, payload: Payload<'_>) -> Result<(), OutOfMemory>
    requires kind { kind < 16384 }
    requires short { length (payload_bytes payload) ≤ 65531 }
    ensures { OnOk result (out.new ≡ out.old ++ attr_bytes (attr_with kind payload.entry)) }
{
    match put_plain(out, kind, payload) {
        Ok(()) => Ok(()),
        Err(EncodeFault::OutOfMemory) => Err(OutOfMemory),
        Err(EncodeFault::Overlong(_)) => unreachable!(),
    }
}

/// The code of an effect.
fn effect_code(effect: &Effect) -> u32
    ensures { result ≡ effect_code effect.now }
{
    match effect {
        Effect::Stopped(_) => 0,
        Effect::Dropped(_) => 1,
        Effect::Power(_, _) => 2,
    }
}

/// The interface that an effect came to.
fn effect_name(effect: &Effect) -> &Name
    ensures { result.now ≡ effect_name effect.now }
{
    match effect {
        Effect::Stopped(name) | Effect::Dropped(name) | Effect::Power(name, _) => name,
    }
}

/// Writes what an effect tells behind what the buffer holds.
fn put_effect(out: &mut Bytes, effect: &Effect) -> Result<(), OutOfMemory>
    ensures { OnOk result (out.new ≡ out.old ++ attrs_bytes (effect_list effect.now)) }
{
    put_short(out, CODE, Payload::U32(effect_code(effect)))?;
    put_short(out, NAME, Payload::Text(effect_name(effect).as_bytes()))?;
    match effect {
        Effect::Power(_, power) => put_short(out, NUMBER, Payload::U64(u64::from(*power))),
        Effect::Stopped(_) | Effect::Dropped(_) => Ok(()),
    }
}

/// Appends an effect.
fn push_effect(out: &mut AttrList, effect: &Effect) -> Result<(), OutOfMemory>
    ensures { OnOk result (out.new ≡ out.old ++ effect_attr effect.now ∷ []) }
{
    let mut payload = Bytes::new(out.allocator());
    put_effect(&mut payload, effect)?;
    out.push(Attr {
        kind: EFFECT,
        nested: true,
        payload,
    })
}

/// Appends effects, in their order. After `OutOfMemory` a part of them may be there.
pub fn push_effects(out: &mut AttrList, effects: &[Effect]) -> Result<(), OutOfMemory>
    ensures { OnOk result (out.new ≡ out.old ++ map effect_attr effects.now) }
{
    for effect in effects {
        push_effect(out, effect)?;
    }
    Ok(())
}
