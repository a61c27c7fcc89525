//! Effects by what a message says of them.

ghost use Rattle.std.specs.Prelude.{◌≡◌, ◌<◌, ◌≤◌, ◌++◌, List, All, IfOk, length, map};
ghost use Rattle.reg_journal.specs.declared.effects.Effect.{Effect};
ghost use Rattle.reg_journal.specs.declared.effects.TheConstants.{MOST_EFFECTS};
ghost use Rattle.reg_journal.specs.declared.reply.Answer.{Answer};
ghost use Rattle.nl80211_replies.specs.Plain.{answer_attrs, effect_attr, effect_list};
ghost use Rattle.reply_reading.specs.Typed.{IsTypedEffect};
ghost use Rattle.reply_reading.specs.inner.Reading.{Undoes, effect_payload, payload_in};
ghost use Rattle.reply_reading.specs.inner.Refusals.{effect_told};

use crate::narrow::narrow16;
use crate::payloads::{attrs_from, held_in, is_plain_at, name_at, number_at, wide_at};
use nl_attrs::Attr;
use radio_drv::Name;
use reg_journal::{Effect, Effects};
use reg_lists::OutOfMemory;
use std::alloc::Global;

/// The effect with this code.
fn effect_told(code: u32, name: Name, power: u64) -> Effect
    ensures { result ≡ effect_told code name power }
{
    match code {
        0 => Effect::Stopped(name),
        1 => Effect::Dropped(name),
        _ => Effect::Power(name, narrow16(power)),
    }
}

/// The effect that the attributes tell.
fn effect_in(held: &[Attr]) -> Effect
    ensures { Undoes IsTypedEffect effect_list held.now result }
{
    effect_told(number_at(held, 0), name_at(held, 1), wide_at(held, 2))
}

/// The attributes of effects: those behind the attributes of the answer, which has one or two.
pub fn effect_attrs(attrs: &[Attr]) -> &[Attr]
    ensures { (answer : Answer) (effects : List Effect) → attrs.now ≡ answer_attrs answer ++ map effect_attr effects
        → result.now ≡ map effect_attr effects }
{
    if is_plain_at(attrs, 1) {
        attrs_from(attrs, 2)
    } else {
        attrs_from(attrs, 1)
    }
}

/// The effects that the attributes hold, at most 64.
pub fn effects_in(alloc: Global, attrs: &[Attr]) -> Result<Effects, OutOfMemory>
    ensures { IfOk result (λ effects. (told : List Effect) → length told ≤ MOST_EFFECTS → All IsTypedEffect told
        → map payload_in attrs.now ≡ map effect_payload told → effects ≡ told) }
{
    let mut effects = Effects::new();
    for attr in attrs {
        let held = held_in(alloc, attr.payload.as_slice())?;
        let _has_room = effects.push(effect_in(held.as_slice()));
    }
    Ok(effects)
}
