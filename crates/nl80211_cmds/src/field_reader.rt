//! Reads what the attributes of a command say.

ghost use Rattle.std.specs.Prelude.{◌≡◌, MatchOption, MatchResult};
ghost use Rattle.chan_def.specs.declared.definition.ChanDef.{ChanDef};
ghost use Rattle.chan_def.specs.declared.width.Width.TheVariants.{Noht};
ghost use Rattle.nl80211_cmds.specs.Values.{payload_of, TellsChan};
ghost use Rattle.nl80211_cmds.specs.declared.fault.FieldFault.TheVariants as field_faults;
ghost use Rattle.nl80211_cmds.specs.Fields.{FieldTells, FieldsTell};
ghost use Rattle.nl80211_cmds.specs.inner.Reading.{IsFieldFault, IsFieldsFault};
ghost use Rattle.nl80211_cmds.specs.declared.draft.Draft.{Draft};

use crate::chan_reader::{chan_in, power_in};
use crate::draft::Draft;
use crate::fault::FieldFault;
use crate::field::Field;
use crate::profile_reader::profile_in;
use crate::rule_reader::rules_in;
use crate::values::{
    body_in, code_in, kind_in, moment_in, name_in, payload_of, radio_in, switch_in,
};
use chan_def::{ChanDef, Width};
use nl_attrs::Attr;

/// The channel that attributes of these kinds say.
fn chan_under(attrs: &[Attr], frequency: u16, width: u16, centre: u16) -> Option<ChanDef>
    ensures { MatchOption result
        ((c : ChanDef) → TellsChan (payload_of frequency attrs.now) (payload_of width attrs.now) (payload_of centre attrs.now) c → ⊥)
        (λ c. TellsChan (payload_of frequency attrs.now) (payload_of width attrs.now) (payload_of centre attrs.now) c) }
{
    chan_in(
        payload_of(attrs, frequency),
        payload_of(attrs, width),
        payload_of(attrs, centre),
    )
}

/// The same, without the modes of 802.11n and later.
fn plain_chan_under(attrs: &[Attr], frequency: u16, width: u16, centre: u16) -> Option<ChanDef>
    ensures { MatchOption result
        ((c : ChanDef) → TellsChan (payload_of frequency attrs.now) (payload_of width attrs.now) (payload_of centre attrs.now) c → c.width ≡ Noht → ⊥)
        (λ c. TellsChan (payload_of frequency attrs.now) (payload_of width attrs.now) (payload_of centre attrs.now) c × (c.width ≡ Noht)) }
{
    let chan = chan_under(attrs, frequency, width, centre)?;
    match chan.width {
        Width::Noht => Some(chan),
        _ => None,
    }
}

/// The value, which has to be there.
fn needed<T>(value: Option<T>) -> Result<T, FieldFault>
    ensures { MatchOption value (result ≡ Err field_faults.Malformed) (λ x. result ≡ Ok x) }
{
    match value {
        Some(value) => Ok(value),
        None => Err(FieldFault::Malformed),
    }
}

/// Takes what the attributes say of the field. A fault changes nothing but the body.
pub fn take_field(field: Field, attrs: &[Attr], draft: &mut Draft) -> Result<(), FieldFault>
    ensures { MatchResult result (λ _. FieldTells field attrs.now draft.old draft.new)
        (λ fault. IsFieldFault field attrs.now draft.old fault) }
{
    match field {
        Field::Radio(kind) => draft.radio = needed(radio_in(payload_of(attrs, kind)))?,
        Field::Name(kind) => draft.name = needed(name_in(payload_of(attrs, kind)))?,
        Field::Kind(kind) => draft.kind = needed(kind_in(payload_of(attrs, kind)))?,
        Field::Code(kind) => draft.alpha2 = needed(code_in(payload_of(attrs, kind)))?,
        Field::Chan(frequency, width, centre) => {
            match chan_under(attrs, frequency, width, centre) {
                Some(chan) => draft.chan = chan,
                None => return Err(FieldFault::Malformed),
            }
        }
        Field::PlainChan(frequency, width, centre) => {
            match plain_chan_under(attrs, frequency, width, centre) {
                Some(chan) => draft.chan = chan,
                None => return Err(FieldFault::Malformed),
            }
        }
        Field::Power(setting, level) => {
            let power = power_in(payload_of(attrs, setting), payload_of(attrs, level));
            draft.setting = needed(power)?;
        }
        Field::Moment(kind) => draft.moment = needed(moment_in(payload_of(attrs, kind)))?,
        Field::Switch(kind) => draft.on = needed(switch_in(payload_of(attrs, kind)))?,
        Field::Profile => draft.profile = needed(profile_in(attrs))?,
        Field::Rules(kind) => {
            match rules_in(draft.rules.allocator(), payload_of(attrs, kind)) {
                Ok(rules) => draft.rules = rules,
                Err(fault) => return Err(fault),
            }
        }
        Field::Body(kind) => {
            let body = needed(body_in(payload_of(attrs, kind)))?;
            draft.body.clear();
            draft.body.append(body)?;
        }
    }
    Ok(())
}

/// Takes what the attributes say of each of the fields. After a fault a part of it may be taken.
pub fn read_fields(fields: &[Field], attrs: &[Attr], draft: &mut Draft) -> Result<(), FieldFault>
    ensures { MatchResult result (λ _. FieldsTell fields.now attrs.now draft.old draft.new)
        (λ fault. IsFieldsFault fields.now attrs.now draft.old fault) }
{
    for field in fields {
        take_field(*field, attrs, draft)?;
    }
    Ok(())
}
