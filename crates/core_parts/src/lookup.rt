//! An interface and its radio.

ghost use Rattle.std.specs.Prelude.{List, MatchResult};
ghost use Rattle.rule_tables.specs.declared.domain.Domain.{Domain};
ghost use Rattle.reg_journal.specs.Facts.{Journal};
ghost use Rattle.reg_journal.specs.Refusals.{LacksIface};
ghost use Rattle.core_parts.specs.Reading.{AreKeptParts, HasNamedIface};

use crate::interface::{Interface, interface_named};
use crate::radio::{Radio, RadioPlace};
use crate::radios::radio_at;
use radio_drv::Name;
use reg_journal::Refusal;

/// The interface of this name, and its radio, which is there. `NoInterface` where there is none.
pub fn with_radio<'a>(
    interfaces: &'a [Interface],
    radios: &'a [RadioPlace],
    name: &Name,
) -> Result<(&'a Interface, &'a Radio), Refusal>
    ensures { (db : List Domain) (J : Journal) → AreKeptParts db J interfaces.now radios.now
        → MatchResult result (λ p. HasNamedIface db J name.now p.0.now p.1.now) (LacksIface J name.now) }
{
    let Some(interface) = interface_named(interfaces, name) else {
        return Err(Refusal::NoInterface(*name));
    };
    match radio_at(radios, interface.radio) {
        Some(radio) => Ok((interface, radio)),
        None => Err(Refusal::NoRadio(interface.radio)),
    }
}
