//! What comes to an interface.

ghost use Rattle.std.specs.Prelude.{◌≡◌, [], ◌<◌, ◌≤◌, ◌++◌, length};
ghost use Rattle.std.specs.List.{filter_map};
ghost use Rattle.std.specs.Option.{option_to_list};
ghost use Rattle.reg_journal.specs.declared.effects.TheConstants.{MOST_EFFECTS};
ghost use Rattle.core_parts.specs.Changes.{effect_in};

use crate::interface::Interface;
use chan_def::Kind;
use chan_flags::PowerSetting;
use dfs_states::IfSlot;
use radio_drv::Name;
use reg_hints::RadioNo;
use reg_journal::{Effect, Effects, MOST_EFFECTS};
use reg_lists::Few;

/// What comes to an interface.
#[derive(Clone, Copy, Debug)]
pub enum Change {
    /// Its operation stops.
    Stopped(Interface),
    /// Its operation goes on with this power, in mBm.
    Powered(Interface, u16),
    /// Its check is dropped.
    Dropped(Interface),
    /// It goes.
    Ended(Interface),
}

/// As many changes as effects at most, in order.
pub type Changes = Few<Change, MOST_EFFECTS>;

impl Change {
    /// What a reply tells of it.
    fn effect(&self) -> Option<Effect>
        ensures { result ≡ effect_in self.now }
    {
        match self {
            Change::Stopped(interface) => Some(Effect::Stopped(interface.name)),
            Change::Powered(interface, power_mbm) => {
                Some(Effect::Power(interface.name, *power_mbm))
            }
            Change::Dropped(interface) => Some(Effect::Dropped(interface.name)),
            Change::Ended(_interface) => None,
        }
    }
}

/// Stands in the places that hold no change.
fn filler() -> Interface {
    let (Some(name), Some(radio), Some(slot)) = (Name::new(b"-"), RadioNo::new(0), IfSlot::new(0))
    else {
        unreachable!();
    };
    Interface {
        index: 0,
        name,
        radio,
        slot,
        kind: Kind::Monitor,
        setting: PowerSetting::Auto,
        operation: None,
    }
}

/// No changes.
pub fn no_changes() -> Changes
    ensures { result ≡ [] }
{
    Changes::new(Change::Stopped(filler()))
}

/// Adds the change, if there is one.
pub fn add_change(changes: &mut Changes, change: Option<Change>)
    requires room { length changes.old < MOST_EFFECTS }
    ensures { changes.new ≡ changes.old ++ option_to_list change }
{
    if let Some(change) = change {
        let _has_room = changes.push(change);
    }
}

/// Adds the effect of the change.
fn add_effect(effects: &mut Effects, change: &Change)
    requires room { length effects.old < MOST_EFFECTS }
    ensures { effects.new ≡ effects.old ++ option_to_list (effect_in change.now) }
{
    if let Some(effect) = change.effect() {
        let _has_room = effects.push(effect);
    }
}

/// The effects of the changes, in their order.
pub fn effects_of(changes: &[Change]) -> Effects
    requires few { length changes.now ≤ MOST_EFFECTS }
    ensures { result ≡ filter_map effect_in changes.now }
{
    let mut effects = Effects::new();
    for change in changes {
        add_effect(&mut effects, change);
    }
    effects
}
