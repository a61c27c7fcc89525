//! Interfaces.

ghost use Rattle.std.specs.Prelude.{◌≡◌, ◌&&◌, find, not, ◌==◌, ◌↔◌, ◌<◌, ◌≤◌, ℕ, Bool, [], ◌∷◌, ◌++◌, length, map, filter, unwrap_or, IfSome, IsTrue, OnOk, OnErr};
ghost use Rattle.std.specs.List.{list_any};
ghost use Rattle.std.specs.Option.{option_copied, option_map};
ghost use Rattle.reg_books.specs.Slots.{numbers};
ghost use Rattle.core_parts.specs.Interfaces.{is_on_radio, interface_named, interfaces_on, running_with_power, slot_on};
ghost use Rattle.reg_base.specs.Texts.{same_bytes};

use chan_def::{ChanDef, Kind};
use chan_flags::PowerSetting;
use dfs_states::IfSlot;
use radio_drv::Name;
use reg_hints::RadioNo;

/// An operation.
#[derive(Clone, Copy, Debug, PartialEq, Eq)]
pub struct Running {
    pub chan: ChanDef,
    /// In mBm.
    pub power_mbm: u16,
}

/// An interface that is there.
#[derive(Clone, Copy, Debug)]
pub struct Interface {
    pub index: u32,
    pub name: Name,
    pub radio: RadioNo,
    /// Where its radio's book keeps its check.
    pub slot: IfSlot,
    pub kind: Kind,
    pub setting: PowerSetting,
    pub operation: Option<Running>,
}

impl Interface {
    /// Whether it has the name.
    pub fn has_name(&self, name: &Name) -> bool
        ensures { result ≡ same_bytes self.now.name name.now }
    {
        self.name.is_same(name)
    }

    /// Whether it is one of the radio's.
    pub fn is_on(&self, radio: RadioNo) -> bool
        ensures { result ≡ is_on_radio radio self.now }
    {
        self.radio.is_same(&radio)
    }
}

/// The operation, if there is one, with this power, in mBm.
pub(crate) fn repowered(operation: Option<Running>, power_mbm: u16) -> Option<Running>
    ensures { result ≡ option_map (running_with_power power_mbm) operation }
{
    match operation {
        Some(operation) => Some(Running {
            power_mbm,
            ..operation
        }),
        None => None,
    }
}

/// The interface of this name.
pub fn interface_named<'a>(interfaces: &'a [Interface], name: &Name) -> Option<&'a Interface>
    ensures { option_copied result ≡ interface_named interfaces.now name.now }
{
    interfaces.iter().find(|interface| interface.has_name(name))
}

/// How many of the interfaces are the radio's.
pub fn count_on(interfaces: &[Interface], radio: RadioNo) -> usize
    ensures { result ≡ length (interfaces_on interfaces.now radio) }
{
    interfaces
        .iter()
        .filter(|interface| interface.is_on(radio))
        .count()
}

/// Whether the interface is the radio's and has the slot of this number.
fn has_slot(interface: &Interface, radio: RadioNo, slot: u8) -> bool
    ensures { result ≡ (is_on_radio radio interface.now && interface.now.slot == slot) }
{
    interface.is_on(radio) && interface.slot.get() == slot
}

/// Whether one of the radio's interfaces has the slot of this number.
fn is_taken(interfaces: &[Interface], radio: RadioNo, slot: u8) -> bool
    ensures { result ≡ list_any (λ p. is_on_radio radio p && p.slot == slot) interfaces.now }
{
    interfaces
        .iter()
        .any(|interface| has_slot(interface, radio, slot))
}

/// The number of the least slot that none of the radio's interfaces has.
fn free_number(interfaces: &[Interface], radio: RadioNo) -> Option<u8>
    ensures number { result ≡ find (λ n. not (list_any (λ m. m == n) (map (λ p. p.slot) (interfaces_on interfaces.now radio)))) (numbers 0 8) }
    ensures small { IfSome result (λ n. n ≤ 7) }
{
    for number in 0..8 {
        if !is_taken(interfaces, radio, number) {
            return Some(number);
        }
    }
    None
}

/// The slot of the number, or the first one without a number.
fn slot_or_first(number: Option<u8>) -> IfSlot
    requires small { IfSome number (λ n. n ≤ 7) }
    ensures { result ≡ unwrap_or number 0 }
{
    match IfSlot::new(number.unwrap_or(0)) {
        Some(slot) => slot,
        None => unreachable!(),
    }
}

/// The least slot that none of the radio's interfaces has, or the first where each is taken.
pub fn free_slot_on(interfaces: &[Interface], radio: RadioNo) -> IfSlot
    ensures { result ≡ slot_on interfaces.now radio }
{
    slot_or_first(free_number(interfaces, radio))
}
