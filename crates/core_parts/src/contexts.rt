//! The channels that a radio is on at once.

ghost use Rattle.std.specs.Prelude.{◌≡◌, ◌∷◌, ◌<◌, ◌↔◌, List, IsTrue, length};
ghost use Rattle.rule_tables.specs.declared.domain.Domain.{Domain};
ghost use Rattle.reg_journal.specs.Facts.{Journal};
ghost use Rattle.reg_journal.specs.Permits.{channel_of, channels_beside, distinct};
ghost use Rattle.reg_journal.specs.Present.{Iface};
ghost use Rattle.core_parts.specs.Contexts.{IsBeside, IsOf, channel_beside, checked_channel};
ghost use Rattle.core_parts.specs.Judging.{IsAmong};

use crate::chan_set::{add, only};
use crate::interface::Interface;
use crate::radio::Radio;
use chan_def::ChanDef;
use dfs_states::DfsBook;

/// The channel that the interface is on: that of its operation, or else of its running check.
pub fn channel_of(interface: &Interface, book: &DfsBook) -> Option<ChanDef>
    ensures { (db : List Domain) (J : Journal) (x : Iface) → IsOf db J x book.now interface.now → result ≡ channel_of J x }
{
    match interface.operation {
        Some(operation) => Some(operation.chan),
        None => checked_channel(book, interface),
    }
}

/// The channel of the interface's running check.
pub fn checked_channel(book: &DfsBook, interface: &Interface) -> Option<ChanDef>
    ensures { (db : List Domain) (J : Journal) (x : Iface) → IsOf db J x book.now interface.now → result ≡ checked_channel J x }
{
    match book.running(interface.slot) {
        Some((chan, _end)) => Some(chan),
        None => None,
    }
}

/// The channel that the other interface is on, where it is another one of the interface's radio.
fn channel_beside(interface: &Interface, other: &Interface, book: &DfsBook) -> Option<ChanDef>
    ensures { (db : List Domain) (J : Journal) (x y : Iface) → IsBeside db J x y book.now interface.now other.now
        → result ≡ channel_beside J x y }
{
    if other.index == interface.index || !other.is_on(interface.radio) {
        return None;
    }
    channel_of(other, book)
}

/// Whether the radio would be on more channels at once than it can, with this one for the interface.
/// Its other interfaces count with their channels, each channel once.
pub(crate) fn passes_contexts(
    interface: &Interface,
    interfaces: &[Interface],
    radio: &Radio,
    chan: &ChanDef,
) -> bool
    ensures { (db : List Domain) (J : Journal) (x : Iface) → IsAmong db J x interface.now interfaces.now radio.now
        → (IsTrue result ↔ (radio.now.chans.profile.contexts < length (distinct (chan.now ∷ channels_beside J x)))) }
{
    let most = usize::from(radio.chans.profile().contexts());
    let mut found = only(*chan);
    for other in interfaces {
        if let Some(channel) = channel_beside(interface, other, &radio.book) {
            if !add(&mut found, channel, most) {
                return true;
            }
        }
    }
    false
}
