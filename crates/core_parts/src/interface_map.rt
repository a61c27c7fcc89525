//! The interfaces that are there, by index and in order of creation.

ghost use Rattle.std.specs.Prelude.{◌≡◌, ◌≢◌, [], ◌∷◌, ◌++◌, Contains, length, map, filter, OnOk, OnErr};
ghost use Rattle.core_parts.specs.declared.interface.Interface.{Interface};
ghost use Rattle.core_parts.specs.Interfaces.{AreOthers, is_other, with_interface_kind, with_interface_setting, with_operation, with_running_power};

use crate::interface::{Interface, Running, repowered};
use chan_def::Kind;
use chan_flags::PowerSetting;
use indexmap::IndexMap;
use reg_lists::OutOfMemory;
use std::alloc::Global;
use std::marker::Model;

/// The interfaces that are there, by index. Contracts see them as the list in order of creation. An
/// interface takes its room as it is added: nothing else takes memory.
#[derive(Drop)]
pub struct InterfaceMap {
    by_index: IndexMap<u32, Interface>,
}

impl Model for InterfaceMap {
    ghost use Rattle.std.specs.Prelude.{List};
    ghost use Rattle.indexmap.specs.IndexMap.{values};
    ghost use Rattle.core_parts.specs.declared.interface.Interface.{Interface};
    ghost use Rattle.core_parts.specs.ByIndex.{AreByIndex};

    ghost Value = { List Interface };

    ghost view = { λ m. values m.by_index };

    ghost invariant = { λ m. AreByIndex m.by_index.entries };
}

impl InterfaceMap {
    /// No interfaces. It takes no memory until the first one comes.
    pub fn new(alloc: Global) -> InterfaceMap
        ensures empty { result ≡ [] }
    {
        InterfaceMap {
            by_index: IndexMap::new(alloc),
        }
    }

    /// Where it takes memory from.
    pub fn allocator(&self) -> Global {
        *self.by_index.allocator()
    }

    /// How many there are.
    pub fn len(&self) -> usize
        ensures len { result ≡ length self.now }
    {
        self.by_index.len()
    }

    /// All of them, in order of creation.
    pub fn as_slice(&self) -> &[Interface]
        ensures items { result.now ≡ self.now }
    {
        self.by_index.values().as_slice()
    }

    /// Adds the interface, whose index is a new one, behind the others. `OutOfMemory` changes nothing.
    pub fn add(&mut self, interface: Interface) -> Result<(), OutOfMemory>
        ensures ok { OnOk result (AreOthers interface.index self.old → self.new ≡ self.old ++ interface ∷ []) }
        ensures err { OnErr result (self.new ≡ self.old) }
    {
        self.by_index.insert(interface.index, interface)?;
        Ok(())
    }

    /// Takes out the interface of this index. The others keep their order.
    pub fn remove(&mut self, index: u32)
        ensures others { self.new ≡ filter (is_other index) self.old }
    {
        // That no index stands twice is told as they are counted.
        let _count = self.by_index.len();
        let _gone = self.by_index.shift_remove(&index);
    }

    /// Gives the interface of this index the operation, or none.
    pub fn set_operation(&mut self, index: u32, operation: Option<Running>)
        ensures operation { self.new ≡ map (with_operation index operation) self.old }
    {
        let Some(interface) = self.by_index.get_mut(&index) else {
            return;
        };
        interface.operation = operation;
    }

    /// Gives the operation of the interface of this index the power, in mBm.
    pub fn set_power(&mut self, index: u32, power_mbm: u16)
        ensures power { self.new ≡ map (with_running_power index power_mbm) self.old }
    {
        let Some(interface) = self.by_index.get_mut(&index) else {
            return;
        };
        interface.operation = repowered(interface.operation, power_mbm);
    }

    /// Gives the interface of this index the power setting.
    pub fn set_setting(&mut self, index: u32, setting: PowerSetting)
        ensures setting { self.new ≡ map (with_interface_setting index setting) self.old }
    {
        let Some(interface) = self.by_index.get_mut(&index) else {
            return;
        };
        interface.setting = setting;
    }

    /// Gives the interface of this index the kind.
    pub fn set_kind(&mut self, index: u32, kind: Kind)
        ensures kind { self.new ≡ map (with_interface_kind index kind) self.old }
    {
        let Some(interface) = self.by_index.get_mut(&index) else {
            return;
        };
        interface.kind = kind;
    }
}
