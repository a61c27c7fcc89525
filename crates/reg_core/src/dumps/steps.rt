//! The requests that are answered by what is shown.

ghost use Rattle.std.specs.Prelude.{List, Option, IfOk};
ghost use Rattle.rule_tables.specs.declared.domain.Domain.{Domain};
ghost use Rattle.radio_drv.specs.Seen.{Seen};
ghost use Rattle.reg_journal.specs.Dumps.{AreSections};
ghost use Rattle.reg_journal.specs.Facts.{Journal};
ghost use Rattle.reg_journal.specs.declared.request.Request.TheVariants.{GetReg, Channels, RadioInfo, IfaceInfo};
ghost use Rattle.reg_core.specs.Kept.{Keeps, StandsFor};
ghost use Rattle.reg_core.specs.Stepping.{OneStep};

use crate::core_state::Core;
use crate::dumps::all_sections;
use crate::step::{declined_reply, plain};
use radio_drv::Name;
use reg_hints::RadioNo;
use reg_journal::{Answer, Reply, SectionList};
use reg_lists::OutOfMemory;

impl Core {
    /// The sections of all lists.
    pub(crate) fn sections(&self) -> Result<SectionList, OutOfMemory>
        ensures shown { IfOk result (λ sections. (db : List Domain) (J : Journal) → Keeps db self.now J → AreSections db J sections) }
    {
        all_sections(
            self.interfaces.allocator(),
            &self.domains,
            &self.hints,
            &self.global,
            &self.radios,
        )
    }

    pub(crate) fn step_get_reg(&self) -> Result<Reply, OutOfMemory>
        ensures step { IfOk result (λ reply. (db : List Domain) (J : Journal) (row : List (Option Seen)) → StandsFor db self.now J
            → OneStep db J GetReg self.now self.now row row reply) }
    {
        Ok(Reply::Regs(self.sections()?))
    }

    pub(crate) fn step_channels(&self, radio: RadioNo) -> Result<Reply, OutOfMemory>
        ensures step { IfOk result (λ reply. (db : List Domain) (J : Journal) (row : List (Option Seen)) → StandsFor db self.now J
            → OneStep db J (Channels radio) self.now self.now row row reply) }
    {
        match self.channels(radio) {
            Ok(list) => Ok(Reply::Channels { radio, list }),
            Err(declined) => declined_reply(declined),
        }
    }

    pub(crate) fn step_radio_info(&self, radio: RadioNo) -> Result<Reply, OutOfMemory>
        ensures step { IfOk result (λ reply. (db : List Domain) (J : Journal) (row : List (Option Seen)) → StandsFor db self.now J
            → OneStep db J (RadioInfo radio) self.now self.now row row reply) }
    {
        match self.radio_report(radio) {
            Ok(report) => Ok(Reply::Radio(report)),
            Err(declined) => declined_reply(declined),
        }
    }

    pub(crate) fn step_iface_info(&self, name: &Name) -> Reply
        ensures step { (db : List Domain) (J : Journal) (row : List (Option Seen)) → StandsFor db self.now J
            → OneStep db J (IfaceInfo name.now) self.now self.now row row result }
    {
        match self.iface_report(name) {
            Ok(report) => Reply::Iface(report),
            Err(refusal) => plain(Answer::Refused(refusal)),
        }
    }
}
