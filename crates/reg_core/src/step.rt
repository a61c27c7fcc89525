//! One step of the core.

ghost use Rattle.std.specs.Prelude.{◌≡◌, [], ℕ, List, Option, IfOk, OnErr};
ghost use Rattle.rule_tables.specs.declared.domain.Domain.{Domain};
ghost use Rattle.chan_flags.specs.Profiles.{IsProfile};
ghost use Rattle.radio_drv.specs.Seen.{Seen};
ghost use Rattle.reg_journal.specs.Facts.{Journal};
ghost use Rattle.reg_journal.specs.Requests.{IsAskable};
ghost use Rattle.reg_journal.specs.declared.reply.Reply.TheVariants.{Plain};
ghost use Rattle.reg_journal.specs.declared.request.Request.TheVariants.{RadioAdd, RadioDel, RadioRules, Element as HeardElement, DriverHint, UserHint, Indoor, IfaceAdd, IfaceDel, SetType as TypeSet};
ghost use Rattle.reg_core.specs.inner.Deciding.{IsCore, IsReplyOf};
ghost use Rattle.reg_core.specs.Kept.{StandsFor};
ghost use Rattle.reg_core.specs.Stepping.{IsReady, OneStep, checking_reply, done_reply, started_reply, swept_reply};

use crate::core_state::Core;
use crate::declined::Declined;
use crate::drivers::DriverRow;
use chan_def::Kind;
use chan_flags::Profile;
use freq_range::RuleList;
use radio_drv::Name;
use reg_hints::{Hint, RadioNo};
use reg_journal::{Answer, Effects, HintAnswer, Refusal, Reply, Request};
use reg_lists::OutOfMemory;
use rule_tables::Alpha2;

/// The answer, which nothing else came of.
pub(crate) fn plain(answer: Answer) -> Reply
    ensures { result ≡ Plain answer [] }
{
    Reply::Plain {
        answer,
        effects: Effects::new(),
    }
}

/// The reply to a request that is declined.
pub(crate) fn declined_reply(declined: Declined) -> Result<Reply, OutOfMemory>
    ensures { IsReplyOf declined result }
{
    match declined {
        Declined::Refused(refusal) => Ok(plain(Answer::Refused(refusal))),
        Declined::OutOfMemory => Err(OutOfMemory),
    }
}

/// The reply to a request that is done or refused.
fn done(answer: Result<(), Refusal>) -> Reply
    ensures { result ≡ done_reply answer }
{
    match answer {
        Ok(()) => plain(Answer::Ok),
        Err(refusal) => plain(Answer::Refused(refusal)),
    }
}

/// The reply to a request with effects.
fn swept(answer: Result<Effects, Refusal>) -> Reply
    ensures { result ≡ swept_reply answer }
{
    match answer {
        Ok(effects) => Reply::Plain {
            answer: Answer::Ok,
            effects,
        },
        Err(refusal) => plain(Answer::Refused(refusal)),
    }
}

/// The reply to a start, which tells the power in mBm.
fn started(answer: Result<u16, Refusal>) -> Reply
    ensures { result ≡ started_reply answer }
{
    match answer {
        Ok(power_mbm) => plain(Answer::Started(power_mbm)),
        Err(refusal) => plain(Answer::Refused(refusal)),
    }
}

/// The reply to a check, which tells its length in ms.
fn checking(answer: Result<u32, Refusal>) -> Reply
    ensures { result ≡ checking_reply answer }
{
    match answer {
        Ok(length_ms) => plain(Answer::Checking(length_ms)),
        Err(refusal) => plain(Answer::Refused(refusal)),
    }
}

impl Core {
    /// Answers one request (`NL80211_CMD_*`). `OutOfMemory` changes nothing.
    pub fn step<D: DriverRow>(
        &mut self,
        request: &Request,
        drivers: &mut D,
    ) -> Result<Reply, OutOfMemory>
        requires ready { IsReady self.old (D.seen drivers.old) }
        requires askable { IsAskable request.now }
        // The reply is the journal's and the core stands for the next one, whatever journal it stood for.
        ensures step { IfOk result (λ reply. (db : List Domain) (J : Journal) → StandsFor db self.old J → OneStep db J request.now self.old self.new
            (D.seen drivers.old) (D.seen drivers.new) reply) }
        ensures core_stays { OnErr result (self.new ≡ self.old) }
        ensures drivers_stay { OnErr result (D.seen drivers.new ≡ D.seen drivers.old) }
        // The core still stands for a journal, and the drivers have its running operations on air.
        ensures ready { IsReady self.new (D.seen drivers.new) }
    {
        self.answer(request, drivers)
    }

    fn answer<D: DriverRow>(
        &mut self,
        request: &Request,
        drivers: &mut D,
    ) -> Result<Reply, OutOfMemory>
        requires ready { IsReady self.old (D.seen drivers.old) }
        requires askable { IsAskable request.now }
        ensures step { IfOk result (λ reply. (db : List Domain) (J : Journal) → StandsFor db self.old J → OneStep db J request.now self.old self.new
            (D.seen drivers.old) (D.seen drivers.new) reply) }
        ensures core_stays { OnErr result (self.new ≡ self.old) }
        ensures drivers_stay { OnErr result (D.seen drivers.new ≡ D.seen drivers.old) }
    {
        match request {
            Request::At(moment) => Ok(done(self.at(*moment))),
            Request::RadioAdd { radio, profile } => self.step_radio_add(*radio, *profile),
            Request::Element { radio, body } => self.step_element(*radio, body.as_slice(), drivers),
            Request::RadioRules { radio, rules } => self.step_radio_rules(*radio, rules, drivers),
            Request::DriverHint { radio, alpha2 } => {
                self.step_driver_hint(*radio, *alpha2, drivers)
            }
            Request::UserHint(alpha2) => self.step_user_hint(*alpha2, drivers),
            Request::Radar { radio, chan } => Ok(swept(self.radar(*radio, chan, drivers))),
            Request::Indoor(on) => Ok(self.step_indoor(*on, drivers)),
            Request::IfaceAdd { radio, name, kind } => self.step_iface_add(*radio, *name, *kind),
            Request::Start { name, kind, chan } => {
                Ok(started(self.start(name, *kind, chan, drivers)))
            }
            Request::Stop { name, kind } => Ok(done(self.stop(name, *kind, drivers))),
            Request::Check { name, chan } => Ok(checking(self.begin_check(name, chan, drivers))),
            Request::RadioDel(radio) => Ok(self.step_radio_del(*radio, drivers)),
            Request::IfaceDel(name) => Ok(self.step_iface_del(name, drivers)),
            Request::SetType { name, kind } => Ok(self.step_set_type(name, *kind)),
            Request::SetPower { name, setting } => {
                Ok(swept(self.set_power(name, *setting, drivers)))
            }
            Request::GetReg => self.step_get_reg(),
            Request::Channels(radio) => self.step_channels(*radio),
            Request::RadioInfo(radio) => self.step_radio_info(*radio),
            Request::IfaceInfo(name) => Ok(self.step_iface_info(name)),
        }
    }

    fn step_radio_add(&mut self, radio: RadioNo, profile: Profile) -> Result<Reply, OutOfMemory>
        requires core { IsCore self.old }
        ensures step { IfOk result (λ reply. (db : List Domain) (J : Journal) (row : List (Option Seen)) → StandsFor db self.old J
            → OneStep db J (RadioAdd radio profile) self.old self.new row row reply) }
        ensures core_stays { OnErr result (self.new ≡ self.old) }
    {
        // That the profile is one of its type is told by reading it.
        let _bands = profile.bands();
        match self.add_radio(radio, profile) {
            Ok(()) => Ok(plain(Answer::Ok)),
            Err(declined) => declined_reply(declined),
        }
    }

    fn step_element<D: DriverRow>(
        &mut self,
        radio: RadioNo,
        body: &[u8],
        drivers: &mut D,
    ) -> Result<Reply, OutOfMemory>
        requires ready { IsReady self.old (D.seen drivers.old) }
        ensures step { IfOk result (λ reply. (db : List Domain) (J : Journal) → StandsFor db self.old J → OneStep db J (HeardElement radio body.now) self.old self.new
            (D.seen drivers.old) (D.seen drivers.new) reply) }
        ensures core_stays { OnErr result (self.new ≡ self.old) }
        ensures drivers_stay { OnErr result (D.seen drivers.new ≡ D.seen drivers.old) }
    {
        match self.hear_element(radio, body, drivers) {
            Ok((treatment, effects)) => Ok(Reply::Plain {
                answer: Answer::Hint(HintAnswer::Treated(treatment)),
                effects,
            }),
            Err(declined) => declined_reply(declined),
        }
    }

    fn step_user_hint<D: DriverRow>(
        &mut self,
        alpha2: Alpha2,
        drivers: &mut D,
    ) -> Result<Reply, OutOfMemory>
        requires ready { IsReady self.old (D.seen drivers.old) }
        ensures step { IfOk result (λ reply. (db : List Domain) (J : Journal) → StandsFor db self.old J → OneStep db J (UserHint alpha2) self.old self.new
            (D.seen drivers.old) (D.seen drivers.new) reply) }
        ensures core_stays { OnErr result (self.new ≡ self.old) }
        ensures drivers_stay { OnErr result (D.seen drivers.new ≡ D.seen drivers.old) }
    {
        match self.take_hint(alpha2, &Hint::User(alpha2), drivers) {
            Ok((treatment, effects)) => Ok(Reply::Plain {
                answer: Answer::Hint(HintAnswer::Treated(treatment)),
                effects,
            }),
            Err(declined) => declined_reply(declined),
        }
    }

    fn step_radio_rules<D: DriverRow>(
        &mut self,
        radio: RadioNo,
        rules: &RuleList,
        drivers: &mut D,
    ) -> Result<Reply, OutOfMemory>
        requires ready { IsReady self.old (D.seen drivers.old) }
        requires askable { IsAskable (RadioRules radio rules.now) }
        ensures step { IfOk result (λ reply. (db : List Domain) (J : Journal) → StandsFor db self.old J → OneStep db J (RadioRules radio rules.now) self.old self.new
            (D.seen drivers.old) (D.seen drivers.new) reply) }
        ensures core_stays { OnErr result (self.new ≡ self.old) }
        ensures drivers_stay { OnErr result (D.seen drivers.new ≡ D.seen drivers.old) }
    {
        match self.set_rules(radio, rules, drivers) {
            Ok(effects) => Ok(Reply::Plain {
                answer: Answer::Ok,
                effects,
            }),
            Err(declined) => declined_reply(declined),
        }
    }

    fn step_driver_hint<D: DriverRow>(
        &mut self,
        radio: RadioNo,
        alpha2: Alpha2,
        drivers: &mut D,
    ) -> Result<Reply, OutOfMemory>
        requires ready { IsReady self.old (D.seen drivers.old) }
        ensures step { IfOk result (λ reply. (db : List Domain) (J : Journal) → StandsFor db self.old J → OneStep db J (DriverHint radio alpha2) self.old self.new
            (D.seen drivers.old) (D.seen drivers.new) reply) }
        ensures core_stays { OnErr result (self.new ≡ self.old) }
        ensures drivers_stay { OnErr result (D.seen drivers.new ≡ D.seen drivers.old) }
    {
        match self.hear_driver(radio, alpha2, drivers) {
            Ok((answer, effects)) => Ok(Reply::Plain {
                answer: Answer::Hint(answer),
                effects,
            }),
            Err(declined) => declined_reply(declined),
        }
    }

    fn step_iface_add(
        &mut self,
        radio: RadioNo,
        name: Name,
        kind: Kind,
    ) -> Result<Reply, OutOfMemory>
        requires core { IsCore self.old }
        ensures step { IfOk result (λ reply. (db : List Domain) (J : Journal) (row : List (Option Seen)) → StandsFor db self.old J
            → OneStep db J (IfaceAdd radio name kind) self.old self.new row row reply) }
        ensures core_stays { OnErr result (self.new ≡ self.old) }
    {
        match self.add_iface(radio, name, kind) {
            Ok(()) => Ok(plain(Answer::Ok)),
            Err(declined) => declined_reply(declined),
        }
    }

    fn step_radio_del<D: DriverRow>(&mut self, radio: RadioNo, drivers: &mut D) -> Reply
        requires ready { IsReady self.old (D.seen drivers.old) }
        ensures step { (db : List Domain) (J : Journal) → StandsFor db self.old J → OneStep db J (RadioDel radio) self.old self.new
            (D.seen drivers.old) (D.seen drivers.new) result }
    {
        swept(self.del_radio(radio, drivers))
    }

    fn step_iface_del<D: DriverRow>(&mut self, name: &Name, drivers: &mut D) -> Reply
        requires ready { IsReady self.old (D.seen drivers.old) }
        ensures step { (db : List Domain) (J : Journal) → StandsFor db self.old J → OneStep db J (IfaceDel name.now) self.old self.new
            (D.seen drivers.old) (D.seen drivers.new) result }
    {
        swept(self.del_iface(name, drivers))
    }

    fn step_set_type(&mut self, name: &Name, kind: Kind) -> Reply
        requires core { IsCore self.old }
        ensures step { (db : List Domain) (J : Journal) (row : List (Option Seen)) → StandsFor db self.old J
            → OneStep db J (TypeSet name.now kind) self.old self.new row row result }
    {
        done(self.set_type(name, kind))
    }

    fn step_indoor<D: DriverRow>(&mut self, on: bool, drivers: &mut D) -> Reply
        requires ready { IsReady self.old (D.seen drivers.old) }
        ensures step { (db : List Domain) (J : Journal) → StandsFor db self.old J → OneStep db J (Indoor on) self.old self.new
            (D.seen drivers.old) (D.seen drivers.new) result }
    {
        let effects = self.set_indoor(on, drivers);
        Reply::Plain {
            answer: Answer::Ok,
            effects,
        }
    }
}
