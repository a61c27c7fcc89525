//! Radios.

ghost use Rattle.std.specs.Prelude.{◌≡◌, IfOk, map};

use crate::book_call::BookCall;
use crate::domains::{CustomRules, Domains};
use crate::regions::{checks_last, region_of};
use crate::tables::new_radio_table;
use chan_flags::{Profile, RadioChans};
use dfs_states::DfsBook;
use reg_hints::Hints;
use reg_lists::OutOfMemory;
use rule_intersect::Table;
use rule_tables::Alpha2;
use std::alloc::Global;

/// What is kept of a radio.
#[derive(Drop)]
pub struct Radio {
    /// Its custom rules, as a domain.
    pub custom: Option<CustomRules>,
    /// The code of its driver's last hint.
    pub driver: Option<Alpha2>,
    /// The rows of the domains that apply to it.
    pub table: Table,
    pub chans: RadioChans,
    pub book: DfsBook,
}

/// The place of a radio's number.
#[derive(Drop)]
pub enum RadioPlace {
    /// No radio was there yet.
    Free,
    /// The radio has gone, and its number with it.
    Removed,
    There(Radio),
}

/// The centres of a radio's channels, in kHz.
fn centres_of(alloc: Global, chans: &RadioChans) -> Result<Vec<u32>, OutOfMemory>
    ensures { IfOk result (λ centres. centres.items ≡ map (λ c. c.khz) chans.now.chans) }
{
    let mut centres = Vec::with_capacity(alloc, chans.len())?;
    let mut i = 0;
    'channels: while let Some(chan) = chans.chan(i) {
        centres.push(chan.khz)?;
        i += 1;
    }
    Ok(centres)
}

impl Radio {
    ghost use Rattle.std.specs.Prelude.{◌≡◌, ◌∷◌, ◌≤◌, ◌^◌, ℕ, List, None, Some, IfOk, IfSome, not};
    ghost use Rattle.reg_books.specs.Calls.{call_of, checks_last_on};
    ghost use Rattle.core_parts.specs.BookCalls.{SpeaksToBooks, call_in};
    ghost use Rattle.freq_range.specs.declared.rule.Rule.{Rule};
    ghost use Rattle.rule_intersect.specs.Tables.{IsTableOf};
    ghost use Rattle.reg_hints.specs.Table.{Hinted};
    ghost use Rattle.rule_tables.specs.World.{custom_domain};
    ghost use Rattle.rule_tables.specs.Regions.{is_same_region};
    ghost use Rattle.reg_journal.specs.Applicable.{applies, driver_code_of, hints_of, region_of};
    ghost use Rattle.reg_journal.specs.Due.{EachMayFollow};
    ghost use Rattle.reg_journal.specs.Facts.{hinted, radio_added, rules_are};
    ghost use Rattle.reg_journal.specs.Present.{now_of};
    ghost use Rattle.reg_books.specs.Lists.{global_by};
    ghost use Rattle.core_parts.specs.Making.{HasTable};
    ghost use Rattle.rule_tables.specs.declared.domain.Domain.{Domain};
    ghost use Rattle.reg_journal.specs.Due.{MayFollow};
    ghost use Rattle.reg_journal.specs.Facts.{Fact, Journal, moment_is};
    ghost use Rattle.core_parts.specs.Kept.{KeepsRadio};

    /// A new radio at the present moment, in ms. It has neither custom rules nor a driver's hint.
    pub fn new(
        alloc: Global,
        domains: &Domains,
        hints: &Hints,
        profile: Profile,
        now: u64,
    ) -> Result<Radio, OutOfMemory>
        requires time { now ≤ 10 ^ 15 }
        requires global { HasTable (global_by domains.now hints.now) }
        ensures kept { IfOk result (λ radio. (J : Journal) (r : ℕ) → hints_of J ≡ hints.now → now_of J ≡ now → driver_code_of J r ≡ None
            → EachMayFollow domains.now (radio_added r profile ∷ J) → KeepsRadio domains.now (radio_added r profile ∷ J) r radio) }
    {
        let table = new_radio_table(alloc, domains, hints, profile.self_managed())?;
        let mut chans = RadioChans::new(alloc, profile)?;
        chans.refresh(&table);
        let centres = centres_of(alloc, &chans)?;
        let lasts = checks_last(region_of(domains, hints, profile.self_managed(), None));
        let mut book = DfsBook::new(alloc, centres.as_slice(), lasts)?;
        book.advance(now);
        Ok(Radio {
            custom: None,
            driver: None,
            table,
            chans,
            book,
        })
    }

    /// A hint came, after which the code of the driver's last hint and the rows of the list that applies
    /// are these, the radio's region has changed or not, and checks last in it now or lapse.
    pub fn retune(
        &mut self,
        driver: Option<Alpha2>,
        table: Table,
        region_changed: bool,
        lasts: bool,
    )
        ensures kept { (db : List Domain) (J : Journal) (r : ℕ) (hint : Hinted) → KeepsRadio db J r self.old
            → driver_code_of (hinted hint ∷ J) r ≡ driver → IsTableOf (applies db (hinted hint ∷ J) r) table
            → region_changed ≡ not (is_same_region (region_of db (hinted hint ∷ J) r) (region_of db J r))
            → lasts ≡ checks_last_on db (hinted hint ∷ J) r → KeepsRadio db (hinted hint ∷ J) r self.new }
    {
        self.driver = driver;
        self.chans.refresh(&table);
        self.table = table;
        if region_changed {
            self.book.region_changed(lasts);
        }
    }

    /// It has these custom rules from now on, and the rows of the list that then applies.
    pub fn rule(&mut self, custom: CustomRules, table: Table)
        ensures kept { (db : List Domain) (J : Journal) (r : ℕ) (rules : List Rule) → KeepsRadio db J r self.old
            → custom ≡ custom_domain rules → IsTableOf (applies db (rules_are r rules ∷ J) r) table
            → KeepsRadio db (rules_are r rules ∷ J) r self.new }
    {
        self.custom = Some(custom);
        self.chans.refresh(&table);
        self.table = table;
    }

    /// Its book is told this, which a fact says of it.
    pub fn note(&mut self, call: &BookCall)
        ensures kept { (db : List Domain) (J : Journal) (r : ℕ) (f : Fact) → KeepsRadio db J r self.old → SpeaksToBooks f
            → call_of db f J r ≡ Some (call_in call.now) → EachMayFollow db (f ∷ J) → KeepsRadio db (f ∷ J) r self.new }
    {
        match call {
            BookCall::Radar(chan) => self.book.radar(chan),
            BookCall::Begin(slot, chan, length_ms) => self.book.begin(*slot, chan, *length_ms),
            BookCall::DropCheck(slot) => self.book.drop_check(*slot),
            BookCall::Operate(slot, chan) => self.book.operate(*slot, Some(chan)),
            BookCall::Rest(slot) => self.book.operate(*slot, None),
        }
    }

    /// It is `now`, in ms, which isn't earlier than before.
    pub fn advance(&mut self, now: u64)
        requires { now ≤ 10 ^ 15 }
        ensures kept { (db : List Domain) (J : Journal) (r : ℕ) → KeepsRadio db J r self.old → MayFollow db J (moment_is now)
            → KeepsRadio db (moment_is now ∷ J) r self.new }
    {
        self.book.advance(now);
    }
}

impl RadioPlace {
    ghost use Rattle.std.specs.Prelude.{◌≡◌, ◌↔◌, ◌∷◌, ◌≤◌, ◌^◌, ℕ, Some, false, IfSome, IsTrue, List};
    ghost use Rattle.std.specs.Option.{option_copied};
    ghost use Rattle.reg_books.specs.Calls.{call_of};
    ghost use Rattle.core_parts.specs.BookCalls.{SpeaksToBooks, call_in};
    ghost use Rattle.reg_journal.specs.Due.{EachMayFollow};
    ghost use Rattle.rule_tables.specs.declared.domain.Domain.{Domain};
    ghost use Rattle.reg_journal.specs.Due.{MayFollow};
    ghost use Rattle.reg_journal.specs.Facts.{Fact, Journal, moment_is};
    ghost use Rattle.reg_journal.specs.Present.{is_used};
    ghost use Rattle.core_parts.specs.Kept.{KeepsPlace, radio_in};

    pub fn advance(&mut self, now: u64)
        requires { now ≤ 10 ^ 15 }
        ensures kept { (db : List Domain) (J : Journal) (r : ℕ) → KeepsPlace db J r self.old → MayFollow db J (moment_is now)
            → KeepsPlace db (moment_is now ∷ J) r self.new }
    {
        if let RadioPlace::There(radio) = self {
            radio.advance(now);
        }
    }

    /// The book of its radio is told this, which a fact says of it.
    pub fn note(&mut self, call: &BookCall)
        ensures kept { (db : List Domain) (J : Journal) (r : ℕ) (f : Fact) → KeepsPlace db J r self.old → SpeaksToBooks f
            → call_of db f J r ≡ Some (call_in call.now) → EachMayFollow db (f ∷ J) → KeepsPlace db (f ∷ J) r self.new }
    {
        if let RadioPlace::There(radio) = self {
            radio.note(call);
        }
    }

    /// Whether no radio was there yet.
    pub fn is_free(&self) -> bool
        ensures { (db : List Domain) (J : Journal) (r : ℕ) → KeepsPlace db J r self.now → IsTrue result ↔ (is_used J r ≡ false) }
    {
        matches!(self, RadioPlace::Free)
    }

    /// The radio, where it is there.
    pub fn radio(&self) -> Option<&Radio>
        ensures { option_copied result ≡ radio_in self.now }
    {
        match self {
            RadioPlace::There(radio) => Some(radio),
            RadioPlace::Free | RadioPlace::Removed => None,
        }
    }
}
