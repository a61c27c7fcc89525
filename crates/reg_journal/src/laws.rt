//! Laws over all journals.

ghost use Rattle.std.specs.Prelude.{◌≡◌, ◌≢◌, ◌↔◌, ℕ, ◌<◌, ◌≤◌, AllPairs, IsTrue, ◌⊎◌, List, [], ◌∷◌, Bool, false, Contains, Some, IsSomeAnd, Option, Result, take};
ghost use Rattle.rule_tables.specs.declared.code.Region.TheVariants.{Etsi};
ghost use Rattle.rule_tables.specs.Databases.{IsDb};
ghost use Rattle.rule_tables.specs.declared.domain.Domain.{Domain};
ghost use Rattle.chan_def.specs.Covered.{IsCovered};
ghost use Rattle.chan_flags.specs.Profiles.{Abilities};
ghost use Rattle.chan_def.specs.declared.definition.ChanDef.{ChanDef};
ghost use Rattle.chan_def.specs.declared.kind.Kind.{Kind};
ghost use Rattle.dfs_states.specs.declared.dfs.Dfs.{Dfs};
ghost use Rattle.radio_drv.specs.declared.on_air.OnAir.{OnAir};
ghost use Rattle.reg_journal.specs.Applicable.{region_of};
ghost use Rattle.reg_journal.specs.Asking.{AreTables, IsStateOn, MayLeadTo, WouldCheck, WouldStart};
ghost use Rattle.reg_journal.specs.Causes.{IsFree};
ghost use Rattle.reg_journal.specs.Codes.{code_and_errno};
ghost use Rattle.reg_journal.specs.Due.{EachMayFollow};
ghost use Rattle.reg_journal.specs.Dumps.{AreSections};
ghost use Rattle.reg_journal.specs.Effects.{HasFewEffects};
ghost use Rattle.reg_journal.specs.Facts.{Fact, Journal, after, started};
ghost use Rattle.reg_journal.specs.Forms.{IsLineRequest, IsReplyTo, IsShownReply};
ghost use Rattle.reg_journal.specs.Granted.{IsGranted, IsStartable};
ghost use Rattle.reg_journal.specs.OnAir.{StartedBefore, TellsCheck, is_on, on_air_of, told_of};
ghost use Rattle.reg_journal.specs.Permits.{BarsOperation, IsPowerOf};
ghost use Rattle.reg_journal.specs.Present.{Iface, ifaces_of, ifaces_on, named, operation_of};
ghost use Rattle.reg_journal.specs.Radar.{HasLapsed, IsQuiet, IsState, NoneStands, Stands};
ghost use Rattle.reg_journal.specs.Replies.{IsRegular, Replies};
ghost use Rattle.reg_journal.specs.Requests.{IsAskable, IsTyped};
ghost use Rattle.reg_journal.specs.Rows.{checked_row, disturbed_row, radar_row, used_row};
ghost use Rattle.reg_journal.specs.Rulings.{RulesThen, rulings};
ghost use Rattle.reg_journal.specs.Settled.{AreSettled, IsSettled};
ghost use Rattle.reg_journal.specs.Sweep.{AreSwept};
ghost use Rattle.reg_journal.specs.declared.effects.Effect.{Effect};
ghost use Rattle.reg_journal.specs.declared.refusal.Refusal.{Refusal};
ghost use Rattle.reg_journal.specs.declared.reply.Answer.TheVariants.{Checking, Started};
ghost use Rattle.reg_journal.specs.declared.reply.Reply.{Reply};
ghost use Rattle.reg_journal.specs.declared.reply.Reply.TheVariants.{Plain};
ghost use Rattle.reg_journal.specs.declared.report.Section.{Section};
ghost use Rattle.reg_journal.specs.declared.request.Request.TheVariants.{Check, Start};
ghost use Rattle.reg_journal.specs.declared.request.Request.{Request};

/// Over a journal a request has at most one reply, and appends the same facts with it.
pub fn one_reply()
    ensures { (db : List Domain) (journal : Journal) (q : Request) (failed : Bool) (one other : Reply) (facts others : List Fact)
        → Replies db journal q failed one facts → Replies db journal q failed other others → (one ≡ other) × (facts ≡ others) }
{}

/// Over a database, and a journal each fact of which came where it might, there is a reply to each request.
pub fn some_reply()
    ensures { (db : List Domain) (journal : Journal) (q : Request) (failed : Bool) → IsDb db → EachMayFollow db journal
        → (reply : Reply) × (facts : List Fact) × Replies db journal q failed reply facts }
{}

/// There is one state for each subchannel over each journal.
pub fn one_state()
    ensures some { (db : List Domain) (journal : Journal) (r s : ℕ) → (dfs : Dfs) × IsState db journal r s dfs }
    ensures one { (db : List Domain) (journal : Journal) (r s : ℕ) (one other : Dfs)
        → IsState db journal r s one → IsState db journal r s other → one ≡ other }
{}

/// Over each journal it is decided whether a radio's region is ETSI, and whether a check that ended
/// at some moment has lapsed.
pub fn lapsing_is_decided()
    ensures region { (db : List Domain) (journal : Journal) (r : ℕ) → (region_of db journal r ≡ Etsi) ⊎ (region_of db journal r ≡ Etsi → ⊥) }
    ensures lapsed { (journal : Journal) (r s end : ℕ) → HasLapsed journal r s end ⊎ (HasLapsed journal r s end → ⊥) }
{}

/// Nothing bars a start that is granted, and its power is the one that its setting gives.
pub fn granted_is_not_barred()
    ensures free { (db : List Domain) (journal : Journal) (x : Iface) (c : ChanDef) (power : ℕ)
        → IsGranted db journal x c power → IsFree (BarsOperation db journal x c) }
    ensures power { (db : List Domain) (journal : Journal) (x : Iface) (c : ChanDef) (power : ℕ)
        → IsGranted db journal x c power → IsPowerOf db journal x c power }
{}

/// A start is answered with a power exactly where it is granted with it, on an interface of the kind
/// that is free for it, and the driver doesn't fail.
pub fn started_where_granted()
    ensures granted { (db : List Domain) (journal : Journal) (name : List ℕ) (kind : Kind) (c : ChanDef) (failed : Bool) (power : ℕ) (effects : List Effect)
        (facts : List Fact) → Replies db journal (Start name kind c) failed (Plain (Started power) effects) facts
        → IsSomeAnd (named journal name) (λ x. IsStartable journal x kind × IsGranted db journal x c power) }
    ensures started { (db : List Domain) (journal : Journal) (name : List ℕ) (kind : Kind) (c : ChanDef) (power : ℕ) (x : Iface)
        → named journal name ≡ Some x → IsStartable journal x kind → IsGranted db journal x c power
        → Replies db journal (Start name kind c) false (Plain (Started power) []) (started x.index c power ∷ []) }
{}

/// Where what each interface does may go on as it is, a sweep of all interfaces does nothing.
pub fn what_may_go_on_is_not_swept()
    ensures { (db : List Domain) (journal : Journal) → AreSettled db journal → AreSwept db journal (ifaces_of journal) [] }
{}

/// After a sweep what each interface does may go on: of all interfaces, or of those of one radio where
/// the others' may go on already. Each of its facts may come.
pub fn sweeps_leave_what_may_go_on()
    ensures all { (db : List Domain) (journal : Journal) (facts : List Fact) → EachMayFollow db journal → AreSwept db journal (ifaces_of journal) facts
        → EachMayFollow db (after facts journal) × AreSettled db (after facts journal) }
    ensures one { (db : List Domain) (journal : Journal) (r : ℕ) (facts : List Fact) → EachMayFollow db journal → AreSwept db journal (ifaces_on journal r) facts
        → ((y : Iface) → Contains (ifaces_of journal) y → (y.radio ≡ r → ⊥) → IsSettled db journal y)
        → EachMayFollow db (after facts journal) × AreSettled db (after facts journal) }
{}

/// In each regular journal each fact came where it might, and what each interface does may go on.
pub fn regular_is_due_and_settled()
    ensures due { (db : List Domain) (journal : Journal) → IsRegular db journal → EachMayFollow db journal }
    ensures settled { (db : List Domain) (journal : Journal) → IsRegular db journal → AreSettled db journal }
{}

/// Over a journal each fact of which came where it might, a reply has at most 64 effects.
pub fn effects_are_few()
    ensures { (db : List Domain) (journal : Journal) (q : Request) (failed : Bool) (reply : Reply) (facts : List Fact)
        → EachMayFollow db journal → Replies db journal q failed reply facts → HasFewEffects reply }
{}

/// The check last told of a radio's driver is that of the last check's beginning: a reply that tells of one
/// sets it on the check's radio alone, and each other reply leaves it.
pub fn check_last_told()
    ensures begun { (db : List Domain) (journal : Journal) (name : List ℕ) (c : ChanDef) (failed : Bool) (length : ℕ) (effects : List Effect) (facts : List Fact)
        → EachMayFollow db journal → Replies db journal (Check name c) failed (Plain (Checking length) effects) facts
        → IsSomeAnd (named journal name) (λ x. (told_of (after facts journal) x.radio ≡ Some (record { iface = x.index; chan = c; length_ms = length }))
        × ((r : ℕ) → r ≢ x.radio → told_of (after facts journal) r ≡ told_of journal r)) }
    ensures left { (db : List Domain) (journal : Journal) (q : Request) (failed : Bool) (reply : Reply) (facts : List Fact)
        → Replies db journal q failed reply facts → (TellsCheck reply → ⊥) → (r : ℕ) → told_of (after facts journal) r ≡ told_of journal r }
{}

/// What a radio has on air: exactly the operations of the interfaces that were made on it, each once, in the
/// order of the starts since which each has operated without a pause.
pub fn on_air_in_order()
    ensures entries { (db : List Domain) (journal : Journal) (r : ℕ) → EachMayFollow db journal → (e : OnAir) → Contains (on_air_of journal r) e
        ↔ (IsTrue (is_on journal e.iface r) × (operation_of journal e.iface ≡ Some (record { chan = e.chan; power = e.power_mbm }))) }
    ensures once { (db : List Domain) (journal : Journal) (r : ℕ) → EachMayFollow db journal → AllPairs (λ a b. a.iface ≢ b.iface) (on_air_of journal r) }
    ensures order { (db : List Domain) (journal : Journal) (r : ℕ) → EachMayFollow db journal
        → AllPairs (λ a b. StartedBefore journal a.iface b.iface) (on_air_of journal r) }
{}

/// There is one answer to what a start would come to, and to what a check would.
pub fn one_forecast()
    ensures some_start { (db : List Domain) (journal : Journal) (name : List ℕ) (kind : Kind) (c : ChanDef)
        → (answer : Result ℕ Refusal) × WouldStart db journal name kind c answer }
    ensures one_start { (db : List Domain) (journal : Journal) (name : List ℕ) (kind : Kind) (c : ChanDef) (one other : Result ℕ Refusal)
        → WouldStart db journal name kind c one → WouldStart db journal name kind c other → one ≡ other }
    ensures some_check { (db : List Domain) (journal : Journal) (name : List ℕ) (c : ChanDef)
        → (answer : Result (ℕ × ℕ) Refusal) × WouldCheck db journal name c answer }
    ensures one_check { (db : List Domain) (journal : Journal) (name : List ℕ) (c : ChanDef) (one other : Result (ℕ × ℕ) Refusal)
        → WouldCheck db journal name c one → WouldCheck db journal name c other → one ≡ other }
{}

/// There is one answer to the state of each centre: none exactly where the radio isn't there.
pub fn one_state_of_each_centre()
    ensures some { (db : List Domain) (journal : Journal) (r s : ℕ) → (answer : Option Dfs) × IsStateOn db journal r s answer }
    ensures one { (db : List Domain) (journal : Journal) (r s : ℕ) (one other : Option Dfs)
        → IsStateOn db journal r s one → IsStateOn db journal r s other → one ≡ other }
{}

/// The code of each refusal is from 20 to 53, and its errno isn't 0.
pub fn refusals_have_codes()
    ensures { (e : Refusal) → (20 ≤ (code_and_errno e).0) × ((code_and_errno e).0 ≤ 53) × (0 < (code_and_errno e).1) }
{}

/// A check of 60,000 ms that began at 0 stands at 60,000 ms and not at 59,999. Outside ETSI, and unused, it
/// stands at 61,999 ms and not at 62,000. In ETSI it stands on.
pub fn check_of_a_minute()
    ensures early { (db : List Domain) (profile : Abilities) (name : List ℕ) (c : ChanDef) (moment s : ℕ) → moment < 60000
        → NoneStands db (checked_row profile name c moment) 0 s }
    ensures stands { (db : List Domain) (profile : Abilities) (name : List ℕ) (c : ChanDef) (moment s : ℕ) → IsCovered c s → 60000 ≤ moment → moment < 62000
        → Stands db (checked_row profile name c moment) 0 s 60000 }
    ensures lapsed { (db : List Domain) (profile : Abilities) (name : List ℕ) (c : ChanDef) (moment s : ℕ) → 62000 ≤ moment
        → region_of db (checked_row profile name c moment) 0 ≢ Etsi → NoneStands db (checked_row profile name c moment) 0 s }
    ensures lasts { (db : List Domain) (profile : Abilities) (name : List ℕ) (c : ChanDef) (moment s : ℕ) → IsCovered c s → 60000 ≤ moment
        → region_of db (checked_row profile name c moment) 0 ≡ Etsi → Stands db (checked_row profile name c moment) 0 s 60000 }
{}

/// A check of 60,000 ms that began at 0 is kept by an operation on its channel from 61,999 to 100,000 ms: it
/// stands at 101,999 ms. Outside ETSI it doesn't at 102,000.
pub fn check_of_a_used_channel()
    ensures stands { (db : List Domain) (profile : Abilities) (name : List ℕ) (c : ChanDef) (power moment s : ℕ) → IsCovered c s
        → 100000 ≤ moment → moment < 102000 → Stands db (used_row profile name c power moment) 0 s 60000 }
    ensures lapsed { (db : List Domain) (profile : Abilities) (name : List ℕ) (c : ChanDef) (power moment s : ℕ) → 102000 ≤ moment
        → region_of db (used_row profile name c power moment) 0 ≢ Etsi → NoneStands db (used_row profile name c power moment) 0 s }
{}

/// Radar at 30,000 ms beside a running check of 60,000 ms voids it for the subchannels on which radar was
/// met, and for no other: these it stands for at 60,000 ms.
pub fn radar_beside_a_check()
    ensures voided { (db : List Domain) (profile : Abilities) (name : List ℕ) (c met : ChanDef) (moment s : ℕ) → IsCovered met s
        → NoneStands db (disturbed_row profile name c met moment) 0 s }
    ensures spared { (db : List Domain) (profile : Abilities) (name : List ℕ) (c met : ChanDef) (moment s : ℕ) → IsCovered c s → (IsCovered met s → ⊥)
        → 60000 ≤ moment → moment < 62000 → Stands db (disturbed_row profile name c met moment) 0 s 60000 }
{}

/// After radar at 70,000 ms the channel's subchannels are quiet at 1,870,000 ms, and not at 1,869,999.
pub fn nonoccupancy_of_half_an_hour()
    ensures quiet { (profile : Abilities) (c : ChanDef) (moment s : ℕ) → 1870000 ≤ moment → IsQuiet (radar_row profile c moment) 0 s }
    ensures barred { (profile : Abilities) (c : ChanDef) (moment s : ℕ) → IsCovered c s → moment < 1870000 → IsQuiet (radar_row profile c moment) 0 s → ⊥ }
{}

/// Each reply has a form in which its request may be answered.
pub fn replies_have_a_form()
    ensures { (db : List Domain) (journal : Journal) (q : Request) (failed : Bool) (reply : Reply) (facts : List Fact)
        → Replies db journal q failed reply facts → IsReplyTo q reply }
{}

/// Over a regular journal each reply to a request that a line can say can be printed and sent: its codes
/// and names are visible, its frequencies are whole MHz, and no list of it is empty.
pub fn replies_can_be_shown()
    ensures { (db : List Domain) (journal : Journal) (q : Request) (failed : Bool) (reply : Reply) (facts : List Fact)
        → IsRegular db journal → IsTyped q → IsLineRequest q → Replies db journal q failed reply facts → IsShownReply reply }
{}

/// A request that a line can say may be asked of a step.
pub fn line_requests_are_askable()
    ensures { (q : Request) → IsLineRequest q → IsAskable q }
{}

/// A request adds to what rules the radios what it adds to it by itself: no operation, check or driver
/// bears on it. There is one such addition.
pub fn rules_by_themselves()
    ensures then { (db : List Domain) (journal : Journal) (q : Request) (failed : Bool) (reply : Reply) (facts : List Fact)
        → Replies db journal q failed reply facts → RulesThen db (rulings journal) q (rulings (after facts journal)) }
    ensures one { (db : List Domain) (before : Journal) (q : Request) (one other : Journal) → RulesThen db before q one → RulesThen db before q other → one ≡ other }
{}

/// The sections after requests are the same, whichever drivers fail; so the tables are those of each course.
pub fn sections_whichever_drivers_fail()
    ensures same { (db : List Domain) (qs : List Request) (journal one other : Journal) (sections : List Section)
        → MayLeadTo db journal qs one → MayLeadTo db journal qs other → AreSections db one sections → AreSections db other sections }
    ensures tables { (db : List Domain) (qs : List Request) (n : ℕ) (journal : Journal) (sections : List Section)
        → AreTables db qs n sections → MayLeadTo db [] (take n qs) journal → AreSections db journal sections }
{}
