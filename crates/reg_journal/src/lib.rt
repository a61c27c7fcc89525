//! What a core of radios is asked, what it answers, and what its answers are to be: the journal of
//! all that was accepted, and the reply to each request over that journal.
#![tactic(auto)]

mod effects;
mod laws;
mod lists;
mod refusal;
mod reply;
mod report;
mod request;
mod shared;

pub use effects::{Effect, Effects, MOST_EFFECTS};
pub use laws::{
    check_last_told, check_of_a_minute, check_of_a_used_channel, effects_are_few,
    granted_is_not_barred, lapsing_is_decided, line_requests_are_askable,
    nonoccupancy_of_half_an_hour, on_air_in_order, one_forecast, one_reply, one_state,
    one_state_of_each_centre, radar_beside_a_check, refusals_have_codes,
    regular_is_due_and_settled, replies_can_be_shown, replies_have_a_form, rules_by_themselves,
    sections_whichever_drivers_fail, some_reply, started_where_granted,
    sweeps_leave_what_may_go_on, what_may_go_on_is_not_swept,
};
pub use lists::{ChanList, IfaceList, RowList, SectionList};
pub use refusal::Refusal;
pub use reply::{Answer, HintAnswer, Reply};
pub use report::{IfaceReport, IfaceState, RadioReport, Section};
pub use request::Request;
