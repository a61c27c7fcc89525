//! Drawn requests.

ghost use Rattle.std.specs.Prelude.{◌≡◌, ◌≤◌, ◌+◌, IfOk, OnOk};
ghost use Rattle.reg_journal.specs.Requests.{IsAskable};
ghost use Rattle.reg_make.specs.Made.{asked_on_channel, turn_moment, turn_number, turn_request};

use crate::draws::Draws;
use crate::parts::{ap_name, channel, country, element_body, radio};
use chan_def::{ChanDef, Kind};
use reg_journal::Request;
use reg_lists::OutOfMemory;
use std::alloc::Global;

/// What a turn asks from this moment on, in ms, which goes on with it. After `OutOfMemory` the draws may
/// have gone on.
pub(crate) fn turn(
    alloc: Global,
    draws: &mut Draws,
    moment: &mut u64,
) -> Result<Request, OutOfMemory>
    requires moment { moment.old ≤ 100000000000 }
    ensures asked { IfOk result (λ q. q ≡ turn_request moment.old draws.old.number) }
    ensures number { OnOk result (draws.new.number ≡ turn_number draws.old.number) }
    ensures moment { OnOk result (moment.new ≡ turn_moment moment.old draws.old.number) }
    ensures soon { OnOk result (moment.new ≤ moment.old + 100000) }
    ensures askable { IfOk result IsAskable }
{
    let drawn = draws.below(10);
    if drawn < 3 {
        *moment += u64::from(draws.below(100_000));
        return Ok(Request::At(*moment));
    }
    if drawn == 3 {
        return Ok(Request::UserHint(country(draws.below(3))));
    }
    let number = draws.below(8);
    if drawn == 4 {
        let body = element_body(alloc, country(1 + draws.below(2)))?;
        return Ok(Request::Element {
            radio: radio(number),
            body,
        });
    }
    if drawn == 9 {
        return Ok(Request::Stop {
            name: ap_name(number),
            kind: Kind::Ap,
        });
    }
    Ok(on_channel(drawn, number, channel(draws.below(8))))
}

/// What a turn asks of the radio on the channel.
fn on_channel(drawn: u32, number: u32, chan: ChanDef) -> Request
    requires { number ≤ 7 }
    ensures asked { result ≡ asked_on_channel drawn number chan }
    ensures askable { IsAskable result }
{
    if drawn == 5 {
        return Request::Radar {
            radio: radio(number),
            chan,
        };
    }
    let name = ap_name(number);
    if drawn < 8 {
        Request::Check { name, chan }
    } else {
        Request::Start {
            name,
            kind: Kind::Ap,
            chan,
        }
    }
}
