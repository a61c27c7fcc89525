//! Asks a core requests that are made.

ghost use Rattle.std.specs.Prelude.{◌≡◌, ◌+◌, ◌≤◌, ◌^◌, [], List, IfOk, OnErr, length};
ghost use Rattle.rule_tables.specs.declared.domain.Domain.{Domain};
ghost use Rattle.reg_core.specs.Kept.{StandsFor};
ghost use Rattle.reg_core.specs.Stepping.{IsReady};
ghost use Rattle.core_runs.specs.Driven.{AreIdle};
ghost use Rattle.make_command.specs.inner.Making.{AllAnswered, AreFew, SomeAnswered};
ghost use Rattle.reg_make.specs.Domains.{made_domains};
ghost use Rattle.reg_make.specs.Made.{made_requests};

use crate::counts::Counts;
use reg_core::{Core, DriverRow};
use reg_lists::OutOfMemory;
use reg_make::{Generator, made_database};
use std::alloc::Global;

/// Asks the made requests of a new core of the made database, and counts the replies.
pub(crate) fn answer_made<D: DriverRow>(
    alloc: Global,
    number: u32,
    drivers: &mut D,
) -> Result<Counts, OutOfMemory>
    requires some { 1 ≤ number }
    requires few { number ≤ 1000000 }
    requires idle { AreIdle 8 (D.seen drivers.old) }
    ensures answered { IfOk result (λ counts. AllAnswered made_domains (made_requests number) counts (D.seen drivers.old) (D.seen drivers.new)) }
    ensures stopped { OnErr result (SomeAnswered made_domains (made_requests number) (D.seen drivers.old) (D.seen drivers.new)) }
{
    let db = made_database(alloc)?;
    let mut core = Core::new(alloc, db)?;
    let mut requests = Generator::new(alloc, number);
    answer_all(&mut core, &mut requests, drivers)
}

/// Asks all requests that are left, and counts the replies.
fn answer_all<D: DriverRow>(
    core: &mut Core,
    requests: &mut Generator,
    drivers: &mut D,
) -> Result<Counts, OutOfMemory>
    requires ready { IsReady core.old (D.seen drivers.old) }
    requires idle { AreIdle 8 (D.seen drivers.old) }
    requires few { length requests.old ≤ 2 ^ 32 }
    ensures answered { IfOk result (λ counts. (db : List Domain) → StandsFor db core.old []
        → AllAnswered db requests.old counts (D.seen drivers.old) (D.seen drivers.new)) }
    ensures stopped { OnErr result ((db : List Domain) → StandsFor db core.old []
        → SomeAnswered db requests.old (D.seen drivers.old) (D.seen drivers.new)) }
{
    let mut counts = Counts::new();
    'requests: while let Some(request) = requests.next()? {
        let reply = core.step(&request, drivers)?;
        counts.count(&reply);
    }
    Ok(counts)
}
