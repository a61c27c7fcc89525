//! Drivers for the radios that may be added.

ghost use Rattle.std.specs.Prelude.{◌≡◌, [], ◌+◌, None, ℕ, OnOk};
ghost use Rattle.core_runs.specs.Driven.{AreIdle};

use radio_drv::Driver;
use reg_core::{DriverRow, Drivers};
use reg_lists::OutOfMemory;

/// Adds the driver of the next radio, which has nothing on air and was told no check.
pub fn add_driver(drivers: &mut Drivers, driver: Box<dyn Driver>) -> Result<(), OutOfMemory>
    requires nothing_on_air { on_air driver ≡ [] }
    requires no_check { told driver ≡ None }
    ensures { OnOk result ((n : ℕ) → AreIdle n (⟦<Drivers as DriverRow>⟧.seen drivers.old)
        → AreIdle (n + 1) (⟦<Drivers as DriverRow>⟧.seen drivers.new)) }
{
    drivers.push(Some(driver))?;
    Ok(())
}
