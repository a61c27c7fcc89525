//! Laws over lists on air.

ghost use Rattle.std.specs.Prelude.{ℕ, List, []};
ghost use Rattle.radio_drv.specs.Air.{HasPlace, IsAir, started, stopped, powered};
ghost use Rattle.radio_drv.specs.declared.on_air.OnAir.{OnAir};

/// Whatever a driver is told, its list has at most eight entries, and each interface once.
pub fn each_interface_is_once_on_air()
    ensures nothing { IsAir [] }
    ensures started { (entry : OnAir) (air : List OnAir) → HasPlace air entry.iface → IsAir air
        → IsAir (started entry air) }
    ensures stopped { (iface : ℕ) (air : List OnAir) → IsAir air → IsAir (stopped iface air) }
    ensures powered { (iface power : ℕ) (air : List OnAir) → IsAir air → IsAir (powered iface power air) }
{}
