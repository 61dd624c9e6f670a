// What the drives say once a restart's stores are made, proved of the definitions (specs/): the laws that the restart call rests on (01, Restart, 4).
#![tactic(auto)]

ghost use Rattle.std.specs.Prelude.{◌≡◌, true, false, ◌&&◌, eqb};
ghost use Rattle.spec.specs.declared.Params.{Params};
ghost use Rattle.spec.specs.Counts.{last_count};
ghost use Rattle.spec.specs.Drives.{View};
ghost use Rattle.spec.specs.Params.{in_range};
ghost use Rattle.spec.specs.Restart.{none_free_of, rewrites};
ghost use Rattle.spec.specs.Segments.{segments, greatest_serial};
ghost use Rattle.law_restart.specs.Settled.{Settled};
ghost use Rattle.law_drives.specs.Accept.{Accepted};
ghost use Rattle.law_drives.specs.Zones.{Shaped};

// Where no check of a restart holds and no drive is missing, its stores fit, and behind them no remaining segment has a bad stripe number or a bad data address.
pub fn settles()
    ensures { (p : Params) (v : View)
        → in_range p ≡ true
        → Shaped p v
        → Accepted p v 0
        → rewrites p 0 (segments p v 0) && eqb (greatest_serial (segments p v 0)) last_count ≡ false
        → rewrites p 0 (segments p v 0) && none_free_of p v (segments p v 0) ≡ false
        → Settled p v }
{}
