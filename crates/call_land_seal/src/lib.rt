// Footers on every drive of a segment (01, Landing: the landing after which all stripes are complete also stores the footers).
#![tactic(auto)]

ghost use Rattle.std.specs.Prelude.{◌≡◌, true, List, ℕ, ◌+◌, ◌≤◌, ◌<◌};
ghost use Rattle.spec.specs.Drives.{view_of, mk_disk, pointer_of, zone_on};
ghost use Rattle.spec.specs.Landing.{seal_stores};
ghost use Rattle.spec.specs.Params.{in_range, footers, capacity};
ghost use Rattle.law_basic.specs.Segs.{ZonesLow};
ghost use Rattle.law_views.specs.Views.{Whole};
ghost use Rattle.disk_zones.specs.Made.{Storing};

use disk_zones::TooFew;
use spec::{Params, Seg};

// 01, Landing; Store count: the footers of a segment, by drive, under a store count; each zone's are made from the zone as it came.
pub fn seal_stores(
    p: Params,
    image: &mut [u8],
    pointers: &mut [u8],
    segment: Seg,
    count: u64,
) -> Result<u64, TooFew>
    requires p_value { in_range p ≡ true }
    requires whole { Whole p (mk_disk image.old pointers.old) }
    requires zones_low { ZonesLow p 0 segment × ((d : ℕ) → d < p.N → pointer_of p pointers.old d (zone_on segment d) + footers p ≤ capacity p) }
    ensures { (off : List ℕ)
        → Storing p count (seal_stores p (view_of p off image.old pointers.old) segment)
        (mk_disk image.old pointers.old) result (mk_disk image.new pointers.new) }
{
    let n = disk_shape::footers(p);
    let mut left = count;
    for d in 0..p.N {
        let zone = disk_shape::zone_on(p, segment, d);
        left = disk_footers::footer_stores(p, image, pointers, d, zone, 0, n, left)?;
    }
    Ok(left)
}
