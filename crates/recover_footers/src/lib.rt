// Missing footers are stored (01, Restart, 4).
#![tactic(auto)]

ghost use Rattle.std.specs.Prelude.{◌≡◌, true, List, ℕ, ◌+◌, ◌-◌, ◌≤◌, ◌<◌};
ghost use Rattle.spec.specs.Drives.{view_of, zone_at, mk_disk, pointer_of, footer_stores, zone_on};
ghost use Rattle.spec.specs.Faults.{footers_stored};
ghost use Rattle.spec.specs.Params.{in_range, footers, capacity};
ghost use Rattle.spec.specs.Restart.{missing_footers};
ghost use Rattle.spec.specs.Segments.{segment_of};
ghost use Rattle.law_views.specs.Views.{Whole, AllFit};
ghost use Rattle.disk_zones.specs.Made.{Storing};
ghost use Rattle.law_basic.specs.Segs.{ZonesLow};

use disk_zones::TooFew;
use spec::{Params, Seg};

// 01, Restart, 4: the footers that a drive lacks.
fn missing_on(
    p: Params,
    image: &mut [u8],
    pointers: &mut [u8],
    drive: usize,
    zone: usize,
    count: u64,
) -> Result<u64, TooFew>
    requires p_value { in_range p ≡ true }
    requires whole { Whole p (mk_disk image.old pointers.old) }
    requires drive_lt_n { (drive < p.N) × (zone < p.Z) × (1 + p.S ≤ pointer_of p pointers.old drive zone) × (pointer_of p pointers.old drive zone ≤ capacity p) }
    ensures { (off : List ℕ)
        → Storing p count (footer_stores p drive zone (zone_at (view_of p off image.old pointers.old) drive zone)
        (footers_stored p (zone_at (view_of p off image.old pointers.old) drive zone))
        (footers p - footers_stored p (zone_at (view_of p off image.old pointers.old) drive zone)))
        (mk_disk image.old pointers.old) result (mk_disk image.new pointers.new) }
{
    let first = disk_stored::footers_stored(p, pointers, drive, zone);
    let n = disk_shape::footers(p) - first;
    disk_footers::footer_stores(p, image, pointers, drive, zone, first, n, count)
}

// 01, Restart, 4: the missing footers of a segment whose data are all stored, by drive, under a store count.
pub fn missing_footers(
    p: Params,
    image: &mut [u8],
    pointers: &mut [u8],
    segment: Seg,
    count: u64,
) -> Result<u64, TooFew>
    requires p_value { in_range p ≡ true }
    requires whole { Whole p (mk_disk image.old pointers.old) }
    requires zones_low { ZonesLow p 0 segment × ((d : ℕ) → d < p.N → (1 + p.S ≤ pointer_of p pointers.old d (zone_on segment d))
        × (pointer_of p pointers.old d (zone_on segment d) ≤ capacity p)) }
    requires by_index { (off : List ℕ) → AllFit p (view_of p off image.old pointers.old) (missing_footers p (segment_of p (view_of p off image.old pointers.old) 0 segment)) }
    ensures { (off : List ℕ)
        → Storing p count (missing_footers p (segment_of p (view_of p off image.old pointers.old) 0 segment))
        (mk_disk image.old pointers.old) result (mk_disk image.new pointers.new) }
{
    let mut left = count;
    for d in 0..p.N {
        let zone = disk_shape::zone_on(p, segment, d);
        left = missing_on(p, image, pointers, d, zone, left)?;
    }
    Ok(left)
}
