// The stores of a restart that names no drive: resets, then missing footers or the rewrite (01, Restart, 4; 02, item 4).
#![tactic(auto)]

ghost use Rattle.std.specs.Prelude.{◌≡◌, true, length};
ghost use Rattle.spec.specs.Drives.{view_of, mk_disk};
ghost use Rattle.spec.specs.Params.{in_range, offline_len};
ghost use Rattle.spec.specs.Restart.{restart_stores};
ghost use Rattle.spec.specs.Segments.{segments};
ghost use Rattle.recover_stores.specs.Refit.{RefitReady, MendMarks};
ghost use Rattle.recover_segments.specs.Taken.{TakenOfTaken};
ghost use Rattle.disk_gather.specs.Flags.{Keeps, FlagsRows, Serials};
ghost use Rattle.law_views.specs.Views.{Whole};
ghost use Rattle.disk_zones.specs.Made.{Storing};

use disk_zones::TooFew;
use spec::{Params, Serial};

// 01, Restart, 4: dropped segments are reset; then, of the unsealed segment, missing footers are stored if all its stripes count (whole), or its counted
// stripes are rewritten if they aren't 0 to c - 1 or other chunks exist (ragged). Under a store count. By zone of drive 0: whether a segment remains there
// (kept), its zones (rows) and its serial; by drive and zone: whether a remaining segment has it (taken).
pub fn healthy_stores(
    p: Params,
    image: &mut [u8],
    pointers: &mut [u8],
    offline: &[u8],
    kept: &[bool],
    rows: &[u32],
    serials: &[u64],
    taken: &[bool],
    whole: bool,
    ragged: bool,
    count: u64,
) -> Result<u64, TooFew>
    requires p_value { in_range p ≡ true }
    requires whole { Whole p (mk_disk image.old pointers.old) × (length offline.now ≡ offline_len p) }
    requires keeps { Keeps p (view_of p offline.now image.old pointers.old) 0 kept.now × FlagsRows p (view_of p offline.now image.old pointers.old) 0 rows.now }
    requires serials { Serials p (view_of p offline.now image.old pointers.old) 0 serials.now × TakenOfTaken p (view_of p offline.now image.old pointers.old) 0 taken.now }
    requires refit_ready { RefitReady p (view_of p offline.now image.old pointers.old) }
    requires mend_marks { MendMarks p (segments p (view_of p offline.now image.old pointers.old) 0) whole ragged }
    ensures { Storing p count (restart_stores p (view_of p offline.now image.old pointers.old) 0
        (segments p (view_of p offline.now image.old pointers.old) 0))
        (mk_disk image.old pointers.old) result (mk_disk image.new pointers.new) }
{
    let first = recover_segments::first_unsealed(p, pointers, 0, kept, rows);
    let left = recover_drop::drop_stores(p, image, pointers, offline, taken, count)?;
    let Some(z) = first else {
        return Ok(left);
    };
    let segment = disk_gather::row(rows, z);
    if whole {
        return recover_footers::missing_footers(p, image, pointers, segment, left);
    }
    if !ragged {
        return Ok(left);
    }
    let to = recover_segments::free_segment(p, offline, taken);
    let most = recover_segments::greatest_serial(p, kept, serials);
    let serial = Serial(most.0 + 1);
    let copied = Serial(serials[z]);
    recover_rewrite::rewrite(p, image, pointers, segment, to, serial, copied, left)
}
