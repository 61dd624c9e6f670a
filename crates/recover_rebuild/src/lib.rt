// The stores of a rebuild: resets, then each remaining segment by rising serial (01, Rebuild; 02, item 4).
#![tactic(auto)]

ghost use Rattle.std.specs.Prelude.{◌≡◌, true, false, List, ℕ, ◌+◌, ◌≤◌, ◌<◌, length};
ghost use Rattle.spec.specs.Drives.{view_of, mk_disk, pointer_of, zone_on, sealed_in};
ghost use Rattle.spec.specs.Params.{in_range, named, offline_len};
ghost use Rattle.spec.specs.Rebuild.{rebuilt_zone};
ghost use Rattle.spec.specs.Segments.{segment_of};
ghost use Rattle.law_basic.specs.Segs.{ZonesLow};
ghost use Rattle.recover_groups.specs.Groups.{recs_fault};
ghost use Rattle.recover_reset.specs.Rebuilt.{lost_rest};
ghost use Rattle.recover_rebuild.specs.Drive.{zones_stores, drive_stores, RowsApart, GoodZones, GoodRecs, ZonesEmpty};
ghost use Rattle.recover_rebuild.specs.Rising.{RisingNext};
ghost use Rattle.law_views.specs.Views.{Whole, AllFit};
ghost use Rattle.disk_zones.specs.Made.{Storing};

use disk_zones::TooFew;
use spec::{Params, Seg, Serial};

// 01, Rebuild: behind the header: the chunks, and the footers if the survivors' zones are full. Then all S stripes count, and their records
// are the drive's own spares.
fn rebuild_data(
    p: Params,
    image: &mut [u8],
    pointers: &mut [u8],
    gone: u8,
    seg: Seg,
    full: bool,
    drive: usize,
    count: u64,
) -> Result<u64, TooFew>
    requires p_value { in_range p ≡ true }
    requires whole { Whole p (mk_disk image.old pointers.old) }
    requires gone_value { (gone ≡ named drive) × (drive < p.N) × ZonesLow p (named drive) seg × (pointer_of p pointers.old drive (zone_on seg drive) ≡ 1) × (zone_on seg drive < p.Z) }
    requires by_index { (off : List ℕ) → full ≡ sealed_in p (view_of p off image.old pointers.old) (named drive) seg }
    requires by_index_2 { (off : List ℕ) → recs_fault p (named drive) (segment_of p (view_of p off image.old pointers.old) (named drive) seg) ≡ false }
    requires by_index_3 { (off : List ℕ)
        → AllFit p (view_of p off image.old pointers.old) (lost_rest p drive (segment_of p (view_of p off image.old pointers.old) (named drive) seg)) }
    ensures { (off : List ℕ)
        → Storing p count (lost_rest p drive (segment_of p (view_of p off image.old pointers.old) (named drive) seg))
        (mk_disk image.old pointers.old) result (mk_disk image.new pointers.new) }
{
    let left = recover_decode::put_groups(p, image, pointers, gone, seg, full, drive, count)?;
    if !full {
        return Ok(left);
    }
    let zone = disk_shape::zone_on(p, seg, drive);
    let n = disk_shape::footers(p);
    disk_footers::footer_stores(p, image, pointers, drive, zone, 0, n, left)
}

// 01, Rebuild: the drive's zone of a segment.
fn rebuild_zone(
    p: Params,
    image: &mut [u8],
    pointers: &mut [u8],
    gone: u8,
    seg: Seg,
    drive: usize,
    count: u64,
) -> Result<u64, TooFew>
    requires p_value { in_range p ≡ true }
    requires whole { Whole p (mk_disk image.old pointers.old) }
    requires gone_value { (gone ≡ named drive) × (drive < p.N) × ZonesLow p (named drive) seg × (pointer_of p pointers.old drive (zone_on seg drive) ≡ 0) × (zone_on seg drive < p.Z) }
    requires by_index { (off : List ℕ) → recs_fault p (named drive) (segment_of p (view_of p off image.old pointers.old) (named drive) seg) ≡ false }
    requires by_index_2 { (off : List ℕ)
        → AllFit p (view_of p off image.old pointers.old) (rebuilt_zone p drive (segment_of p (view_of p off image.old pointers.old) (named drive) seg)) }
    ensures { (off : List ℕ)
        → Storing p count (rebuilt_zone p drive (segment_of p (view_of p off image.old pointers.old) (named drive) seg))
        (mk_disk image.old pointers.old) result (mk_disk image.new pointers.new) }
{
    let low = disk_gather::low_drive(p, gone);
    let serial = recover_segments::serial_on(p, image, low, seg);
    let copied = recover_segments::copied_on(p, image, low, seg);
    let full = disk_zones::is_sealed(p, pointers, gone, seg);
    let left = recover_reset::put_header(p, image, pointers, drive, seg, serial, copied, count)?;
    rebuild_data(p, image, pointers, gone, seg, full, drive, left)
}

// ---- by rising serial

// 02, item 4: of two zones that which comes first: zone z, if it is flagged and its serial is above last and below that of the other; other Z: there is none.
fn sooner(p: Params, kept: &[bool], serials: &[u64], last: Serial, other: usize, z: usize) -> usize
    requires { (p.Z ≤ length kept.now) × (p.Z ≤ length serials.now) × (z < p.Z) × (other ≤ p.Z) }
    ensures rising_next { RisingNext p.Z kept.now serials.now last.0 z other
        → RisingNext p.Z kept.now serials.now last.0 (z + 1) result }
    ensures upper_bound { result ≤ p.Z }
{
    if !kept[z] {
        return other;
    }
    if serials[z] <= last.0 {
        return other;
    }
    if p.Z <= other {
        return z;
    }
    if serials[other] <= serials[z] {
        return other;
    }
    z
}

// 02, item 4: the flagged zone with the least serial above last; Z: there is none.
fn next_zone(p: Params, kept: &[bool], serials: &[u64], last: Serial) -> usize
    requires { (p.Z ≤ length kept.now) × (p.Z ≤ length serials.now) }
    ensures { RisingNext p.Z kept.now serials.now last.0 p.Z result }
{
    let mut next = p.Z;
    for z in 0..p.Z {
        next = sooner(p, kept, serials, last, next, z);
    }
    next
}

// 01, Rebuild; 02, item 4: each remaining segment, the lower serial first. By zone of the lowest present drive: kept flags those that remain, with their serials and rows.
fn rebuild_zones(
    p: Params,
    image: &mut [u8],
    pointers: &mut [u8],
    gone: u8,
    kept: &[bool],
    serials: &[u64],
    rows: &[u32],
    drive: usize,
    count: u64,
) -> Result<u64, TooFew>
    requires p_value { in_range p ≡ true }
    requires whole { Whole p (mk_disk image.old pointers.old) }
    requires gone_value { (gone ≡ named drive) × (drive < p.N) × RowsApart p drive kept.now serials.now rows.now }
    requires zones_empty { ZonesEmpty p drive kept.now serials.now rows.now 0 pointers.old }
    requires by_index { (off : List ℕ) → GoodRecs p drive (view_of p off image.old pointers.old) kept.now rows.now }
    requires by_index_2 { (off : List ℕ)
        → AllFit p (view_of p off image.old pointers.old) (zones_stores p drive (view_of p off image.old pointers.old) kept.now serials.now rows.now 0) }
    ensures { (off : List ℕ)
        → Storing p count
        (zones_stores p drive (view_of p off image.old pointers.old) kept.now serials.now rows.now 0)
        (mk_disk image.old pointers.old) result (mk_disk image.new pointers.new) }
{
    let mut left = count;
    let mut last = 0u64;
    let mut z = next_zone(p, kept, serials, Serial(last));
    while z < p.Z {
        let segment = disk_gather::row(rows, z);
        left = rebuild_zone(p, image, pointers, gone, segment, drive, left)?;
        last = serials[z];
        z = next_zone(p, kept, serials, Serial(last));
    }
    Ok(left)
}

// 01, Rebuild: resets the named drive, then each remaining segment, under a store count; 02, item 4: the good zones, and the lower serial first.
pub fn rebuild_stores(
    p: Params,
    image: &mut [u8],
    pointers: &mut [u8],
    offline: &[u8],
    gone: u8,
    kept: &[bool],
    serials: &[u64],
    rows: &[u32],
    drive: usize,
    count: u64,
) -> Result<u64, TooFew>
    requires p_value { in_range p ≡ true }
    requires whole { Whole p (mk_disk image.old pointers.old) × (length offline.now ≡ offline_len p) }
    requires gone_value { (gone ≡ named drive) × (drive < p.N) × RowsApart p drive kept.now serials.now rows.now × GoodZones p offline.now drive kept.now rows.now }
    requires good_recs { GoodRecs p drive (view_of p offline.now image.old pointers.old) kept.now rows.now }
    requires all_fit { AllFit p (view_of p offline.now image.old pointers.old)
        (drive_stores p offline.now drive (view_of p offline.now image.old pointers.old) kept.now serials.now rows.now) }
    ensures { Storing p count
        (drive_stores p offline.now drive (view_of p offline.now image.old pointers.old) kept.now serials.now
        rows.now)
        (mk_disk image.old pointers.old) result (mk_disk image.new pointers.new) }
{
    let left = recover_reset::reset_drive(p, pointers, offline, drive, count)?;
    rebuild_zones(p, image, pointers, gone, kept, serials, rows, drive, left)
}
