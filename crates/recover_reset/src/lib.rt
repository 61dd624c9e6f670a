// The stores of a rebuild that decode nothing: the resets of the drive, and headers (01, Rebuild).
#![tactic(auto)]

ghost use Rattle.std.specs.Prelude.{◌≡◌, true, cond, List, [], ◌∷◌, map, ℕ, ◌<◌, length};
ghost use Rattle.spec.specs.Drives.{mk_disk, pointer_of, is_good, good_zones, zero_spare, zones_in, zone_on};
ghost use Rattle.spec.specs.Drives.Store.{put, reset};
ghost use Rattle.spec.specs.Layout.{header_block};
ghost use Rattle.spec.specs.Params.{in_range, capacity, unit_len, pointers_len, offline_len};
ghost use Rattle.law_views.specs.Views.{Whole};
ghost use Rattle.disk_zones.specs.Made.{Storing};

use disk_zones::TooFew;
use spec::{Params, Seg, Serial};

// A zone's reset, if it is good, under a store count.
fn reset_good(
    p: Params,
    pointers: &mut [u8],
    offline: &[u8],
    drive: usize,
    zone: usize,
    count: u64,
) -> Result<u64, TooFew>
    requires p_value { in_range p ≡ true }
    requires pointers_len { (length pointers.old ≡ pointers_len p) × (length offline.now ≡ offline_len p) × (drive < p.N) × (zone < p.Z) }
    ensures { (im : List ℕ)
        → Storing p count (cond (is_good p offline.now drive zone) (reset drive zone ∷ []) []) (mk_disk im pointers.old) result
        (mk_disk im pointers.new) }
{
    if !disk_zones::is_good(p, offline, drive, zone) {
        return Ok(count);
    }
    recover_drop::reset_limited(p, pointers, drive, zone, count)
}

// 01, Rebuild: resets the named drive; 02, item 4: its good zones, empty ones too, under a store count; the image is left as it is.
pub fn reset_drive(
    p: Params,
    pointers: &mut [u8],
    offline: &[u8],
    drive: usize,
    count: u64,
) -> Result<u64, TooFew>
    requires p_value { in_range p ≡ true }
    requires pointers_len { (length pointers.old ≡ pointers_len p) × (length offline.now ≡ offline_len p) × (drive < p.N) }
    ensures { (im : List ℕ)
        → Storing p count (map (reset drive) (good_zones p offline.now drive)) (mk_disk im pointers.old) result (mk_disk im pointers.new) }
{
    let mut left = count;
    for z in 0..p.Z {
        left = reset_good(p, pointers, offline, drive, z, left)?;
    }
    Ok(left)
}

// 01, Rebuild: the header of a segment in the drive's zone, under a store count; unit is room for a header with its spare, spare is all zero.
fn put_header_with(
    p: Params,
    image: &mut [u8],
    pointers: &mut [u8],
    unit: &mut [u8],
    spare: &[u8],
    drive: usize,
    zone: usize,
    segment: Seg,
    serial: Serial,
    copied: Serial,
    count: u64,
) -> Result<u64, TooFew>
    requires p_value { in_range p ≡ true }
    requires whole { Whole p (mk_disk image.old pointers.old) }
    requires drive_lt_n { (drive < p.N) × (zone < p.Z) × (pointer_of p pointers.old drive zone < capacity p) × (length unit.old ≡ unit_len p) × (spare.now ≡ zero_spare) }
    ensures { Storing p count (put drive zone (header_block p drive (zones_in p segment) serial.0 copied.0) zero_spare ∷ [])
        (mk_disk image.old pointers.old) result (mk_disk image.new pointers.new) }
{
    disk_records::write_header(unit, p, drive, segment, serial, copied);
    let b = p.B;
    disk_zones::put_limited(p, image, pointers, drive, zone, &unit[..b], spare, count)
}

// The same.
pub fn put_header(
    p: Params,
    image: &mut [u8],
    pointers: &mut [u8],
    drive: usize,
    segment: Seg,
    serial: Serial,
    copied: Serial,
    count: u64,
) -> Result<u64, TooFew>
    requires p_value { in_range p ≡ true }
    requires whole { Whole p (mk_disk image.old pointers.old) }
    requires drive_lt_n { (drive < p.N) × (zone_on segment drive < p.Z) × (pointer_of p pointers.old drive (zone_on segment drive) < capacity p) }
    ensures { Storing p count (put drive (zone_on segment drive) (header_block p drive (zones_in p segment) serial.0 copied.0) zero_spare ∷ [])
        (mk_disk image.old pointers.old) result (mk_disk image.new pointers.new) }
{
    let zone = disk_shape::zone_on(p, segment, drive);
    let mut unit = [0u8; disk_shape::UNIT];
    let spare = [0u8; disk_shape::SPARE];
    let n = disk_shape::unit_len(p);
    put_header_with(
        p,
        image,
        pointers,
        &mut unit[..n],
        &spare,
        drive,
        zone,
        segment,
        serial,
        copied,
        count,
    )
}
