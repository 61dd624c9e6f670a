// The zones of dropped segments are reset; and how stores in parts go on (specs/Going.antt) (01, Restart, 4; Store count; 02, item 4).
#![tactic(auto)]

ghost use Rattle.disk_drives.specs.Viewed.{viewed};
ghost use Rattle.std.specs.Prelude.{◌≡◌, true, cond, ◌||◌, List, [], ◌∷◌, ℕ, ◌*◌, ◌≤◌, ◌<◌, leb, ltb, length};
ghost use Rattle.spec.specs.Drives.{view_of, mk_disk};
ghost use Rattle.spec.specs.Drives.Store.{reset};
ghost use Rattle.spec.specs.Params.{in_range, image_len, pointers_len, offline_len};
ghost use Rattle.spec.specs.Restart.{drop_stores};
ghost use Rattle.spec.specs.Segments.{segments};
ghost use Rattle.recover_drop.specs.Dropped.{serial_no, untaken_no, one_drop, serial_drops, Drops};
ghost use Rattle.recover_drop.specs.Rising.{LeastKey};
ghost use Rattle.law_views.specs.Views.{Whole};
ghost use Rattle.disk_zones.specs.Made.{Storing};

use disk_drives::Drives;
use disk_zones::TooFew;
use spec::{Params, Serial};

// A reset under a store count; the image is left as it is.
pub fn reset_limited(
    p: Params,
    pointers: &mut [u8],
    drive: usize,
    zone: usize,
    count: u64,
) -> Result<u64, TooFew>
    requires p_value { in_range p ≡ true }
    requires pointers_len { (length pointers.old ≡ pointers_len p) × (drive < p.N) × (zone < p.Z) }
    ensures { (im : List ℕ) → Storing p count (reset drive zone ∷ []) (mk_disk im pointers.old) result (mk_disk im pointers.new) }
{
    if count == 0 {
        return Err(TooFew);
    }
    disk_zones::reset(p, pointers, drive, zone);
    Ok(count - 1)
}

// ---- zones by number: drive after drive

// Whether a zone is used and not taken.
fn is_untaken(p: Params, pointers: &[u8], offline: &[u8], taken: &[bool], i: usize) -> bool
    requires p_value { in_range p ≡ true }
    requires pointers_len { (length pointers.now ≡ pointers_len p) × (length offline.now ≡ offline_len p) × (p.N * p.Z ≤ length taken.now) × (i < p.N * p.Z) }
    ensures { (im : List ℕ) → length im ≡ image_len p → result ≡ untaken_no p (view_of p offline.now im pointers.now) taken.now i }
{
    if taken[i] {
        return false;
    }
    disk_gather::is_used(p, pointers, offline, i / p.Z, i % p.Z)
}

// The serial in a zone's header.
fn serial_no(p: Params, image: &[u8], i: usize) -> Serial
    requires p_value { in_range p ≡ true }
    requires image_len { (length image.now ≡ image_len p) × (i < p.N * p.Z) }
    ensures { (off : List ℕ) (ps : List ℕ) → length ps ≡ pointers_len p → result.0 ≡ serial_no p (view_of p off image.now ps) i }
{
    disk_gather::serial_in(p, image, i / p.Z, i % p.Z)
}

// Of zone i and of zone best, if there is one, that with the lower serial.
fn lower(p: Params, image: &[u8], n: usize, best: usize, i: usize) -> usize
    requires p_value { in_range p ≡ true }
    requires image_len { (length image.now ≡ image_len p) × (n ≡ p.N * p.Z) × (i < n) }
    ensures { (off : List ℕ) (ps : List ℕ)
        → length ps ≡ pointers_len p
        → result ≡ cond (leb n best || ltb (serial_no p (view_of p off image.now ps) i) (serial_no p (view_of p off image.now ps) best)) i best }
{
    if n <= best {
        return i;
    }
    let a = serial_no(p, image, i);
    let b = serial_no(p, image, best);
    if a.0 < b.0 {
        return i;
    }
    best
}

// Of the zones that are used and not taken, one with the lowest serial; as many as there are zones where none is.
fn lowest_untaken(drives: &Drives<'_>, taken: &[bool]) -> usize
    requires taken_long { (drives.now.p.N * drives.now.p.Z ≤ length taken.now) }
    ensures { LeastKey (untaken_no drives.now.p (viewed drives.now) taken.now)
        (serial_no drives.now.p (viewed drives.now)) (drives.now.p.N * drives.now.p.Z) result }
{
    let n = disk_shape::offline_len(drives.p);
    let mut best = n;
    for i in 0..n {
        if is_untaken(drives.p, drives.pointers, drives.offline, taken, i) {
            best = lower(drives.p, drives.image, n, best, i);
        }
    }
    best
}

// 02, item 4: zone i is reset if it is used, not taken, and bears the serial, under a store count.
fn drop_zone(
    p: Params,
    image: &[u8],
    pointers: &mut [u8],
    offline: &[u8],
    taken: &[bool],
    i: usize,
    serial: Serial,
    count: u64,
) -> Result<u64, TooFew>
    requires p_value { in_range p ≡ true }
    requires whole { Whole p (mk_disk image.now pointers.old) × (length offline.now ≡ offline_len p) × (p.N * p.Z ≤ length taken.now) × (i < p.N * p.Z) }
    ensures { Storing p count (one_drop p (view_of p offline.now image.now pointers.old) taken.now serial.0 i)
        (mk_disk image.now pointers.old) result (mk_disk image.now pointers.new) }
{
    if !is_untaken(p, pointers, offline, taken, i) {
        return Ok(count);
    }
    let s = serial_no(p, image, i);
    if s.0 != serial.0 {
        return Ok(count);
    }
    reset_limited(p, pointers, i / p.Z, i % p.Z, count)
}

// 02, item 4: the zones that are used, not taken, and bear the serial are reset, by drive, then zone, under a store count.
fn drop_serial(
    p: Params,
    image: &[u8],
    pointers: &mut [u8],
    offline: &[u8],
    taken: &[bool],
    serial: Serial,
    count: u64,
) -> Result<u64, TooFew>
    requires p_value { in_range p ≡ true }
    requires whole { Whole p (mk_disk image.now pointers.old) × (length offline.now ≡ offline_len p) × (p.N * p.Z ≤ length taken.now) }
    ensures { Storing p count (serial_drops p (view_of p offline.now image.now pointers.old) taken.now serial.0)
        (mk_disk image.now pointers.old) result (mk_disk image.now pointers.new) }
{
    let n = disk_shape::offline_len(p);
    let mut left = count;
    for i in 0..n {
        left = drop_zone(p, image, pointers, offline, taken, i, serial, left)?;
    }
    Ok(left)
}

// 01, Restart, 4; 02, item 4: all zones that bear a dropped serial are reset, the lower serial first, by drive, then zone, under a store count. The zones taken
// are those of remaining segments: a used zone bears a dropped serial just if it isn't taken. So with nothing dropped, no header is read.
pub fn drop_stores(
    p: Params,
    image: &[u8],
    pointers: &mut [u8],
    offline: &[u8],
    taken: &[bool],
    count: u64,
) -> Result<u64, TooFew>
    requires p_value { in_range p ≡ true }
    requires whole { Whole p (mk_disk image.now pointers.old) × (length offline.now ≡ offline_len p) }
    requires drops { Drops p (view_of p offline.now image.now pointers.old) taken.now }
    ensures { Storing p count (drop_stores p (view_of p offline.now image.now pointers.old)
        (segments p (view_of p offline.now image.now pointers.old) 0))
        (mk_disk image.now pointers.old) result (mk_disk image.now pointers.new) }
{
    let n = disk_shape::offline_len(p);
    let mut left = count;
    let mut at = lowest_untaken(
        &Drives {
            p,
            image,
            pointers,
            offline,
        },
        taken,
    );
    while at < n {
        let serial = serial_no(p, image, at);
        left = drop_serial(p, image, pointers, offline, taken, serial, left)?;
        at = lowest_untaken(
            &Drives {
                p,
                image,
                pointers,
                offline,
            },
            taken,
        );
    }
    Ok(left)
}
