// Questions about the segments that remain, by what was gathered of them (01, Restart, 2 and 4; 02, item 4).
#![tactic(auto)]

ghost use Rattle.std.specs.Prelude.{◌≡◌, true, false, cond, not, ◌&&◌, ◌||◌, List, ℕ, ◌+◌, ◌*◌, ◌≤◌, ◌<◌, max, eqb, length, get_or, IfSome};
ghost use Rattle.spec.specs.Bytes.{part};
ghost use Rattle.spec.specs.Drives.{View, view_of, zone_on, sealed_in, seg};
ghost use Rattle.spec.specs.Layout.{header_serial, header_copied};
ghost use Rattle.spec.specs.Lists.{below, keep, first_or};
ghost use Rattle.spec.specs.Params.{in_range, image_len, pointers_len, offline_len};
ghost use Rattle.spec.specs.Restart.{free_seg, none_free_of};
ghost use Rattle.spec.specs.Segments.{header_at, segments, greatest_serial, unsealed};
ghost use Rattle.law_basic.specs.Segs.{ZonesLow};
ghost use Rattle.law_drives.specs.Segs.{Here};
ghost use Rattle.disk_gather.specs.Flags.{Serials, Keeps, FlagsRows};
ghost use Rattle.disk_gather.specs.Ranges.{opt_first};
ghost use Rattle.recover_segments.specs.Kept.{RowsLow, unsealed_at};
ghost use Rattle.recover_segments.specs.Taken.{TakenOfTaken, free_in};

use spec::{Params, Seg, Serial};

// ---- headers

// The serial in a segment's header on a drive.
pub fn serial_on(p: Params, image: &[u8], drive: usize, segment: Seg) -> Serial
    requires p_value { in_range p ≡ true }
    requires image_len { (length image.now ≡ image_len p) × (drive < p.N) × (zone_on segment drive < p.Z) }
    ensures { (off : List ℕ) (ps : List ℕ)
        → length ps ≡ pointers_len p
        → result.0 ≡ header_serial p (header_at (view_of p off image.now ps) drive segment) }
{
    let zone = disk_shape::zone_on(p, segment, drive);
    disk_gather::serial_in(p, image, drive, zone)
}

// The copied serial there.
pub fn copied_on(p: Params, image: &[u8], drive: usize, segment: Seg) -> Serial
    requires p_value { in_range p ≡ true }
    requires image_len { (length image.now ≡ image_len p) × (drive < p.N) × (zone_on segment drive < p.Z) }
    ensures { (off : List ℕ) (ps : List ℕ)
        → length ps ≡ pointers_len p
        → result.0 ≡ header_copied p (header_at (view_of p off image.now ps) drive segment) }
{
    let zone = disk_shape::zone_on(p, segment, drive);
    disk_gather::copied_in(p, image, drive, zone)
}

// ---- serials and seals

// The greater of two, if the second is flagged.
fn greater_if(flag: bool, a: Serial, b: Serial) -> Serial
    ensures { result.0 ≡ cond flag (max a.0 b.0) a.0 }
{
    if !flag {
        return a;
    }
    Serial(a.0.max(b.0))
}

// 01, Restart: the greatest remaining serial.
pub fn greatest_serial(p: Params, kept: &[bool], serials: &[u64]) -> Serial
    requires { (p.Z ≤ length kept.now) × (p.Z ≤ length serials.now) }
    ensures { (v : View) (gone : ℕ)
        → Here p gone
        → Keeps p v gone kept.now
        → Serials p v gone serials.now
        → result.0 ≡ greatest_serial (segments p v gone) }
{
    let mut most = Serial(0);
    for z in 0..p.Z {
        most = greater_if(kept[z], most, Serial(serials[z]));
    }
    most
}

// 01, Restart, 4: a segment remains at a zone of the lowest present drive, and it is not sealed.
pub fn is_unsealed(
    p: Params,
    pointers: &[u8],
    gone: u8,
    kept: &[bool],
    rows: &[u32],
    z: usize,
) -> bool
    requires p_value { in_range p ≡ true }
    requires pointers_len { (length pointers.now ≡ pointers_len p) × RowsLow p gone kept.now rows.now × (z < p.Z) }
    ensures { (off : List ℕ) (im : List ℕ)
        → length im ≡ image_len p
        → result ≡ (get_or kept.now z false && not (sealed_in p (view_of p off im pointers.now) gone (seg (part (8 * z) 8 rows.now)))) }
{
    if !kept[z] {
        return false;
    }
    !disk_zones::is_sealed(p, pointers, gone, disk_gather::row(rows, z))
}

// 01, Restart, 4: the lowest zone of the lowest present drive at which an unsealed segment remains.
pub fn first_unsealed(
    p: Params,
    pointers: &[u8],
    gone: u8,
    kept: &[bool],
    rows: &[u32],
) -> Option<usize>
    requires p_value { in_range p ≡ true }
    requires pointers_len { (length pointers.now ≡ pointers_len p) × RowsLow p gone kept.now rows.now }
    ensures low { IfSome result (λ z. z < p.Z) }
    ensures first { (off : List ℕ) (im : List ℕ)
        → length im ≡ image_len p
        → Keeps p (view_of p off im pointers.now) gone kept.now
        → FlagsRows p (view_of p off im pointers.now) gone rows.now
        → result ≡ opt_first (keep (unsealed_at p (view_of p off im pointers.now) gone) (below p.Z)) }
{
    (0..p.Z).find(|z| is_unsealed(p, pointers, gone, kept, rows, *z))
}

// 01, Refusals, 9: how many segments are unsealed.
pub fn unsealed_count(p: Params, pointers: &[u8], gone: u8, kept: &[bool], rows: &[u32]) -> usize
    requires p_value { in_range p ≡ true }
    requires pointers_len { (length pointers.now ≡ pointers_len p) × RowsLow p gone kept.now rows.now }
    ensures upper_bound { result ≤ p.Z }
    ensures by_index { (off : List ℕ) (im : List ℕ)
        → length im ≡ image_len p
        → Keeps p (view_of p off im pointers.now) gone kept.now
        → FlagsRows p (view_of p off im pointers.now) gone rows.now
        → result ≡ length (unsealed (segments p (view_of p off im pointers.now) gone)) }
{
    let mut n = 0;
    for z in 0..p.Z {
        if is_unsealed(p, pointers, gone, kept, rows, z) {
            n += 1;
        }
    }
    n
}

// ---- zones that the segments have

// No zone is marked.
fn clear_marks(p: Params, marks: &mut [bool])
    requires p_value { in_range p ≡ true }
    requires z_in_bounds { p.N * p.Z ≤ length marks.old }
    ensures { (j : ℕ) → j < p.N * p.Z → get_or marks.new j false ≡ false }
{
    let n = disk_shape::offline_len(p);
    for i in 0..n {
        marks[i] = false;
    }
}

// By drive and zone, marks a zone; a number that is no zone marks nothing.
fn mark(p: Params, marks: &mut [bool], drive: usize, zone: usize)
    requires p_value { in_range p ≡ true }
    requires z_in_bounds { (p.N * p.Z ≤ length marks.old) × (drive < p.N) }
    ensures { (d z : ℕ)
        → d < p.N
        → z < p.Z
        → get_or marks.new (d * p.Z + z) false ≡ (get_or marks.old (d * p.Z + z) false || (eqb drive d && eqb zone z)) }
{
    if p.Z <= zone {
        return;
    }
    let at = disk_shape::offline_at(p, drive, zone);
    marks[at] = true;
}

// Marks the zones of a segment.
fn mark_segment(p: Params, marks: &mut [bool], segment: Seg)
    requires p_value { in_range p ≡ true }
    requires z_in_bounds { p.N * p.Z ≤ length marks.old }
    ensures { (d z : ℕ)
        → d < p.N
        → z < p.Z
        → get_or marks.new (d * p.Z + z) false ≡ (get_or marks.old (d * p.Z + z) false || eqb (zone_on segment d) z) }
{
    for d in 0..p.N {
        mark(p, marks, d, disk_shape::zone_on(p, segment, d));
    }
}

// Marks them if flagged.
fn mark_if(p: Params, flag: bool, marks: &mut [bool], rows: &[u32], z: usize)
    requires p_value { in_range p ≡ true }
    requires z_in_bounds { (p.N * p.Z ≤ length marks.old) × (8 * p.Z ≤ length rows.now) × (z < p.Z) }
    ensures { (d y : ℕ)
        → d < p.N
        → y < p.Z
        → get_or marks.new (d * p.Z + y) false
        ≡ (get_or marks.old (d * p.Z + y) false || (flag && eqb (zone_on (seg (part (8 * z) 8 rows.now)) d) y)) }
{
    if !flag {
        return;
    }
    mark_segment(p, marks, disk_gather::row(rows, z));
}

// 02, item 4: by drive and zone, which zones the remaining segments have.
pub fn taken(p: Params, kept: &[bool], rows: &[u32], marks: &mut [bool])
    requires p_value { in_range p ≡ true }
    requires z_in_bounds { (p.Z ≤ length kept.now) × (8 * p.Z ≤ length rows.now) × (p.N * p.Z ≤ length marks.old) }
    ensures { (v : View) (gone : ℕ)
        → Keeps p v gone kept.now
        → FlagsRows p v gone rows.now
        → TakenOfTaken p v gone marks.new }
{
    clear_marks(p, marks);
    for z in 0..p.Z {
        mark_if(p, kept[z], marks, rows, z);
    }
}

// ---- zones that are free

// 02, item 4: whether a zone is good and no remaining segment has it.
fn is_free(p: Params, offline: &[u8], marks: &[bool], drive: usize, zone: usize) -> bool
    requires p_value { in_range p ≡ true }
    requires offline_len { (length offline.now ≡ offline_len p) × (p.N * p.Z ≤ length marks.now) × (drive < p.N) × (zone < p.Z) }
    ensures { result ≡ free_in p offline.now marks.now drive zone }
{
    if !disk_zones::is_good(p, offline, drive, zone) {
        return false;
    }
    !marks[disk_shape::offline_at(p, drive, zone)]
}

// 02, item 4: the lowest such zone of a drive.
fn lowest_free(p: Params, offline: &[u8], marks: &[bool], drive: usize) -> Option<usize>
    requires p_value { in_range p ≡ true }
    requires offline_len { (length offline.now ≡ offline_len p) × (p.N * p.Z ≤ length marks.now) × (drive < p.N) }
    ensures { result ≡ opt_first (keep (free_in p offline.now marks.now drive) (below p.Z)) }
{
    (0..p.Z).find(|z| is_free(p, offline, marks, drive, *z))
}

// The same; 0 where there is none.
fn free_zone(p: Params, offline: &[u8], marks: &[bool], drive: usize) -> usize
    requires p_value { in_range p ≡ true }
    requires offline_len { (length offline.now ≡ offline_len p) × (p.N * p.Z ≤ length marks.now) × (drive < p.N) }
    ensures { (result ≡ first_or 0 (keep (free_in p offline.now marks.now drive) (below p.Z))) × (result < p.Z) }
{
    lowest_free(p, offline, marks, drive).unwrap_or(0)
}

// 02, item 4: the segment that the rewrite takes: each drive's lowest good zone that no remaining segment has.
pub fn free_segment(p: Params, offline: &[u8], marks: &[bool]) -> Seg
    requires p_value { in_range p ≡ true }
    requires offline_len { (length offline.now ≡ offline_len p) × (p.N * p.Z ≤ length marks.now) }
    ensures by_index { (im ps : List ℕ) (gone : ℕ)
        → TakenOfTaken p (view_of p offline.now im ps) gone marks.now
        → result ≡ free_seg p (view_of p offline.now im ps) (segments p (view_of p offline.now im ps) gone) }
    ensures zones_low { ZonesLow p 0 result }
{
    let mut zones = [0u32; 8];
    for d in 0..p.N {
        zones[d] = free_zone(p, offline, marks, d) as u32;
    }
    Seg { zones }
}

// 01, Refusals, 8; 02, item 4: whether some drive has none.
pub fn none_free(p: Params, offline: &[u8], marks: &[bool]) -> bool
    requires p_value { in_range p ≡ true }
    requires offline_len { (length offline.now ≡ offline_len p) × (p.N * p.Z ≤ length marks.now) }
    ensures { (im ps : List ℕ) (gone : ℕ)
        → TakenOfTaken p (view_of p offline.now im ps) gone marks.now
        → result ≡ none_free_of p (view_of p offline.now im ps) (segments p (view_of p offline.now im ps) gone) }
{
    (0..p.N).any(|d| lowest_free(p, offline, marks, d).is_none())
}
