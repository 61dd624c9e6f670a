// Refusal 9 of restart and rebuild but for the records: write pointers, headers, serials, the zones that headers name, footers (01, Refusals; 02, item 4).
#![tactic(auto)]

ghost use Rattle.std.specs.Prelude.{◌≡◌, true, false, cond, not, ◌&&◌, List, ℕ, ◌+◌, ◌*◌, ◌≤◌, ◌<◌, min, eqb, ltb, length, get_or, IfSome};
ghost use Rattle.spec.specs.Drives.{no_zone, view_of, zone_at, chunk_at, mk_disk, pointer_of, is_good, zone_on, zones_in, seg_with};
ghost use Rattle.spec.specs.Faults.{pointer_faults, header_fault, footer_fault_in};
ghost use Rattle.spec.specs.Layout.{header_zone};
ghost use Rattle.spec.specs.Lists.{any, below, is_in};
ghost use Rattle.spec.specs.Params.{in_range, footers, capacity, image_len, pointers_len, offline_len, present};
ghost use Rattle.spec.specs.Segments.{segment_of};
ghost use Rattle.law_basic.specs.Segs.{ZonesLow};
ghost use Rattle.law_views.specs.Views.{Whole};
ghost use Rattle.law_drives.specs.Segs.{Here};
ghost use Rattle.disk_gather.specs.Flags.{Keeps};
ghost use Rattle.disk_gather.specs.Ranges.{opt_first};
ghost use Rattle.recover_headers.specs.Fronts.{above_by, header_off, footer_off};
ghost use Rattle.recover_headers.specs.Names.{NameCounts, name_bad, FrontSays};

use spec::{Params, Seg, Serial};

// ---- pointers

// A present drive's write pointer of the zone, a good one, is above capacity.
fn is_above(p: Params, pointers: &[u8], offline: &[u8], gone: u8, drive: usize, zone: usize) -> bool
    requires p_value { in_range p ≡ true }
    requires pointers_len { (length pointers.now ≡ pointers_len p) × (length offline.now ≡ offline_len p) × (drive < p.N) × (zone < p.Z) }
    ensures { result ≡ (not (is_in gone drive) && (is_good p offline.now drive zone && ltb (capacity p) (pointer_of p pointers.now drive zone))) }
{
    if bits_masks::has_drive(gone, drive) {
        return false;
    }
    if !disk_zones::is_good(p, offline, drive, zone) {
        return false;
    }
    disk_shape::capacity(p) < disk_zones::pointer(p, pointers, drive, zone) as usize
}

// That of some present drive.
fn any_above(p: Params, pointers: &[u8], offline: &[u8], gone: u8, zone: usize) -> bool
    requires p_value { in_range p ≡ true }
    requires pointers_len { (length pointers.now ≡ pointers_len p) × (length offline.now ≡ offline_len p) × (zone < p.Z) }
    ensures { result ≡ above_by p pointers.now offline.now gone zone }
{
    (0..p.N).any(|d| is_above(p, pointers, offline, gone, d, zone))
}

// 01, Refusals, 9; 02, item 4: the lowest zone with a present drive's write pointer above capacity, in a good zone.
pub fn pointer_fault(p: Params, pointers: &[u8], offline: &[u8], gone: u8) -> Option<usize>
    requires p_value { in_range p ≡ true }
    requires pointers_len { (length pointers.now ≡ pointers_len p) × (length offline.now ≡ offline_len p) }
    ensures low { IfSome result (λ z. z < p.Z) }
    ensures first { (im : List ℕ)
        → length im ≡ image_len p
        → result ≡ opt_first (pointer_faults p (view_of p offline.now im pointers.now) gone) }
{
    (0..p.Z).find(|z| any_above(p, pointers, offline, gone, *z))
}

// ---- headers

// 02, item 4: the zones that the header in a zone names, by drive.
fn names_in(p: Params, image: &[u8], drive: usize, zone: usize) -> Seg
    requires p_value { in_range p ≡ true }
    requires image_len { (length image.now ≡ image_len p) × (drive < p.N) × (zone < p.Z) }
    ensures { (off : List ℕ) (ps : List ℕ)
        → length ps ≡ pointers_len p
        → result ≡ seg_with p (header_zone p (chunk_at (view_of p off image.now ps) drive zone 0).block) }
{
    let mut zones = [0u32; 8];
    for d in 0..p.N {
        zones[d] = disk_gather::zone_named(p, image, drive, zone, d);
    }
    Seg { zones }
}

// A present drive's header is not the one that these names and serials give, or its spare is not zero.
fn header_differs(
    p: Params,
    image: &[u8],
    gone: u8,
    drive: usize,
    segment: Seg,
    names: Seg,
    serial: Serial,
    copied: Serial,
) -> bool
    requires p_value { in_range p ≡ true }
    requires image_len { (length image.now ≡ image_len p) × (drive < p.N) × ZonesLow p gone segment }
    ensures { result ≡ (not (is_in gone drive) && header_off p image.now segment names serial.0 copied.0 drive) }
{
    if bits_masks::has_drive(gone, drive) {
        return false;
    }
    let zone = disk_shape::zone_on(p, segment, drive);
    let a = disk_shape::block_byte(p, drive, zone, 0);
    let e = a + disk_shape::unit_len(p);
    !disk_records::is_header(&image[a..e], p, drive, names, serial, copied)
}

// 01, Refusals, 9: some present drive's header is not as it should be; names and serials are those of the lowest present drive's.
fn header_fault(
    p: Params,
    image: &[u8],
    gone: u8,
    segment: Seg,
    names: Seg,
    serial: Serial,
    copied: Serial,
) -> bool
    requires p_value { in_range p ≡ true }
    requires image_len { (length image.now ≡ image_len p) × ZonesLow p gone segment }
    ensures { (off : List ℕ) (ps : List ℕ)
        → length ps ≡ pointers_len p
        → zones_in p names ≡ (segment_of p (view_of p off image.now ps) gone segment).names
        → serial.0 ≡ (segment_of p (view_of p off image.now ps) gone segment).serial
        → copied.0 ≡ (segment_of p (view_of p off image.now ps) gone segment).copied
        → result ≡ header_fault p gone (segment_of p (view_of p off image.now ps) gone segment) }
{
    (0..p.N).any(|d| header_differs(p, image, gone, d, segment, names, serial, copied))
}

// A present drive's zone is not the one that is named for it.
fn not_own(p: Params, gone: u8, drive: usize, segment: Seg, names: Seg) -> bool
    requires p_value { in_range p ≡ true }
    requires drive_lt_n { drive < p.N }
    ensures { result ≡ (not (is_in gone drive) && not (eqb (zone_on names drive) (zone_on segment drive))) }
{
    if bits_masks::has_drive(gone, drive) {
        return false;
    }
    disk_shape::zone_on(p, names, drive) != disk_shape::zone_on(p, segment, drive)
}

// 02, item 4: a header names for its own drive another zone than its own.
fn own_fault(p: Params, gone: u8, segment: Seg, names: Seg) -> bool
    requires { in_range p ≡ true }
    ensures { result ≡ any (λ d. not (eqb (zone_on names d) (zone_on segment d))) (present p gone) }
{
    (0..p.N).any(|d| not_own(p, gone, d, segment, names))
}

// ---- names: how often a zone is named is counted once for all segments

// By drive and zone, one more for a zone, up to 2; a number that is no zone is not counted.
fn count_name(p: Params, counts: &mut [u8], drive: usize, zone: usize)
    requires p_value { in_range p ≡ true }
    requires z_in_bounds { (p.N * p.Z ≤ length counts.old) × (drive < p.N) }
    ensures { (d z : ℕ)
        → d < p.N
        → z < p.Z
        → get_or counts.new (d * p.Z + z) 0
        ≡ cond (eqb drive d && eqb zone z) (min 2 (get_or counts.old (d * p.Z + z) 0 + 1)) (get_or counts.old (d * p.Z + z) 0) }
{
    if p.Z <= zone {
        return;
    }
    let at = disk_shape::offline_at(p, drive, zone);
    if counts[at] == 0 {
        counts[at] = 1;
        return;
    }
    counts[at] = 2;
}

// The same for the zones of all drives.
fn count_names(p: Params, counts: &mut [u8], names: Seg)
    requires p_value { in_range p ≡ true }
    requires z_in_bounds { p.N * p.Z ≤ length counts.old }
    ensures { (d z : ℕ)
        → d < p.N
        → z < p.Z
        → get_or counts.new (d * p.Z + z) 0
        ≡ cond (eqb (zone_on names d) z) (min 2 (get_or counts.old (d * p.Z + z) 0 + 1)) (get_or counts.old (d * p.Z + z) 0) }
{
    for d in 0..p.N {
        count_name(p, counts, d, disk_shape::zone_on(p, names, d));
    }
}

// The names in the header of a zone of a drive, if flagged.
fn count_if(p: Params, image: &[u8], flag: bool, counts: &mut [u8], drive: usize, zone: usize)
    requires p_value { in_range p ≡ true }
    requires image_len { (length image.now ≡ image_len p) × (p.N * p.Z ≤ length counts.old) × (drive < p.N) × (zone < p.Z) }
    ensures { (off : List ℕ) (ps : List ℕ)
        → length ps ≡ pointers_len p
        → (d y : ℕ)
        → d < p.N
        → y < p.Z
        → get_or counts.new (d * p.Z + y) 0
        ≡ cond (flag && eqb (header_zone p (chunk_at (view_of p off image.now ps) drive zone 0).block d) y)
        (min 2 (get_or counts.old (d * p.Z + y) 0 + 1)) (get_or counts.old (d * p.Z + y) 0) }
{
    if !flag {
        return;
    }
    count_names(p, counts, names_in(p, image, drive, zone));
}

// 02, item 4: by drive and zone, how many of the remaining segments name it, up to 2.
pub fn name_counts(p: Params, image: &[u8], gone: u8, kept: &[bool], counts: &mut [u8])
    requires p_value { in_range p ≡ true }
    requires image_len { (length image.now ≡ image_len p) × (p.Z ≤ length kept.now) × (p.N * p.Z ≤ length counts.old) }
    ensures { (off : List ℕ) (ps : List ℕ)
        → length ps ≡ pointers_len p
        → Keeps p (view_of p off image.now ps) gone kept.now
        → NameCounts p (view_of p off image.now ps) gone counts.new }
{
    let low = disk_gather::low_drive(p, gone);
    disk_blocks::clear(counts);
    for z in 0..p.Z {
        count_if(p, image, kept[z], counts, low, z);
    }
}

// 02, item 4: a named zone is offline, not below Z, or named twice.
fn is_bad_name(p: Params, offline: &[u8], counts: &[u8], drive: usize, zone: usize) -> bool
    requires p_value { in_range p ≡ true }
    requires offline_len { (length offline.now ≡ offline_len p) × (p.N * p.Z ≤ length counts.now) × (drive < p.N) }
    ensures { result ≡ name_bad p offline.now counts.now drive zone }
{
    if p.Z <= zone {
        return true;
    }
    if !disk_zones::is_good(p, offline, drive, zone) {
        return true;
    }
    2 <= counts[disk_shape::offline_at(p, drive, zone)]
}

// That of some drive.
fn name_fault(p: Params, offline: &[u8], counts: &[u8], names: Seg) -> bool
    requires p_value { in_range p ≡ true }
    requires offline_len { (length offline.now ≡ offline_len p) × (p.N * p.Z ≤ length counts.now) }
    ensures { result ≡ any (λ d. name_bad p offline.now counts.now d (zone_on names d)) (below p.N) }
{
    (0..p.N).any(|d| is_bad_name(p, offline, counts, d, disk_shape::zone_on(p, names, d)))
}

// 01, Refusals, 9; 02, item 4: a remaining segment's headers, what they name, or its serials; repeated: a present drive bears its serial twice.
pub fn front_fault(
    p: Params,
    image: &[u8],
    offline: &[u8],
    gone: u8,
    counts: &[u8],
    segment: Seg,
    serial: Serial,
    repeated: bool,
) -> bool
    requires p_value { in_range p ≡ true }
    requires image_len { (length image.now ≡ image_len p) × (length offline.now ≡ offline_len p) × (p.N * p.Z ≤ length counts.now) }
    requires here { Here p gone × ZonesLow p gone segment }
    ensures { FrontSays p offline.now image.now gone counts.now segment serial.0 repeated result }
{
    let low = disk_gather::low_drive(p, gone);
    let zone = disk_shape::zone_on(p, segment, low);
    let names = names_in(p, image, low, zone);
    let copied = disk_gather::copied_in(p, image, low, zone);
    if header_fault(p, image, gone, segment, names, serial, copied) {
        return true;
    }
    if own_fault(p, gone, segment, names) {
        return true;
    }
    if name_fault(p, offline, counts, names) {
        return true;
    }
    if repeated {
        return true;
    }
    serial.0 <= copied.0
}

// ---- footers

// Footer block i is not made from the zone's spares; scratch is room for the block.
fn footer_unlike(
    p: Params,
    image: &[u8],
    scratch: &mut [u8],
    drive: usize,
    zone: usize,
    i: usize,
) -> bool
    requires p_value { in_range p ≡ true }
    requires image_len { (length image.now ≡ image_len p) × (p.B ≤ length scratch.old) × (drive < p.N) × (zone < p.Z) × (i < footers p) }
    ensures { (off : List ℕ) (ps : List ℕ) → length ps ≡ pointers_len p → result ≡ footer_off p (zone_at (view_of p off image.now ps) drive zone) i }
{
    let b = p.B;
    disk_footers::make_footer(p, image, drive, zone, i, &mut scratch[..b]);
    let a = disk_shape::block_byte(p, drive, zone, 1 + p.S + i);
    let e = a + b;
    !disk_blocks::same(&image[a..e], &scratch[..b])
}

// Footer block i is not made from the zone's spares.
fn footer_differs(p: Params, image: &[u8], drive: usize, zone: usize, i: usize) -> bool
    requires p_value { in_range p ≡ true }
    requires image_len { (length image.now ≡ image_len p) × (drive < p.N) × (zone < p.Z) × (i < footers p) }
    ensures { (off : List ℕ) (ps : List ℕ) → length ps ≡ pointers_len p → result ≡ footer_off p (zone_at (view_of p off image.now ps) drive zone) i }
{
    let mut scratch = [0u8; 4096];
    footer_unlike(p, image, &mut scratch, drive, zone, i)
}

// 01, Refusals, 9: a stored footer block of the zone is not made from its spares.
fn zone_footer_fault(p: Params, image: &[u8], pointers: &[u8], drive: usize, zone: usize) -> bool
    requires p_value { in_range p ≡ true }
    requires whole { Whole p (mk_disk image.now pointers.now) }
    requires drive_lt_n { (drive < p.N) × (zone < p.Z) }
    ensures { (off : List ℕ) → result ≡ footer_fault_in p (zone_at (view_of p off image.now pointers.now) drive zone) }
{
    let n = disk_stored::footers_stored(p, pointers, drive, zone);
    (0..n).any(|i| footer_differs(p, image, drive, zone, i))
}

// The same of any drive; a missing one is not looked at.
fn drive_footer_fault(
    p: Params,
    image: &[u8],
    pointers: &[u8],
    gone: u8,
    drive: usize,
    segment: Seg,
) -> bool
    requires p_value { in_range p ≡ true }
    requires whole { Whole p (mk_disk image.now pointers.now) }
    requires drive_lt_n { (drive < p.N) × ZonesLow p gone segment }
    ensures { (off : List ℕ)
        → result ≡ (not (is_in gone drive) && footer_fault_in p (zone_at (view_of p off image.now pointers.now) drive (zone_on segment drive))) }
{
    if bits_masks::has_drive(gone, drive) {
        return false;
    }
    let zone = disk_shape::zone_on(p, segment, drive);
    zone_footer_fault(p, image, pointers, drive, zone)
}

// 01, Refusals, 9: a stored footer block of a present zone of the segment is not made from its spares.
pub fn footer_fault(p: Params, image: &[u8], pointers: &[u8], gone: u8, segment: Seg) -> bool
    requires p_value { in_range p ≡ true }
    requires whole { Whole p (mk_disk image.now pointers.now) }
    requires zones_low { ZonesLow p gone segment }
    ensures { (off : List ℕ)
        → result
        ≡ any (λ d. footer_fault_in p (get_or (segment_of p (view_of p off image.now pointers.now) gone segment).zones_by_holds d no_zone)) (present p gone) }
{
    (0..p.N).any(|d| drive_footer_fault(p, image, pointers, gone, d, segment))
}
