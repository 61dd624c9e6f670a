// Write pointers and stores (01, The array; Store count).
#![tactic(auto)]

ghost use Rattle.std.specs.Prelude.{◌≡◌, true, ◌||◌, List, [], ◌∷◌, ℕ, ◌+◌, ◌≤◌, ◌<◌, min, eqb, length};
ghost use Rattle.spec.specs.Drives.{view_of, mk_disk, pointer_of, set_pointer, store_disk, is_good, good_count, empty_count, new_seg, zone_on, sealed_in, zero_spare};
ghost use Rattle.spec.specs.Drives.{header_stores, reset_stores, zones_in};
ghost use Rattle.spec.specs.Drives.Store.{put};
ghost use Rattle.spec.specs.Layout.{header_block};
ghost use Rattle.spec.specs.Lists.{below, keep, tally, first_or, is_in};
ghost use Rattle.spec.specs.Params.{in_range, spare_len, capacity, image_len, pointers_len, offline_len};
ghost use Rattle.law_views.specs.Views.{Whole};
ghost use Rattle.disk_zones.specs.Empty.{free_by};
ghost use Rattle.disk_zones.specs.Made.{Storing};
ghost use Rattle.spec.specs.declared.Seg.{Seg};
ghost use Rattle.law_basic.specs.Segs.{ZonesLow};

use spec::{Params, Seg, Serial};

// 01, Store count: the number was too small for the stores. A function that stores under a count answers what is left of it, or this.
#[derive(Clone, Copy, Debug, PartialEq, Eq)]
pub struct TooFew;

// A zone's write pointer.
pub fn pointer(p: Params, pointers: &[u8], drive: usize, zone: usize) -> u32
    requires p_value { in_range p ≡ true }
    requires pointers_len { (length pointers.now ≡ pointers_len p) × (drive < p.N) × (zone < p.Z) }
    ensures { result ≡ pointer_of p pointers.now drive zone }
{
    bits_be::read_be32(pointers, disk_shape::pointer_byte(p, drive, zone))
}

fn set_pointer(p: Params, pointers: &mut [u8], drive: usize, zone: usize, n: u32)
    requires p_value { in_range p ≡ true }
    requires pointers_len { (length pointers.old ≡ pointers_len p) × (drive < p.N) × (zone < p.Z) }
    ensures { pointers.new ≡ set_pointer p pointers.old drive zone n }
{
    let at = disk_shape::pointer_byte(p, drive, zone);
    bits_be::write_be32(pointers, at, n);
}

// 01, The array: a store of a block with its spare at the zone's pointer, which is raised by 1.
pub fn put(
    p: Params,
    image: &mut [u8],
    pointers: &mut [u8],
    drive: usize,
    zone: usize,
    block: &[u8],
    spare: &[u8],
)
    requires p_value { in_range p ≡ true }
    requires whole { Whole p (mk_disk image.old pointers.old) }
    requires drive_lt_n { (drive < p.N) × (zone < p.Z) × (pointer_of p pointers.old drive zone < capacity p) }
    requires block_len { (length block.now ≡ p.B) × (length spare.now ≡ spare_len) }
    ensures { mk_disk image.new pointers.new
        ≡ store_disk p (put drive zone block.now spare.now) (mk_disk image.old pointers.old) }
{
    let n = pointer(p, pointers, drive, zone);
    let at = disk_shape::block_byte(p, drive, zone, n as usize);
    let after = at + p.B;
    disk_blocks::copy_part(image, at, block);
    disk_blocks::copy_part(image, after, spare);
    set_pointer(p, pointers, drive, zone, n + 1);
}

// 01, The array: a reset; the pointer is 0, the bytes are kept.
pub fn reset(p: Params, pointers: &mut [u8], drive: usize, zone: usize)
    requires p_value { in_range p ≡ true }
    requires pointers_len { (length pointers.old ≡ pointers_len p) × (drive < p.N) × (zone < p.Z) }
    ensures { pointers.new ≡ set_pointer p pointers.old drive zone 0 }
{
    set_pointer(p, pointers, drive, zone, 0);
}

// The store of a segment's header in a zone, written in its place.
fn put_header(
    p: Params,
    image: &mut [u8],
    pointers: &mut [u8],
    drive: usize,
    zone: usize,
    segment: Seg,
    serial: Serial,
    copied: Serial,
)
    requires p_value { in_range p ≡ true }
    requires whole { Whole p (mk_disk image.old pointers.old) }
    requires drive_lt_n { (drive < p.N) × (zone < p.Z) × (pointer_of p pointers.old drive zone < capacity p) }
    ensures { mk_disk image.new pointers.new
        ≡ store_disk p (put drive zone (header_block p drive (zones_in p segment) serial.0 copied.0) zero_spare)
        (mk_disk image.old pointers.old) }
{
    let n = pointer(p, pointers, drive, zone);
    let at = disk_shape::block_byte(p, drive, zone, n as usize);
    let end = at + disk_shape::unit_len(p);
    disk_records::write_header(&mut image[at..end], p, drive, segment, serial, copied);
    set_pointer(p, pointers, drive, zone, n + 1);
}

// A put under a store count.
pub fn put_limited(
    p: Params,
    image: &mut [u8],
    pointers: &mut [u8],
    drive: usize,
    zone: usize,
    block: &[u8],
    spare: &[u8],
    count: u64,
) -> Result<u64, TooFew>
    requires p_value { in_range p ≡ true }
    requires whole { Whole p (mk_disk image.old pointers.old) }
    requires drive_lt_n { (drive < p.N) × (zone < p.Z) × (pointer_of p pointers.old drive zone < capacity p) }
    requires block_len { (length block.now ≡ p.B) × (length spare.now ≡ spare_len) }
    ensures { Storing p count (put drive zone block.now spare.now ∷ []) (mk_disk image.old pointers.old) result
        (mk_disk image.new pointers.new) }
{
    if count == 0 {
        return Err(TooFew);
    }
    put(p, image, pointers, drive, zone, block, spare);
    Ok(count - 1)
}

// The headers of an opened segment, by drive, under a store count.
pub fn header_stores(
    p: Params,
    image: &mut [u8],
    pointers: &mut [u8],
    segment: Seg,
    serial: Serial,
    copied: Serial,
    count: u64,
) -> Result<u64, TooFew>
    requires p_value { in_range p ≡ true }
    requires whole { Whole p (mk_disk image.old pointers.old) }
    requires zones_low { ZonesLow p 0 segment × ((d : ℕ) → d < p.N → pointer_of p pointers.old d (zone_on segment d) < capacity p) }
    ensures { Storing p count (header_stores p segment serial.0 copied.0) (mk_disk image.old pointers.old) result
        (mk_disk image.new pointers.new) }
{
    let mut left = count;
    for d in 0..p.N {
        if left == 0 {
            return Err(TooFew);
        }
        let zone = disk_shape::zone_on(p, segment, d);
        put_header(p, image, pointers, d, zone, segment, serial, copied);
        left -= 1;
    }
    Ok(left)
}

// The resets of a segment, by drive, under a store count; the image is left as it is.
pub fn reset_stores(p: Params, pointers: &mut [u8], segment: Seg, count: u64) -> Result<u64, TooFew>
    requires p_value { in_range p ≡ true }
    requires pointers_len { (length pointers.old ≡ pointers_len p) × ZonesLow p 0 segment }
    ensures { (im : List ℕ) → Storing p count (reset_stores p segment) (mk_disk im pointers.old) result (mk_disk im pointers.new) }
{
    let mut left = count;
    for d in 0..p.N {
        if left == 0 {
            return Err(TooFew);
        }
        let zone = disk_shape::zone_on(p, segment, d);
        reset(p, pointers, d, zone);
        left -= 1;
    }
    Ok(left)
}

// 02, item 4: whether a zone is good: its byte in the list of offline zones is 0.
pub fn is_good(p: Params, offline: &[u8], drive: usize, zone: usize) -> bool
    requires p_value { in_range p ≡ true }
    requires offline_len { (length offline.now ≡ offline_len p) × (drive < p.N) × (zone < p.Z) }
    ensures { result ≡ is_good p offline.now drive zone }
{
    offline[disk_shape::offline_at(p, drive, zone)] == 0
}

// 02, item 4: how many zones of a drive from lo up to hi are good; so few at a time that a byte counts them.
fn good_among(p: Params, offline: &[u8], drive: usize, lo: usize, hi: usize) -> usize
    requires p_value { in_range p ≡ true }
    requires offline_len { (length offline.now ≡ offline_len p) × (drive < p.N) × (lo ≤ hi) × (hi ≤ p.Z) × (hi ≤ lo + 224) }
    ensures { tally (is_good p offline.now drive) (below lo) + result ≡ tally (is_good p offline.now drive) (below hi) }
{
    let first = disk_shape::offline_at(p, drive, 0);
    let mut n = 0u8;
    for z in lo..hi {
        if offline[first + z] == 0 {
            n += 1;
        }
    }
    n as usize
}

// 02, item 4: how many zones of a drive are good, at most most: then the others are not looked at.
fn good_on(p: Params, offline: &[u8], drive: usize, most: usize) -> usize
    requires p_value { in_range p ≡ true }
    requires offline_len { (length offline.now ≡ offline_len p) × (drive < p.N) }
    ensures { result ≡ min most (tally (is_good p offline.now drive) (below p.Z)) }
{
    let mut n = 0;
    let mut z = 0;
    // Stays: by `step_by` this loop keeps less in registers, and a write takes 6 percent longer on a small box, 12 on one of 1,024 zones.
    while z < p.Z {
        if most <= n {
            return most;
        }
        let end = p.Z.min(z + 224);
        n += good_among(p, offline, drive, z, end);
        z = end;
    }
    most.min(n)
}

// 02, item 4: the fewest good zones on any drive, at most most; on each drive the search stops at the fewest so far.
pub fn good_count(p: Params, offline: &[u8], most: usize) -> usize
    requires p_value { in_range p ≡ true }
    requires offline_len { (length offline.now ≡ offline_len p) × (most ≤ p.Z) }
    ensures { (result ≡ min most (good_count p offline.now)) × (result ≤ most) }
{
    let mut n = most;
    for d in 0..p.N {
        n = good_on(p, offline, d, n);
    }
    n
}

// 02, item 4: whether a zone is good and empty.
pub fn is_free(p: Params, pointers: &[u8], offline: &[u8], drive: usize, zone: usize) -> bool
    requires p_value { in_range p ≡ true }
    requires pointers_len { (length pointers.now ≡ pointers_len p) × (length offline.now ≡ offline_len p) }
    requires drive_lt_n { (drive < p.N) × (zone < p.Z) }
    ensures { result ≡ free_by p pointers.now offline.now drive zone }
{
    if !is_good(p, offline, drive, zone) {
        return false;
    }
    pointer(p, pointers, drive, zone) == 0
}

// 02, item 4: how many zones of a drive are good and empty; the search, from the last zone down, stops at most.
fn free_on(p: Params, pointers: &[u8], offline: &[u8], drive: usize, most: usize) -> usize
    requires p_value { in_range p ≡ true }
    requires pointers_len { (length pointers.now ≡ pointers_len p) × (length offline.now ≡ offline_len p) }
    requires drive_lt_n { drive < p.N }
    ensures { result ≡ min most (tally (free_by p pointers.now offline.now drive) (below p.Z)) }
{
    let mut n = 0;
    for z in (0..p.Z).rev() {
        if n == most {
            return n;
        }
        if is_free(p, pointers, offline, drive, z) {
            n += 1;
        }
    }
    n
}

// 01, Refusals, 8; 02, item 4: how many zones are empty: the fewest empty good ones on any drive, at most most.
pub fn empty_zones(p: Params, pointers: &[u8], offline: &[u8], most: usize) -> usize
    requires p_value { in_range p ≡ true }
    requires pointers_len { (length pointers.now ≡ pointers_len p) × (length offline.now ≡ offline_len p) }
    ensures { (im : List ℕ) → length im ≡ image_len p
        → result ≡ min most (empty_count p (view_of p offline.now im pointers.now)) }
{
    let mut n = most.min(p.Z);
    for d in 0..p.N {
        n = free_on(p, pointers, offline, d, n);
    }
    n
}

// 02, item 4: the lowest empty good zone of a drive; 0 where there is none.
fn lowest_free(p: Params, pointers: &[u8], offline: &[u8], drive: usize) -> usize
    requires p_value { in_range p ≡ true }
    requires pointers_len { (length pointers.now ≡ pointers_len p) × (length offline.now ≡ offline_len p) }
    requires drive_lt_n { drive < p.N }
    ensures { (result ≡ first_or 0 (keep (free_by p pointers.now offline.now drive) (below p.Z))) × (result < p.Z) }
{
    for z in 0..p.Z {
        if is_free(p, pointers, offline, drive, z) {
            return z;
        }
    }
    0
}

// 02, item 4: a new segment: each drive's lowest empty good zone.
pub fn new_segment(p: Params, pointers: &[u8], offline: &[u8]) -> Seg
    requires p_value { in_range p ≡ true }
    requires pointers_len { (length pointers.now ≡ pointers_len p) × (length offline.now ≡ offline_len p) }
    ensures by_index { (im : List ℕ) → length im ≡ image_len p → result ≡ new_seg p (view_of p offline.now im pointers.now) }
    ensures zones_low { ZonesLow p 0 result }
{
    let mut zones = [0u32; 8];
    for d in 0..p.N {
        zones[d] = lowest_free(p, pointers, offline, d) as u32;
    }
    Seg { zones }
}

// Whether a drive is missing or its zone of a segment is full.
fn is_full(p: Params, pointers: &[u8], gone: u8, segment: Seg, drive: usize) -> bool
    requires p_value { in_range p ≡ true }
    requires pointers_len { (length pointers.now ≡ pointers_len p) × (drive < p.N) × ZonesLow p gone segment }
    ensures { result ≡ (is_in gone drive || eqb (pointer_of p pointers.now drive (zone_on segment drive)) (capacity p)) }
{
    if bits_masks::has_drive(gone, drive) {
        return true;
    }
    let zone = disk_shape::zone_on(p, segment, drive);
    pointer(p, pointers, drive, zone) as usize == disk_shape::capacity(p)
}

// 01, Restart, 3: whether all present zones of a segment are full.
pub fn is_sealed(p: Params, pointers: &[u8], gone: u8, segment: Seg) -> bool
    requires p_value { in_range p ≡ true }
    requires pointers_len { (length pointers.now ≡ pointers_len p) × ZonesLow p gone segment }
    ensures { (off : List ℕ) (im : List ℕ) → length im ≡ image_len p → result ≡ sealed_in p (view_of p off im pointers.now) gone segment }
{
    for d in 0..p.N {
        if !is_full(p, pointers, gone, segment, d) {
            return false;
        }
    }
    true
}
