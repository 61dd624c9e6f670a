// What is wrong with a landing on the drives and in the address table: its bad zones, the lowest of them (01, Refusals, 9).
#![tactic(auto)]

ghost use Rattle.disk_drives.specs.Viewed.{viewed};
ghost use Rattle.std.specs.Prelude.{◌≡◌, true, cond, List, [], ℕ, ◌≤◌, ◌<◌, length};
ghost use Rattle.spec.specs.Drives.{view_of, zone_on};
ghost use Rattle.spec.specs.Landing.{misplaced, overfull, entry_faults};
ghost use Rattle.spec.specs.Layout.{Rec};
ghost use Rattle.spec.specs.Lists.{cons_if, least, flat};
ghost use Rattle.spec.specs.Memory.{filled_in_of, entries_in};
ghost use Rattle.spec.specs.Params.{in_range, image_len, pointers_len, addresses_len};
ghost use Rattle.law_basic.specs.Segs.{ZonesLow};
ghost use Rattle.call_land_faults.specs.Lowest.{over_by, faults_of};
ghost use Rattle.call_land_chunk.specs.Alone.{alone};
ghost use Rattle.mem_lookup.specs.Places.{one_fault};

use disk_drives::Drives;
use mem_rows::Row;
use spec::{Address, Params, Place, Seg};

// 01, Refusals, 9: the pointer is not at a data block of the stripe's group.
fn misplaced(p: Params, pointers: &[u8], d: usize, zone: usize, stripe: usize) -> bool
    requires p_value { in_range p ≡ true }
    requires pointers_len { (length pointers.now ≡ pointers_len p) × (d < p.N) × (zone < p.Z) }
    ensures { (off : List ℕ) (im : List ℕ) → length im ≡ image_len p → result ≡ misplaced p (view_of p off im pointers.now) d zone stripe }
{
    let n = disk_zones::pointer(p, pointers, d, zone) as usize;
    if n < 1 {
        return true;
    }
    if p.S < n {
        return true;
    }
    disk_shape::group(p, n - 1) != disk_shape::group(p, stripe)
}

// 01, Refusals, 9: the zone where the chunk goes wrong there; Z where it doesn't.
// Stays: `least` of spec/ starts at Z and is Z where there is none, so the walk over all faults starts with this number.
fn chunk_fault(p: Params, pointers: &[u8], d: usize, zone: usize, stripe: usize) -> usize
    requires p_value { in_range p ≡ true }
    requires pointers_len { (length pointers.now ≡ pointers_len p) × (d < p.N) × (zone < p.Z) }
    ensures by_index { (off : List ℕ) (im : List ℕ)
        → length im ≡ image_len p
        → result ≡ least p.Z (cons_if (misplaced p (view_of p off im pointers.now) d zone stripe) zone []) }
    ensures upper_bound { result ≤ p.Z }
{
    if misplaced(p, pointers, d, zone, stripe) {
        return zone;
    }
    p.Z
}

// Drive e's zone of the segment has no room for its footers, once the chunk is on drive d.
fn no_room(p: Params, pointers: &[u8], d: usize, segment: Seg, e: usize) -> bool
    requires p_value { in_range p ≡ true }
    requires pointers_len { (length pointers.now ≡ pointers_len p) × (e < p.N) × ZonesLow p 0 segment }
    ensures { result ≡ over_by p pointers.now d segment e }
{
    let zone = disk_shape::zone_on(p, segment, e);
    let n = disk_zones::pointer(p, pointers, e, zone) as usize;
    let f = disk_shape::footers(p);
    let most = disk_shape::capacity(p);
    if e == d {
        return most < n + 1 + f;
    }
    most < n + f
}

// That zone, where it has none.
fn full_zone(p: Params, pointers: &[u8], d: usize, segment: Seg, e: usize) -> Option<usize>
    requires p_value { in_range p ≡ true }
    requires pointers_len { (length pointers.now ≡ pointers_len p) × (e < p.N) × ZonesLow p 0 segment }
    ensures { cons_if (over_by p pointers.now d segment e) (zone_on segment e) [] ≡ one_fault result }
{
    if no_room(p, pointers, d, segment, e) {
        return Some(disk_shape::zone_on(p, segment, e));
    }
    None
}

// The lower of the lowest so far and one more bad zone, if there is one.
#[tactic(auto, unfolding(spec::specs::Lists::least))]
fn lowest(worst: usize, fault: Option<usize>) -> usize
    ensures { result ≡ least worst (one_fault fault) }
{
    match fault {
        Some(z) => worst.min(z),
        None => worst,
    }
}

// 01, Refusals, 9: of the zones that the footers would fill above capacity, and of one zone, the lowest.
fn overfull(p: Params, pointers: &[u8], d: usize, segment: Seg, zone: usize) -> usize
    requires p_value { in_range p ≡ true }
    requires pointers_len { (length pointers.now ≡ pointers_len p) × ZonesLow p 0 segment × (zone ≤ p.Z) }
    ensures by_index { (off : List ℕ) (im : List ℕ) → length im ≡ image_len p → result ≡ least zone (overfull p (view_of p off im pointers.now) d segment) }
    ensures upper_bound { result ≤ p.Z }
{
    let mut worst = zone;
    for e in 0..p.N {
        worst = lowest(worst, full_zone(p, pointers, d, segment, e));
    }
    worst
}

// 01, Refusals, 9: the bad zone, if there is one, of the place that the table holds of an address.
fn entry_fault(drives: &Drives<'_>, addresses: &[u8], address: Address) -> Option<usize>
    requires addresses_long { (length addresses.now ≡ addresses_len drives.now.p) }
    ensures { (e : Rec)
        → e.address ≡ address.0
        → entry_faults drives.now.p (viewed drives.now) addresses.now e ≡ one_fault result }
{
    if drives.p.L as u64 <= address.0 {
        return None;
    }
    let q = mem_tables::place_at(addresses, address.0 as usize);
    if q.0 == Place::NEVER.0 {
        return None;
    }
    mem_lookup::place_fault(drives, 0, q)
}

// 01, Refusals, 9: of the places that the table holds of the stripe's addresses, and of one zone, the lowest bad zone.
fn entries_fault(drives: &Drives<'_>, addresses: &[u8], row: Row, zone: usize) -> usize
    requires addresses_long { (length addresses.now ≡ addresses_len drives.now.p) }
    requires row_bound { (filled_in_of (alone row) 0 ≤ 8) × (zone ≤ drives.now.p.Z) }
    ensures { result ≡ least zone
        (flat (entry_faults drives.now.p (viewed drives.now) addresses.now) (entries_in (alone row) 0)) }
{
    let n = call_land_chunk::filled_in(row);
    let mut worst = zone;
    for k in 0..n {
        let e = call_land_chunk::entry(row, k);
        let z = entry_fault(drives, addresses, e.address);
        worst = lowest(worst, z);
    }
    worst
}

// 01, Refusals, 9: the lowest zone of the open segment where the chunk or the footers go wrong; Z where they don't. zone: its zone on drive d; its other
// zones are asked for where the landing seals it.
fn segment_fault(
    p: Params,
    pointers: &[u8],
    seals: bool,
    d: usize,
    zone: usize,
    segment: Seg,
    stripe: usize,
) -> usize
    requires p_value { in_range p ≡ true }
    requires pointers_len { (length pointers.now ≡ pointers_len p) × (d < p.N) × (zone < p.Z) × (seals ≡ true → ZonesLow p 0 segment) }
    ensures by_index { (off : List ℕ) (im : List ℕ)
        → length im ≡ image_len p
        → result ≡ least p.Z (cons_if (misplaced p (view_of p off im pointers.now) d zone stripe) zone
        (cond seals (overfull p (view_of p off im pointers.now) d segment) [])) }
    ensures upper_bound { result ≤ p.Z }
{
    let z = chunk_fault(p, pointers, d, zone, stripe);
    if !seals {
        return z;
    }
    overfull(p, pointers, d, segment, z)
}

// 01, Refusals, 9: the lowest bad zone of the landing of a stripe's chunk on drive d of the open segment, where it completes the stripe or not, and seals or not;
// Z where there is none.
// Stays: that Z is what `least` of spec/ gives, and what `zone_checks` of call_land tests.
pub fn land_fault(
    drives: &Drives<'_>,
    addresses: &[u8],
    row: Row,
    d: usize,
    zone: usize,
    segment: Seg,
    stripe: usize,
    done: bool,
    seals: bool,
) -> usize
    requires addresses_long { (length addresses.now ≡ addresses_len drives.now.p) }
    requires d_lt_n { (d < drives.now.p.N) × (zone < drives.now.p.Z) × (seals ≡ true → ZonesLow drives.now.p 0 segment) × (filled_in_of (alone row) 0 ≤ 8) }
    ensures { result ≡ least drives.now.p.Z
        (faults_of drives.now.p (viewed drives.now) addresses.now (entries_in (alone row) 0) d zone segment stripe
        done seals) }
{
    let z = segment_fault(drives.p, drives.pointers, seals, d, zone, segment, stripe);
    if !done {
        return z;
    }
    entries_fault(drives, addresses, row, z)
}
