// Where an address lies, what is wrong with a place to be read, and where the compact table shows a stripe (01, Read; What a zone holds; Refusals, 9).
#![tactic(auto)]

ghost use Rattle.disk_drives.specs.Viewed.{viewed};
ghost use Rattle.std.specs.Prelude.{◌≡◌, true, ◌&&◌, List, [], ◌∷◌, ℕ, ◌+◌, ◌≤◌, ◌<◌, ltb, length, is_some, is_none, unwrap_or, IfSome};
ghost use Rattle.mem_calls.specs.Left.{checked};
ghost use Rattle.spec.specs.Calls.{first_refusal};
ghost use Rattle.spec.specs.Calls.Check.{zones};
ghost use Rattle.spec.specs.Drives.{view_of, pointer_of};
ghost use Rattle.spec.specs.Lists.{cons_if, is_nil, first_or};
ghost use Rattle.spec.specs.Memory.{shown_at};
ghost use Rattle.spec.specs.Params.{in_range, image_len, pointers_len, addresses_len, compact_len};
ghost use Rattle.spec.specs.Read.{place_faults, lies};
ghost use Rattle.spec.specs.Segments.{is_place};
ghost use Rattle.law_drives.specs.Segs.{Here};
ghost use Rattle.mem_lookup.specs.Lies.{found_of};
ghost use Rattle.mem_lookup.specs.Places.{is_bad, one_fault};

use disk_drives::Drives;
use mem_calls::Refusal;
use spec::{Params, Place, Serial};

// 01, Read: where an address lies: nowhere, on a present drive, on the missing one.
#[derive(Clone, Copy)]
pub enum Found {
    Nowhere,
    Here(Place),
    Away(Place),
}

// 01, Read: where the table says that address a lies.
pub fn lies(p: Params, gone: u8, addresses: &[u8], a: usize) -> Found
    requires p_value { in_range p ≡ true }
    requires addresses_len { (length addresses.now ≡ addresses_len p) × (a < p.L) }
    ensures { found_of result ≡ lies p gone addresses.now a }
{
    let q = mem_tables::place_at(addresses, a);
    if q.0 == Place::NEVER.0 {
        return Found::Nowhere;
    }
    if bits_masks::has_drive(gone, disk_shape::place_drive(p, q)) {
        return Found::Away(q);
    }
    Found::Here(q)
}

// Whether a block of a zone is no data block, or lies on a present drive and not below its zone's pointer.
fn is_bad(p: Params, pointers: &[u8], gone: u8, drive: usize, zone: usize, block: usize) -> bool
    requires p_value { in_range p ≡ true }
    requires pointers_len { (length pointers.now ≡ pointers_len p) × (drive < p.N) × (zone < p.Z) }
    ensures { result ≡ is_bad p (pointer_of p pointers.now drive zone) gone drive block }
{
    if block < 1 {
        return true;
    }
    if p.S < block {
        return true;
    }
    if bits_masks::has_drive(gone, drive) {
        return false;
    }
    disk_zones::pointer(p, pointers, drive, zone) as usize <= block
}

// 01, Refusals, 9: the bad zone, if there is one, of a place to be read, whose segment has been looked up. Outside the image it is zone 0.
pub fn held_fault(
    p: Params,
    pointers: &[u8],
    gone: u8,
    q: Place,
    held: Option<Serial>,
) -> Option<usize>
    requires p_value { in_range p ≡ true }
    requires pointers_len { length pointers.now ≡ pointers_len p }
    ensures faults { (off : List ℕ) (im : List ℕ)
        → length im ≡ image_len p
        → is_place p (view_of p off im pointers.now) gone q.0 ≡ is_some held
        → place_faults p (view_of p off im pointers.now) gone q.0 ≡ one_fault result }
    ensures low { IfSome result (λ z. z < p.Z) }
{
    let drive = disk_shape::place_drive(p, q);
    let zone = disk_shape::place_zone(p, q);
    let block = disk_shape::place_block(p, q);
    if p.N <= drive {
        return Some(0);
    }
    match held {
        None => Some(0),
        Some(_) if is_bad(p, pointers, gone, drive, zone, block) => Some(zone),
        Some(_) => None,
    }
}

// 01, Refusals, 9: the bad zone of a place to be read, if there is one.
pub fn place_fault(drives: &Drives<'_>, gone: u8, q: Place) -> Option<usize>
    requires here { Here drives.now.p gone }
    ensures faults { place_faults drives.now.p (viewed drives.now) gone q.0 ≡ one_fault result }
    ensures low { IfSome result (λ z. z < drives.now.p.Z) }
{
    let held = disk_holders::place_held(drives, gone, q);
    held_fault(drives.p, drives.pointers, gone, q, held)
}

// 01, Refusals, 9: refused where the number is one of a zone.
pub fn zone_check(p: Params, zone: usize) -> Result<(), Refusal>
    ensures { checked result ≡ first_refusal (zones (cons_if (ltb zone p.Z) zone []) ∷ []) }
{
    if zone < p.Z {
        return Err(Refusal::BadZone(zone as u64));
    }
    Ok(())
}

// Where the data offsets below a pointer end in the group of offset first.
fn group_end(p: Params, pointer: usize, first: usize) -> usize
    requires p_value { in_range p ≡ true }
    requires first_lt_s { first < p.S }
    ensures by_index { (o : ℕ) → ltb o result ≡ (ltb o (first + p.G) && ltb o p.S && ltb (1 + o) pointer) }
    ensures upper_bound { (result ≤ first + p.G) × (result ≤ p.S) }
{
    if pointer == 0 {
        return 0;
    }
    (first + p.G).min(p.S).min(pointer - 1)
}

// 01, What a zone holds: the lowest offset at which the table shows stripe s on a drive, if it shows it.
pub fn shown_at(
    p: Params,
    pointers: &[u8],
    compact: &[u8],
    drive: usize,
    zone: usize,
    s: usize,
) -> Option<usize>
    requires p_value { in_range p ≡ true }
    requires pointers_len { (length pointers.now ≡ pointers_len p) × (length compact.now ≡ compact_len p) }
    requires drive_lt_n { (drive < p.N) × (zone < p.Z) × (s < p.S) }
    ensures by_index { (off : List ℕ) (im : List ℕ)
        → length im ≡ image_len p
        → unwrap_or result p.S ≡ first_or p.S (shown_at p (view_of p off im pointers.now) compact.now drive zone s) }
    ensures by_index_2 { (off : List ℕ) (im : List ℕ)
        → length im ≡ image_len p
        → is_none result ≡ is_nil (shown_at p (view_of p off im pointers.now) compact.now drive zone s) }
    ensures upper_bound { IfSome result (λ o. o < p.S) }
{
    let pointer = disk_zones::pointer(p, pointers, drive, zone) as usize;
    let row = disk_shape::compact_at(p, drive, zone, 0);
    let entry = disk_shape::compact_entry(p, s);
    let first = disk_shape::group(p, s) * p.G;
    let end = group_end(p, pointer, first);
    for o in first..end {
        if compact[row + o] == entry {
            return Some(o);
        }
    }
    None
}
