// What a zone holds: how much is stored, and its records by footer or spare (01, What a zone holds; Restart, 3).
#![tactic(auto)]

ghost use Rattle.std.specs.Prelude.{◌≡◌, true, List, ℕ, ◌+◌, ◌-◌, ◌≤◌, ◌<◌, length};
ghost use Rattle.spec.specs.Drives.{view_of, mk_disk, zone_at, data_stored, record_in, record_at, zone_on};
ghost use Rattle.spec.specs.Faults.{footers_stored};
ghost use Rattle.spec.specs.Params.{in_range, spare_len, per_footer, footers, capacity, unit_len, image_len, pointers_len, place_of, place_block, place_drive, place_byte};
ghost use Rattle.disk_records.specs.Record.{rec_val};
ghost use Rattle.law_views.specs.Views.{Whole};
ghost use Rattle.disk_stored.specs.Stored.{record_byte, first_byte, together};
ghost use Rattle.disk_stored.specs.Places.{DataPlace};
ghost use Rattle.spec.specs.declared.Seg.{Seg};
ghost use Rattle.law_basic.specs.Segs.{ZonesLow};

use disk_records::Record;
use spec::{Params, Place, Seg};

// The byte at which a block begins, given the records of a footer block. It is disk_shape::block_byte, divided in 32 bits, which is quicker.
fn begins(p: Params, per: u32, drive: usize, zone: usize, block: usize) -> usize
    requires p_value { in_range p ≡ true }
    requires per_value { (per ≡ per_footer p) × (drive < p.N) × (zone < p.Z) × (block < capacity p) }
    ensures { (result ≡ place_byte p (place_of p drive zone block)) × (result + unit_len p ≤ image_len p) × (result ≤ 2946336325632) }
{
    let feet = ((p.S as u32 + per - 1) / per) as usize;
    let place = (drive * p.Z + zone) * (1 + p.S + feet) + block;
    place * (p.B + disk_shape::SPARE)
}

// The byte at which a block's spare begins.
pub fn spare_byte(p: Params, drive: usize, zone: usize, block: usize) -> usize
    requires p_value { in_range p ≡ true }
    requires drive_lt_n { (drive < p.N) × (zone < p.Z) × (block < capacity p) }
    ensures { (result ≡ place_byte p (place_of p drive zone block) + p.B) × (result + spare_len ≤ image_len p) × (result ≤ 2946336325632) }
{
    let per = disk_shape::per_footer(p) as u32;
    begins(p, per, drive, zone, block) + p.B
}

// 01, What a zone holds: the data blocks below a zone's pointer.
pub fn data_stored(p: Params, pointers: &[u8], drive: usize, zone: usize) -> usize
    requires p_value { in_range p ≡ true }
    requires pointers_len { (length pointers.now ≡ pointers_len p) × (drive < p.N) × (zone < p.Z) }
    ensures by_index { (off : List ℕ) (im : List ℕ) → length im ≡ image_len p → result ≡ data_stored p (zone_at (view_of p off im pointers.now) drive zone) }
    ensures upper_bound { result ≤ p.S }
{
    let n = disk_zones::pointer(p, pointers, drive, zone) as usize;
    if n == 0 {
        return 0;
    }
    if p.S < n - 1 {
        return p.S;
    }
    n - 1
}

// 01, Refusals, 9: the footer blocks below a zone's pointer.
pub fn footers_stored(p: Params, pointers: &[u8], drive: usize, zone: usize) -> usize
    requires p_value { in_range p ≡ true }
    requires pointers_len { (length pointers.now ≡ pointers_len p) × (drive < p.N) × (zone < p.Z) }
    ensures by_index { (off : List ℕ) (im : List ℕ) → length im ≡ image_len p → result ≡ footers_stored p (zone_at (view_of p off im pointers.now) drive zone) }
    ensures upper_bound { result ≤ footers p }
{
    let n = disk_zones::pointer(p, pointers, drive, zone) as usize;
    if n <= 1 + p.S {
        return 0;
    }
    let m = n - 1 - p.S;
    let f = disk_shape::footers(p);
    if f < m {
        return f;
    }
    m
}

// The byte of the record at data offset 0.
fn first_byte(p: Params, full: bool, drive: usize, zone: usize) -> usize
    requires p_value { in_range p ≡ true }
    requires drive_lt_n { (drive < p.N) × (zone < p.Z) }
    ensures { (result ≡ first_byte p full drive zone) × (result ≤ 2946336325632) }
{
    if full {
        return disk_shape::block_byte(p, drive, zone, 1 + p.S);
    }
    disk_shape::block_byte(p, drive, zone, 1) + p.B
}

// How many records lie side by side before the next block: those of a footer block, or the one in a spare.
fn together(p: Params, full: bool) -> u32
    requires { in_range p ≡ true }
    ensures { (result ≡ together p full) × (1 ≤ result) }
{
    if full {
        return disk_shape::per_footer(p) as u32;
    }
    1
}

// The byte of the record at a data offset: in the footer of a sealed segment, else in the block's spare. All but the offset's quotient and
// remainder, in 32 bits, is the same for every record of a zone.
pub fn record_byte(p: Params, full: bool, drive: usize, zone: usize, offset: usize) -> usize
    requires p_value { in_range p ≡ true }
    requires drive_lt_n { (drive < p.N) × (zone < p.Z) × (offset < p.S) }
    ensures { (result ≡ record_byte p full drive zone offset) × (result + spare_len ≤ image_len p) × (result ≤ 2946336325632) }
{
    let first = first_byte(p, full, drive, zone);
    let per = together(p, full);
    let block = (offset as u32 / per) as usize;
    let number = (offset as u32 % per) as usize;
    first + block * (p.B + disk_shape::SPARE) + disk_shape::SPARE * number
}

// 01, Restart, 3: the record at a data offset of a zone; full: its segment is sealed.
pub fn record_in(
    p: Params,
    image: &[u8],
    full: bool,
    drive: usize,
    zone: usize,
    offset: usize,
) -> Record
    requires p_value { in_range p ≡ true }
    requires image_len { (length image.now ≡ image_len p) × (drive < p.N) × (zone < p.Z) × (offset < p.S) }
    ensures { (off : List ℕ) (ps : List ℕ) → length ps ≡ pointers_len p → rec_val result ≡ record_in p full (zone_at (view_of p off image.now ps) drive zone) offset }
{
    let at = record_byte(p, full, drive, zone, offset);
    let end = at + disk_shape::SPARE;
    disk_records::read_record(&image[at..end])
}

// 01, Restart, 3: the same, with the pointers saying whether the segment is sealed.
fn record_at(
    p: Params,
    image: &[u8],
    pointers: &[u8],
    gone: u8,
    drive: usize,
    segment: Seg,
    offset: usize,
) -> Record
    requires p_value { in_range p ≡ true }
    requires whole { Whole p (mk_disk image.now pointers.now) }
    requires drive_lt_n { (drive < p.N) × ZonesLow p gone segment × (offset < p.S) × (zone_on segment drive < p.Z) }
    ensures { (off : List ℕ) → rec_val result ≡ record_at p (view_of p off image.now pointers.now) gone drive segment offset }
{
    let full = disk_zones::is_sealed(p, pointers, gone, segment);
    let zone = disk_shape::zone_on(p, segment, drive);
    record_in(p, image, full, drive, zone, offset)
}

// 01, Restart, 3: the record of the data block at a place of a segment.
pub fn place_record(
    p: Params,
    image: &[u8],
    pointers: &[u8],
    gone: u8,
    segment: Seg,
    place: Place,
) -> Record
    requires p_value { in_range p ≡ true }
    requires whole { Whole p (mk_disk image.now pointers.now) }
    requires data_place { DataPlace p place.0 × ZonesLow p gone segment × (zone_on segment (place_drive p place.0) < p.Z) }
    ensures { (off : List ℕ)
        → rec_val result ≡ record_at p (view_of p off image.now pointers.now) gone (place_drive p place.0) segment (place_block p place.0 - 1) }
{
    let drive = disk_shape::place_drive(p, place);
    let offset = disk_shape::place_block(p, place) - 1;
    record_at(p, image, pointers, gone, drive, segment, offset)
}
