// The segment of a place, and the segment of a serial, with no more headers looked at than the answer needs (02, item 4; 01, Restart, 1 to 3).
#![tactic(auto)]

ghost use Rattle.disk_drives.specs.Viewed.{viewed};
ghost use Rattle.std.specs.Prelude.{◌≡◌, true, false, ◌&&◌, ◌||◌, ◌≤◌, ◌<◌, eqb, ltb, length, is_some, unwrap_or, IfSome};
ghost use Rattle.spec.specs.Drives.{is_good, zone_on, sealed_in};
ghost use Rattle.spec.specs.Lists.{is_nil, is_in};
ghost use Rattle.spec.specs.Params.{place_zone, place_drive};
ghost use Rattle.spec.specs.Segments.{low_drive, is_used, serial_in, lowest_bearing, seg_for, holders, is_place, place_record, open_segments, open_segment};
ghost use Rattle.spec.specs.declared.State.{State};
ghost use Rattle.law_drives.specs.Segs.{Here};
ghost use Rattle.disk_records.specs.Record.{rec_val};
ghost use Rattle.disk_stored.specs.Places.{DataPlace};
ghost use Rattle.disk_holders.specs.Borne.{borne_by_all, copies_other, serial_remains};
ghost use Rattle.disk_holders.specs.Next.{next_one};
ghost use Rattle.disk_holders.specs.Held.{held_here_of, names_zone, HeldAs};

use disk_drives::Drives;
use disk_records::Record;
use spec::{Params, Place, Seg, Serial};

// ---- drives that bear a serial

// 02, item 4: whether the number is that of a zone that takes part and bears the serial.
fn bears_at(drives: &Drives<'_>, drive: usize, zone: usize, serial: Serial) -> bool
    requires drive_lt_n { (drive < drives.now.p.N) }
    ensures { result ≡ (ltb zone drives.now.p.Z
        && (is_used drives.now.p (viewed drives.now) drive zone
        && eqb (serial_in drives.now.p (viewed drives.now) drive zone) serial.0)) }
{
    if drives.p.Z <= zone {
        return false;
    }
    if !disk_gather::is_used(drives.p, drives.pointers, drives.offline, drive, zone) {
        return false;
    }
    let s = disk_gather::serial_in(drives.p, drives.image, drive, zone);
    s.0 == serial.0
}

// 02, item 4: whether a drive bears the serial; looked for first at the zone guessed.
fn bears_serial(drives: &Drives<'_>, drive: usize, guess: usize, serial: Serial) -> bool
    requires drive_lt_n { (drive < drives.now.p.N) }
    ensures { result ≡ ltb (lowest_bearing drives.now.p (viewed drives.now) drive serial.0) drives.now.p.Z }
{
    if bears_at(drives, drive, guess, serial) {
        return true;
    }
    disk_gather::lowest_bearing(drives, drive, serial) < drives.p.Z
}

// A drive is missing, or bears the serial; looked for first at the zone that the header at zone first of drive low names.
fn is_borne_on(
    drives: &Drives<'_>,
    gone: u8,
    low: usize,
    first: usize,
    drive: usize,
    serial: Serial,
) -> bool
    requires low_lt_n { (low < drives.now.p.N) × (first < drives.now.p.Z) × (drive < drives.now.p.N) }
    ensures { result ≡ (is_in gone drive || ltb (lowest_bearing drives.now.p (viewed drives.now) drive serial.0) drives.now.p.Z) }
{
    if bits_masks::has_drive(gone, drive) {
        return true;
    }
    if drive == low {
        return bears_serial(drives, drive, first, serial);
    }
    let guess = disk_gather::zone_named(drives.p, drives.image, low, first, drive) as usize;
    bears_serial(drives, drive, guess, serial)
}

// 01, Restart, 1: whether every present drive bears the serial; zone first of drive low is one of those that bear it.
fn is_borne(drives: &Drives<'_>, gone: u8, low: usize, first: usize, serial: Serial) -> bool
    requires low_lt_n { (low < drives.now.p.N) × (first < drives.now.p.Z) }
    ensures { result ≡ borne_by_all drives.now.p (viewed drives.now) gone serial.0 }
{
    for d in 0..drives.p.N {
        if !is_borne_on(drives, gone, low, first, d, serial) {
            return false;
        }
    }
    true
}

// 01, Restart, 1: whether every present drive bears the serial.
fn is_left(drives: &Drives<'_>, gone: u8, low: usize, serial: Serial) -> bool
    requires low_lt_n { (low < drives.now.p.N) × (is_in gone low ≡ false) }
    ensures { result ≡ borne_by_all drives.now.p (viewed drives.now) gone serial.0 }
{
    let first = disk_gather::lowest_bearing(drives, low, serial);
    if drives.p.Z <= first {
        return false;
    }
    is_borne(drives, gone, low, first, serial)
}

// ---- serials that remain

// 01, Restart, 2: whether a serial's segment is a copy of another that is left by 1; first: its zone on the lowest present drive.
fn is_copy(drives: &Drives<'_>, gone: u8, low: usize, first: usize, serial: Serial) -> bool
    requires here { Here drives.now.p gone }
    requires low_value { (low ≡ low_drive drives.now.p gone)
        × (first < drives.now.p.Z)
        × (first ≡ lowest_bearing drives.now.p (viewed drives.now) low serial.0) }
    ensures { result ≡ copies_other drives.now.p (viewed drives.now) gone serial.0 }
{
    let c = disk_gather::copied_in(drives.p, drives.image, low, first);
    if c.0 == 0 {
        return false;
    }
    if c.0 == serial.0 {
        return false;
    }
    is_left(drives, gone, low, c)
}

// 01, Restart, 1 and 2: whether the segment of a serial remains; first: its zone on the lowest present drive.
fn remains_from(drives: &Drives<'_>, gone: u8, low: usize, first: usize, serial: Serial) -> bool
    requires here { Here drives.now.p gone }
    requires low_value { (low ≡ low_drive drives.now.p gone)
        × (first < drives.now.p.Z)
        × (first ≡ lowest_bearing drives.now.p (viewed drives.now) low serial.0) }
    ensures { result ≡ serial_remains drives.now.p (viewed drives.now) gone serial.0 }
{
    if !is_borne(drives, gone, low, first, serial) {
        return false;
    }
    !is_copy(drives, gone, low, first, serial)
}

// 01, Restart, 1 and 2; 02, item 4: whether the segment of a serial remains.
pub fn remains(drives: &Drives<'_>, gone: u8, serial: Serial) -> bool
    requires here { Here drives.now.p gone }
    ensures { result ≡ serial_remains drives.now.p (viewed drives.now) gone serial.0 }
{
    let low = disk_gather::low_drive(drives.p, gone);
    let first = disk_gather::lowest_bearing(drives, low, serial);
    if drives.p.Z <= first {
        return false;
    }
    remains_from(drives, gone, low, first, serial)
}

// ---- the segment of a place

// 02, item 4: whether a zone of a present drive is in a remaining segment.
fn held_here(drives: &Drives<'_>, gone: u8, drive: usize, zone: usize) -> bool
    requires here { Here drives.now.p gone }
    requires drive_lt_n { (drive < drives.now.p.N) × (zone < drives.now.p.Z) }
    ensures { result ≡ held_here_of drives.now.p (viewed drives.now) gone drive zone }
{
    if !disk_gather::leads(drives, drive, zone) {
        return false;
    }
    let serial = disk_gather::serial_in(drives.p, drives.image, drive, zone);
    let low = disk_gather::low_drive(drives.p, gone);
    if drive == low {
        return remains_from(drives, gone, low, zone, serial);
    }
    remains(drives, gone, serial)
}

// 02, item 4: whether the segment at zone y of the lowest present drive remains, and its header there names the zone for the missing drive.
fn names(drives: &Drives<'_>, gone: u8, low: usize, drive: usize, zone: usize, y: usize) -> bool
    requires here { Here drives.now.p gone }
    requires low_value { (low ≡ low_drive drives.now.p gone) × (drive < drives.now.p.N) × (y < drives.now.p.Z) }
    ensures { result ≡ names_zone drives.now.p (viewed drives.now) gone drive zone y }
{
    if !disk_gather::is_used(drives.p, drives.pointers, drives.offline, low, y) {
        return false;
    }
    let named = disk_gather::zone_named(drives.p, drives.image, low, y, drive) as usize;
    if named != zone {
        return false;
    }
    held_here(drives, gone, low, y)
}

// 02, item 4: the lowest such zone from a number on, if there is one.
fn next_named(
    drives: &Drives<'_>,
    gone: u8,
    low: usize,
    drive: usize,
    zone: usize,
    from: usize,
) -> Option<usize>
    requires here { Here drives.now.p gone }
    requires low_value { (low ≡ low_drive drives.now.p gone) × (drive < drives.now.p.N) × (from ≤ drives.now.p.Z) }
    ensures { (unwrap_or result drives.now.p.Z ≡ next_one (names_zone drives.now.p (viewed drives.now) gone drive zone) drives.now.p.Z from)
        × IfSome result (λ y. y < drives.now.p.Z) }
{
    for y in from..drives.p.Z {
        if names(drives, gone, low, drive, zone, y) {
            return Some(y);
        }
    }
    None
}

// 02, item 4: the serial of the one remaining segment with a zone of the missing drive, if there is just one: headers on the lowest present drive name it.
fn named_held(drives: &Drives<'_>, gone: u8, drive: usize, zone: usize) -> Option<Serial>
    requires here { Here drives.now.p gone }
    requires drive_lt_n { (drive < drives.now.p.N) × (zone < drives.now.p.Z) × (is_in gone drive ≡ true) }
    ensures zone_value { (is_good drives.now.p drives.now.offline.now drive zone
        && eqb (length (holders drives.now.p (viewed drives.now) gone drive zone)) 1) ≡ is_some result }
    ensures held_as { HeldAs drives.now.p (viewed drives.now) gone drive zone result }
{
    if !disk_zones::is_good(drives.p, drives.offline, drive, zone) {
        return None;
    }
    let low = disk_gather::low_drive(drives.p, gone);
    let y = next_named(drives, gone, low, drive, zone, 0)?;
    let other = next_named(drives, gone, low, drive, zone, y + 1);
    if other.is_some() {
        return None;
    }
    Some(disk_gather::serial_in(drives.p, drives.image, low, y))
}

// 02, item 4: the serial of the one remaining segment with a place; none where it is not in just one, or in an offline zone.
pub fn place_held(drives: &Drives<'_>, gone: u8, place: Place) -> Option<Serial>
    requires here { Here drives.now.p gone }
    ensures place_value { is_place drives.now.p (viewed drives.now) gone place.0 ≡ is_some result }
    ensures held_as { HeldAs drives.now.p (viewed drives.now) gone (place_drive drives.now.p place.0) (place_zone drives.now.p place.0) result }
{
    let drive = disk_shape::place_drive(drives.p, place);
    if drives.p.N <= drive {
        return None;
    }
    let zone = disk_shape::place_zone(drives.p, place);
    if bits_masks::has_drive(gone, drive) {
        return named_held(drives, gone, drive, zone);
    }
    if !held_here(drives, gone, drive, zone) {
        return None;
    }
    Some(disk_gather::serial_in(drives.p, drives.image, drive, zone))
}

// ---- the record at a place

// Whether two records are the same.
// Stays: `Record` derives no `==`, since its `Address` and `Stamp` of crate `spec` have none.
fn is_same(a: Record, b: Record) -> bool
    ensures { result ≡ (eqb a.address.0 b.address.0 && (eqb a.stamp.0 b.stamp.0 && eqb a.stripe b.stripe)) }
{
    a.address.0 == b.address.0 && a.stamp.0 == b.stamp.0 && a.stripe == b.stripe
}

// 01, Restart, 3: whether the segment of the serial in a zone of a present drive is sealed.
fn is_sealed_at(drives: &Drives<'_>, gone: u8, drive: usize, zone: usize) -> bool
    requires here { Here drives.now.p gone }
    requires drive_lt_n { (drive < drives.now.p.N)
        × (zone < drives.now.p.Z)
        × (serial_remains drives.now.p (viewed drives.now) gone (serial_in drives.now.p (viewed drives.now) drive zone) ≡ true) }
    ensures { result ≡ sealed_in drives.now.p (viewed drives.now) gone
        (seg_for drives.now.p (viewed drives.now) gone
        (serial_in drives.now.p (viewed drives.now) drive zone)) }
{
    let serial = disk_gather::serial_in(drives.p, drives.image, drive, zone);
    let segment = disk_gather::seg_for(drives, gone, serial);
    disk_zones::is_sealed(drives.p, drives.pointers, gone, segment)
}

// 01, Restart, 3: the record of the data block at a place of a present drive: by spare where its own zone is not full. Else by footer; where that
// says the same as the spare, the other zones of the segment are not looked for.
pub fn held_record(drives: &Drives<'_>, gone: u8, place: Place) -> Record
    requires here { Here drives.now.p gone }
    requires data_place { DataPlace drives.now.p place.0
        × (is_in gone (place_drive drives.now.p place.0) ≡ false)
        × (is_place drives.now.p (viewed drives.now) gone place.0 ≡ true) }
    ensures { rec_val result ≡ place_record drives.now.p (viewed drives.now) gone place.0 }
{
    let drive = disk_shape::place_drive(drives.p, place);
    let zone = disk_shape::place_zone(drives.p, place);
    let offset = disk_shape::place_block(drives.p, place) - 1;
    let spare = disk_stored::record_in(drives.p, drives.image, false, drive, zone, offset);
    let pointer = disk_zones::pointer(drives.p, drives.pointers, drive, zone) as usize;
    if pointer != disk_shape::capacity(drives.p) {
        return spare;
    }
    let footer = disk_stored::record_in(drives.p, drives.image, true, drive, zone, offset);
    if is_same(spare, footer) {
        return footer;
    }
    if is_sealed_at(drives, gone, drive, zone) {
        return footer;
    }
    spare
}

// ---- the open segment

// 02, item 4: the zone on a drive of the segment that the state has open, by its serial; Z where no remaining segment has it.
// Stays: Z is what `lowest_bearing` of spec/ gives, returned here as it is, and what `open_whole` of call_land puts into its `Target`.
pub fn open_zone(drives: &Drives<'_>, drive: usize, serial: Serial) -> usize
    requires drive_lt_n { (drive < drives.now.p.N) }
    ensures st_value { (st : State)
        → st.opened ≡ serial.0
        → is_nil (open_segments drives.now.p (viewed drives.now) st) ≡ eqb result drives.now.p.Z }
    ensures value { (st : State)
        → st.opened ≡ serial.0
        → result < drives.now.p.Z
        → result ≡ zone_on (open_segment drives.now.p (viewed drives.now) st) drive }
    ensures upper_bound { result ≤ drives.now.p.Z }
{
    let first = disk_gather::lowest_bearing(drives, 0, serial);
    if drives.p.Z <= first {
        return drives.p.Z;
    }
    if !remains_from(drives, 0, 0, first, serial) {
        return drives.p.Z;
    }
    if drive == 0 {
        return first;
    }
    disk_gather::lowest_bearing(drives, drive, serial)
}

// 02, item 4: the segment that the state has open, by its serial; first: its zone on drive 0.
pub fn open_segment(drives: &Drives<'_>, first: usize, serial: Serial) -> Seg
    requires serial_value { (serial_remains drives.now.p (viewed drives.now) 0 serial.0 ≡ true)
        × (first < drives.now.p.Z)
        × (first ≡ lowest_bearing drives.now.p (viewed drives.now) 0 serial.0) }
    ensures { (st : State)
        → st.opened ≡ serial.0
        → result ≡ open_segment drives.now.p (viewed drives.now) st }
{
    disk_gather::seg_from(drives, 0, 0, first, serial)
}
