// The address table when a stripe completes: what it holds and all of the stripe's records compete at once (01, The calls, last paragraph; Landing).
#![tactic(auto)]

ghost use Rattle.disk_drives.specs.Viewed.{viewed};
ghost use Rattle.std.specs.Prelude.{◌≡◌, true, List, ◌∷◌, ℕ, ◌≤◌, ◌<◌, length, get_or};
ghost use Rattle.spec.specs.Drives.{View, view_of, zone_on};
ghost use Rattle.spec.specs.Landing.{held_cand, held, landed_cand, landed_cands, pointed};
ghost use Rattle.spec.specs.Lists.{below};
ghost use Rattle.spec.specs.Memory.{filled_in_of, entry_in_of, offset_in, place_at_of};
ghost use Rattle.spec.specs.Params.{in_range, data_count, image_len, pointers_len, addresses_len};
ghost use Rattle.spec.specs.Rank.{Cand as CandOf, best, cands_of};
ghost use Rattle.spec.specs.Segments.{is_place, place_record, serial_at};
ghost use Rattle.call_land_table.specs.Winners.{Sane, EntriesSane, winner_of, put_winners};
ghost use Rattle.disk_rank.specs.Ranked.{ranked, ranked_best};
ghost use Rattle.disk_stored.specs.Places.{DataPlace};
ghost use Rattle.law_basic.specs.Segs.{ZonesLow};
ghost use Rattle.call_land_chunk.specs.Alone.{alone};

use disk_drives::Drives;
use disk_rank::Cand;
use mem_rows::Row;
use spec::{Address, Params, Place, Seg, Serial};

// The serial in drive 0's header of a segment.
fn serial_at(p: Params, image: &[u8], segment: Seg) -> Serial
    requires p_value { in_range p ≡ true }
    requires image_len { (length image.now ≡ image_len p) × (zone_on segment 0 < p.Z) }
    ensures { (off : List ℕ) (ps : List ℕ) → length ps ≡ pointers_len p → result.0 ≡ serial_at p (view_of p off image.now ps) segment }
{
    disk_gather::serial_in(p, image, 0, disk_shape::zone_on(p, segment, 0))
}

// The record at a place that the table holds of an address; every header of its segment has the serial, and so the one of the place's own zone.
fn held_cand(drives: &Drives<'_>, address: Address, place: Place) -> Cand
    requires data_place { DataPlace drives.now.p place.0 × (is_place drives.now.p (viewed drives.now) 0 place.0 ≡ true) }
    ensures { ranked result ≡ held_cand drives.now.p (viewed drives.now) address.0
        (place_record drives.now.p (viewed drives.now) 0 place.0).stamp place.0 }
{
    let r = disk_holders::held_record(drives, 0, place);
    let stamp = r.stamp;
    let drive = disk_shape::place_drive(drives.p, place);
    let zone = disk_shape::place_zone(drives.p, place);
    let serial = disk_gather::serial_in(drives.p, drives.image, drive, zone);
    let offset = disk_shape::place_block(drives.p, place) - 1;
    Cand {
        address,
        stamp,
        serial,
        drive,
        offset,
        place,
    }
}

// 01, The calls: the record that the table holds of an address; none where it was never written.
fn held(drives: &Drives<'_>, addresses: &[u8], address: Address) -> Option<Cand>
    requires addresses_len { (length addresses.now ≡ addresses_len drives.now.p) × (address.0 < drives.now.p.L) × Sane drives.now.p (viewed drives.now) (place_at_of addresses.now address.0) }
    ensures { ranked_best result ≡ held drives.now.p (viewed drives.now) addresses.now address.0 }
{
    let place = mem_tables::place_at(addresses, address.0 as usize);
    if place.0 == Place::NEVER.0 {
        return None;
    }
    Some(held_cand(drives, address, place))
}

// The completed stripe's record of data position k, in a segment with this serial.
fn landed_cand(p: Params, segment: Seg, serial: Serial, row: Row, k: usize) -> Cand
    requires p_value { in_range p ≡ true }
    requires zones_low { ZonesLow p 0 segment × (k < data_count p) × ((d : ℕ) → d < p.N → offset_in (alone row) 0 d < p.S) }
    ensures { (v : View) → serial.0 ≡ serial_at p v segment → ranked result ≡ landed_cand p v segment (alone row) 0 k }
{
    let e = call_land_chunk::entry(row, k);
    let address = e.address;
    let stamp = e.stamp;
    let drive = disk_shape::data_drive(p, e.stripe as usize, k);
    let offset = call_land_chunk::offset_in(row, drive);
    let zone = disk_shape::zone_on(p, segment, drive);
    let place = disk_shape::place_of(p, drive, zone, 1 + offset);
    Cand {
        address,
        stamp,
        serial,
        drive,
        offset,
        place,
    }
}

// One more record of the stripe competes, if it is of the address.
fn compete(
    p: Params,
    segment: Seg,
    serial: Serial,
    row: Row,
    k: usize,
    address: Address,
    b: Option<Cand>,
) -> Option<Cand>
    requires p_value { in_range p ≡ true }
    requires zones_low { ZonesLow p 0 segment × (k < data_count p) × ((d : ℕ) → d < p.N → offset_in (alone row) 0 d < p.S) }
    ensures { (v : View) (cs : List CandOf)
        → serial.0 ≡ serial_at p v segment
        → best (ranked_best result) (cands_of address.0 cs) ≡ best (ranked_best b) (cands_of address.0 (landed_cand p v segment (alone row) 0 k ∷ cs)) }
{
    let e = call_land_chunk::entry(row, k);
    if e.address.0 != address.0 {
        return b;
    }
    let c = landed_cand(p, segment, serial, row, k);
    disk_rank::better(b, c)
}

// 01, The calls: of an address, the place of the record that holds among the table's and all of the stripe's.
fn winner(
    drives: &Drives<'_>,
    addresses: &[u8],
    segment: Seg,
    serial: Serial,
    row: Row,
    address: Address,
) -> Place
    requires addresses_len { (length addresses.now ≡ addresses_len drives.now.p) × (address.0 < drives.now.p.L) × Sane drives.now.p (viewed drives.now) (place_at_of addresses.now address.0) }
    requires zones_low { ZonesLow drives.now.p 0 segment × (filled_in_of (alone row) 0 ≤ data_count drives.now.p)
        × ((d : ℕ) → d < drives.now.p.N → offset_in (alone row) 0 d < drives.now.p.S) }
    requires serial_value { serial.0 ≡ serial_at drives.now.p (viewed drives.now) segment }
    ensures { result.0
        ≡ winner_of drives.now.p (viewed drives.now) addresses.now
        (landed_cands drives.now.p (viewed drives.now) segment (alone row) 0) address.0 }
{
    let n = call_land_chunk::filled_in(row);
    let mut b = held(drives, addresses, address);
    for k in 0..n {
        b = compete(drives.p, segment, serial, row, k, address, b);
    }
    disk_rank::place_or(b)
}

// The places that hold, by data position; of an address that is not below L any place.
fn winners(
    drives: &Drives<'_>,
    addresses: &[u8],
    segment: Seg,
    serial: Serial,
    row: Row,
) -> [u32; 8]
    requires addresses_len { (length addresses.now ≡ addresses_len drives.now.p) × EntriesSane drives.now.p (viewed drives.now) (alone row) 0 addresses.now }
    requires zones_low { ZonesLow drives.now.p 0 segment × (filled_in_of (alone row) 0 ≤ data_count drives.now.p)
        × ((d : ℕ) → d < drives.now.p.N → offset_in (alone row) 0 d < drives.now.p.S) }
    requires serial_value { serial.0 ≡ serial_at drives.now.p (viewed drives.now) segment }
    ensures { (k : ℕ)
        → k < filled_in_of (alone row) 0
        → (entry_in_of (alone row) 0 k).address < drives.now.p.L
        → get_or result k 0 ≡ winner_of drives.now.p (viewed drives.now) addresses.now
        (landed_cands drives.now.p (viewed drives.now) segment (alone row) 0) (entry_in_of (alone row) 0 k).address }
{
    let n = call_land_chunk::filled_in(row);
    let mut out = [0u32; 8];
    for k in 0..n {
        let e = call_land_chunk::entry(row, k);
        let address = e.address;
        if address.0 < drives.p.L as u64 {
            let q = winner(drives, addresses, segment, serial, row, address);
            out[k] = q.0;
        }
    }
    out
}

// Puts the places at the stripe's addresses, by data position.
fn put_places(p: Params, addresses: &mut [u8], row: Row, places: [u32; 8])
    requires p_value { in_range p ≡ true }
    requires addresses_len { (length addresses.old ≡ addresses_len p) × (filled_in_of (alone row) 0 ≤ data_count p) }
    ensures { addresses.new ≡ put_winners p (alone row) 0 places (below (filled_in_of (alone row) 0)) addresses.old }
{
    let n = call_land_chunk::filled_in(row);
    for k in 0..n {
        let e = call_land_chunk::entry(row, k);
        let a = e.address.0;
        if a < p.L as u64 {
            mem_tables::set_place(addresses, a as usize, Place(places[k]));
        }
    }
}

// 01, Landing: the stripe is complete: the table points at what holds. The serial of its segment is read once.
pub fn point(drives: &Drives<'_>, addresses: &mut [u8], segment: Seg, row: Row)
    requires addresses_len { (length addresses.old ≡ addresses_len drives.now.p) × EntriesSane drives.now.p (viewed drives.now) (alone row) 0 addresses.old }
    requires zones_low { ZonesLow drives.now.p 0 segment × (filled_in_of (alone row) 0 ≤ data_count drives.now.p)
        × ((d : ℕ) → d < drives.now.p.N → offset_in (alone row) 0 d < drives.now.p.S) }
    ensures { addresses.new
        ≡ pointed drives.now.p (viewed drives.now) addresses.old
        (landed_cands drives.now.p (viewed drives.now) segment (alone row) 0)
        (landed_cands drives.now.p (viewed drives.now) segment (alone row) 0) addresses.old }
{
    let serial = serial_at(drives.p, drives.image, segment);
    let places = winners(drives, addresses, segment, serial, row);
    put_places(drives.p, addresses, row, places);
}
