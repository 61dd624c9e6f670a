// One completed record more in the address table: the record that the table holds is found again by its place, and the better of the two stays (01, The calls, last paragraph).
// 02, item 4: whose segment a place's zone is stands in a table by drive and zone.
#![tactic(auto)]

ghost use Rattle.std.specs.Prelude.{◌≡◌, cond, [], ◌∷◌, map, ℕ, ◌<◌};
ghost use Rattle.std.specs.Int.Bits.{bit_xor};
ghost use Rattle.spec.specs.Bytes.{xor_all};
ghost use Rattle.spec.specs.Drives.{view_of, sealed_in};
ghost use Rattle.spec.specs.Lists.{is_in};
ghost use Rattle.spec.specs.Params.{present};
ghost use Rattle.spec.specs.Segments.{segment_of, stored_rec, rec_of};
ghost use Rattle.disk_rank.specs.Ranked.{ranked};
ghost use Rattle.recover_addresses.specs.Lies.{Ground, Gathered, StripeCounts, LiesIn, Somewhere};
ghost use Rattle.recover_addresses.specs.Told.{Near, Known, Tells, HasCand, IsCandAt};

use disk_rank::Cand;
use spec::{Address, Params, Place, Seg, Serial, Stamp};

// Adds the stamp of a counted stripe's chunk on a drive, found by the compact table; a missing drive has none.
fn add_stamp(
    p: Params,
    image: &[u8],
    pointers: &[u8],
    offline: &[u8],
    compact: &[u8],
    gone: u8,
    full: bool,
    drive: usize,
    segment: Seg,
    s: usize,
    t: Stamp,
) -> Stamp
    requires ground { Ground p offline.now image.now pointers.now gone compact.now }
    requires drive_lt_n { (drive < p.N)
        × StripeCounts p (view_of p offline.now image.now pointers.now) gone compact.now segment s
        × (full ≡ sealed_in p (view_of p offline.now image.now pointers.now) gone segment) }
    ensures { result.0 ≡ cond (is_in gone drive) t.0 (bit_xor t.0
        (stored_rec (segment_of p (view_of p offline.now image.now pointers.now) gone segment) s drive).stamp) }
{
    if bits_masks::has_drive(gone, drive) {
        return t;
    }
    let zone = disk_shape::zone_on(p, segment, drive);
    let o = mem_lookup::shown_at(p, pointers, compact, drive, zone, s).unwrap();
    let r = disk_stored::record_in(p, image, full, drive, zone, o);
    Stamp(t.0 ^ r.stamp.0)
}

// 01, Read: the stamp that is lost of a counted stripe: the exclusive or of the present drives' ones.
fn lost_stamp(
    p: Params,
    image: &[u8],
    pointers: &[u8],
    offline: &[u8],
    compact: &[u8],
    gone: u8,
    full: bool,
    segment: Seg,
    s: usize,
) -> Stamp
    requires ground { Ground p offline.now image.now pointers.now gone compact.now }
    requires stripe_counts { StripeCounts p (view_of p offline.now image.now pointers.now) gone compact.now segment s ×
        (full ≡ sealed_in p (view_of p offline.now image.now pointers.now) gone segment) }
    ensures { result.0 ≡ xor_all (map (λ d. (stored_rec (segment_of p (view_of p offline.now image.now pointers.now) gone segment) s d).stamp)
        (present p gone)) }
{
    let mut t = Stamp(0);
    for d in 0..p.N {
        t = add_stamp(
            p, image, pointers, offline, compact, gone, full, d, segment, s, t,
        );
    }
    t
}

// The stamp of the record at a place.
fn stamp_at(
    p: Params,
    image: &[u8],
    pointers: &[u8],
    offline: &[u8],
    compact: &[u8],
    gone: u8,
    drive: usize,
    segment: Seg,
    offset: usize,
) -> Stamp
    requires ground { Ground p offline.now image.now pointers.now gone compact.now }
    requires somewhere { Somewhere p (view_of p offline.now image.now pointers.now) gone compact.now drive segment offset }
    ensures { (s : ℕ)
        → LiesIn p (view_of p offline.now image.now pointers.now) gone compact.now drive segment offset s
        → result.0 ≡ (rec_of p gone (segment_of p (view_of p offline.now image.now pointers.now) gone segment) s drive).stamp }
{
    let full = disk_zones::is_sealed(p, pointers, gone, segment);
    if bits_masks::has_drive(gone, drive) {
        return lost_stamp(
            p, image, pointers, offline, compact, gone, full, segment, offset,
        );
    }
    let zone = disk_shape::zone_on(p, segment, drive);
    let r = disk_stored::record_in(p, image, full, drive, zone, offset);
    r.stamp
}

// The completed record at a place, as it competes.
fn cand_at(
    p: Params,
    image: &[u8],
    pointers: &[u8],
    offline: &[u8],
    compact: &[u8],
    gone: u8,
    rows: &[u32],
    serials: &[u64],
    owners: &[u16],
    address: Address,
    place: Place,
) -> Cand
    requires ground { Ground p offline.now image.now pointers.now gone compact.now }
    requires gathered { Gathered p (view_of p offline.now image.now pointers.now) gone rows.now serials.now owners.now }
    requires has_cand { HasCand p (view_of p offline.now image.now pointers.now) gone compact.now address.0 place.0 }
    ensures { IsCandAt p (view_of p offline.now image.now pointers.now) gone compact.now address.0 place.0 (ranked result) }
{
    let drive = disk_shape::place_drive(p, place);
    let zone = disk_shape::place_zone(p, place);
    let offset = disk_shape::place_block(p, place) - 1;
    let z = owners[disk_shape::offline_at(p, drive, zone)] as usize;
    let segment = disk_gather::row(rows, z);
    let stamp = stamp_at(
        p, image, pointers, offline, compact, gone, drive, segment, offset,
    );
    Cand {
        address,
        stamp,
        serial: Serial(serials[z]),
        drive,
        offset,
        place,
    }
}

// 01, The calls: the candidate's place goes in if its address is below L and has none, or holds a record that it beats.
pub fn offer(
    p: Params,
    image: &[u8],
    pointers: &[u8],
    offline: &[u8],
    addresses: &mut [u8],
    compact: &[u8],
    gone: u8,
    rows: &[u32],
    serials: &[u64],
    owners: &[u16],
    c: Cand,
)
    requires ground { Ground p offline.now image.now pointers.now gone compact.now }
    requires gathered { Gathered p (view_of p offline.now image.now pointers.now) gone rows.now serials.now owners.now }
    requires near { Near p (view_of p offline.now image.now pointers.now) gone compact.now (ranked c) }
    requires known { Known p (view_of p offline.now image.now pointers.now) gone compact.now addresses.old }
    ensures { Tells p (view_of p offline.now image.now pointers.now) gone compact.now addresses.old addresses.new
        (ranked c ∷ []) }
{
    let address = c.address;
    let better = c.place;
    if p.L as u64 <= address.0 {
        return;
    }
    let a = address.0 as usize;
    let place = mem_tables::place_at(addresses, a);
    if place.0 == 0xffff_ffff {
        mem_tables::set_place(addresses, a, better);
        return;
    }
    let h = cand_at(
        p, image, pointers, offline, compact, gone, rows, serials, owners, address, place,
    );
    if disk_rank::beats(c, h) {
        mem_tables::set_place(addresses, a, better);
    }
}
