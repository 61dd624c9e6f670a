// The two read calls (01, Read). They change neither drives nor memory, and take the state as its bytes: what they ask of it, they read there.
#![tactic(auto)]

ghost use Rattle.std.specs.Prelude.{◌≡◌, true, false, List, [], ℕ, ◌+◌, ◌<◌, length, get_or};
ghost use Rattle.spec.specs.Bytes.{part};
ghost use Rattle.spec.specs.Calls.{mk_after};
ghost use Rattle.spec.specs.Drives.{view_of, mk_disk, zone_at, zone_on, record_in, record_at};
ghost use Rattle.spec.specs.Engine.{call_disk};
ghost use Rattle.spec.specs.Engine.Call.{read, fill};
ghost use Rattle.spec.specs.Lists.{is_in};
ghost use Rattle.spec.specs.Memory.{mk_memory, state_len, state_of};
ghost use Rattle.spec.specs.Params.{in_range, image_len, pointers_len, compact_len, place_zone, place_drive, place_byte};
ghost use Rattle.spec.specs.Parity.{decode_rec};
ghost use Rattle.spec.specs.Read.Found.{here, away};
ghost use Rattle.spec.specs.Read.{lies};
ghost use Rattle.spec.specs.Host.{PartOf, part_at, part_len};
ghost use Rattle.disk_records.specs.Record.{rec_val};
ghost use Rattle.disk_stored.specs.Places.{DataPlace};
ghost use Rattle.mem_calls.specs.Left.{checked};
ghost use Rattle.mem_lookup.specs.Lies.{found_of};
ghost use Rattle.disk_drives.specs.Viewed.{viewed};
ghost use Rattle.disk_holders.specs.Held.{HeldOne};
ghost use Rattle.law_drives.specs.Segs.{Here};
ghost use Rattle.disk_code.specs.Folds.{PartsWithin};
ghost use Rattle.call_read.specs.Decode.{ShownOn, ShownAll, OffsetsLow, BlockAt, BlocksAt, lost_block};
ghost use Rattle.call_read.specs.Order.{read_refusal};
ghost use Rattle.call_read.specs.Placed.{Sorted};
ghost use Rattle.call_read.specs.Sought.{Gives, Seeks, SeeksAll};
ghost use Rattle.law_views.specs.Views.{Whole};
ghost use Rattle.law_basic.specs.Segs.{ZonesLow};

use disk_drives::Drives;
use disk_records::Record;
use mem_calls::Refusal;
use mem_lookup::Found;
use spec::{Address, Answer, Params, Place, Seg, Serial, Stamp};

// 01, Read: where the address lies, with the stamp.
#[derive(Clone, Copy)]
pub enum Sought {
    Never,
    Here(Place, Stamp),
    Away(Place, Stamp),
}

// ---- decoding

// 01, What a zone holds: the data offset at which the table shows the stripe on a drive, if it shows it; 0 for a missing drive.
fn shown_on(
    p: Params,
    pointers: &[u8],
    gone: u8,
    compact: &[u8],
    drive: usize,
    segment: Seg,
    s: usize,
) -> Option<usize>
    requires p_value { in_range p ≡ true }
    requires pointers_len { (length pointers.now ≡ pointers_len p) × (length compact.now ≡ compact_len p) }
    requires drive_lt_n { (drive < p.N) × ZonesLow p gone segment × (s < p.S) }
    ensures { (off : List ℕ) (im : List ℕ) → length im ≡ image_len p → ShownOn p (view_of p off im pointers.now) gone compact.now segment s drive result }
{
    if bits_masks::has_drive(gone, drive) {
        return Some(0);
    }
    let zone = disk_shape::zone_on(p, segment, drive);
    mem_lookup::shown_at(p, pointers, compact, drive, zone, s)
}

// 01, Refusals, 9: the same by drive; none where some present drive does not show the stripe.
fn shown_offsets(
    p: Params,
    pointers: &[u8],
    gone: u8,
    compact: &[u8],
    segment: Seg,
    s: usize,
) -> Option<[usize; 8]>
    requires p_value { in_range p ≡ true }
    requires pointers_len { (length pointers.now ≡ pointers_len p) × (length compact.now ≡ compact_len p) }
    requires zones_low { ZonesLow p gone segment × (s < p.S) }
    ensures { (off : List ℕ) (im : List ℕ)
        → length im ≡ image_len p
        → ShownAll p (view_of p off im pointers.now) gone compact.now segment s result }
{
    let mut at = [0usize; 8];
    for d in 0..p.N {
        at[d] = shown_on(p, pointers, gone, compact, d, segment, s)?;
    }
    Some(at)
}

// 01, Restart, 3: the record at a data offset; full: the segment is sealed. Of a missing drive nothing is read.
fn record_on(
    p: Params,
    image: &[u8],
    gone: u8,
    full: bool,
    drive: usize,
    segment: Seg,
    o: usize,
) -> Record
    requires p_value { in_range p ≡ true }
    requires image_len { (length image.now ≡ image_len p) × (drive < p.N) × ZonesLow p gone segment × (o < p.S) }
    ensures { (off : List ℕ) (ps : List ℕ)
        → length ps ≡ pointers_len p
        → is_in gone drive ≡ false
        → rec_val result ≡ record_in p full (zone_at (view_of p off image.now ps) drive (zone_on segment drive)) o }
{
    if bits_masks::has_drive(gone, drive) {
        return Record {
            address: Address(0),
            stamp: Stamp(0),
            stripe: 0,
        };
    }
    let zone = disk_shape::zone_on(p, segment, drive);
    disk_stored::record_in(p, image, full, drive, zone, o)
}

// 01, Read: the record of a missing drive, decoded from those at the data offsets.
fn decode_record(
    p: Params,
    image: &[u8],
    pointers: &[u8],
    gone: u8,
    drive: usize,
    segment: Seg,
    s: usize,
    at: &[usize],
) -> Record
    requires p_value { in_range p ≡ true }
    requires whole { Whole p (mk_disk image.now pointers.now) }
    requires drive_lt_n { (drive < p.N) × ZonesLow p gone segment × (s < p.S) × OffsetsLow p at.now }
    ensures { (off : List ℕ)
        → rec_val result ≡ decode_rec p gone s drive
        (λ e. record_at p (view_of p off image.now pointers.now) gone e segment (get_or at.now e 0)) }
{
    let full = disk_zones::is_sealed(p, pointers, gone, segment);
    let mut addresses = [0u64; 8];
    let mut stamps = [0u64; 8];
    for d in 0..p.N {
        let r = record_on(p, image, gone, full, d, segment, at[d]);
        addresses[d] = r.address.0;
        stamps[d] = r.stamp.0;
    }
    disk_code::decode_record(p, &addresses, &stamps, gone, s as u32, drive)
}

// The byte at which the block at a data offset begins; 0 for a missing drive, of which nothing is read.
fn block_on(p: Params, gone: u8, drive: usize, segment: Seg, o: usize) -> usize
    requires p_value { in_range p ≡ true }
    requires drive_lt_n { (drive < p.N) × ZonesLow p gone segment × (o < p.S) }
    ensures { (im : List ℕ) → length im ≡ image_len p → is_in gone drive ≡ false → BlockAt p im segment drive o result }
{
    if bits_masks::has_drive(gone, drive) {
        return 0;
    }
    let zone = disk_shape::zone_on(p, segment, drive);
    disk_shape::block_byte(p, drive, zone, 1 + o)
}

// By drive.
fn block_bytes(p: Params, gone: u8, segment: Seg, at: &[usize], bytes: &mut [usize])
    requires p_value { in_range p ≡ true }
    requires zones_low { ZonesLow p gone segment × OffsetsLow p at.now × (length bytes.old ≡ 8) }
    ensures { (im : List ℕ) → length im ≡ image_len p → BlocksAt p im gone segment at.now bytes.new }
{
    for d in 0..p.N {
        bytes[d] = block_on(p, gone, d, segment, at[d]);
    }
}

// ---- the checks of both reads, in order

// 01, Read: a place on the missing drive, in the segment of the serial: its stamp, or refused for its zone where some present drive does not
// show the stripe. The bytes at which the blocks to decode from begin are left in bytes.
fn seek_lost(
    drives: &Drives<'_>,
    gone: u8,
    compact: &[u8],
    q: Place,
    serial: Serial,
    bytes: &mut [usize],
) -> Result<Sought, Refusal>
    requires here { Here drives.now.p gone }
    requires compact_len { (length compact.now ≡ compact_len drives.now.p) × (length bytes.old ≡ 8) × DataPlace drives.now.p q.0 }
    requires held_one { HeldOne drives.now.p (viewed drives.now) gone (place_drive drives.now.p q.0) (place_zone drives.now.p q.0) serial.0 }
    ensures { Seeks drives.now.p drives.now.image.now (viewed drives.now) gone compact.now (away q.0) result bytes.new }
{
    let zone = disk_shape::place_zone(drives.p, q);
    let s = disk_shape::place_block(drives.p, q) - 1;
    let segment = disk_gather::seg_for(drives, gone, serial);
    let Some(at) = shown_offsets(drives.p, drives.pointers, gone, compact, segment, s) else {
        return Err(Refusal::BadZone(zone as u64));
    };
    block_bytes(drives.p, gone, segment, &at, bytes);
    let drive = disk_shape::place_drive(drives.p, q);
    let r = decode_record(
        drives.p,
        drives.image,
        drives.pointers,
        gone,
        drive,
        segment,
        s,
        &at,
    );
    let stamp = r.stamp;
    Ok(Sought::Away(q, stamp))
}

// 01, Refusals, 9; Read: a place on the missing drive: its segment is looked up once, for its faults and for the decode.
fn seek_away(
    drives: &Drives<'_>,
    gone: u8,
    compact: &[u8],
    q: Place,
    bytes: &mut [usize],
) -> Result<Sought, Refusal>
    requires here { Here drives.now.p gone }
    requires compact_len { (length compact.now ≡ compact_len drives.now.p) × (length bytes.old ≡ 8) }
    ensures { SeeksAll drives.now.p drives.now.image.now (viewed drives.now) gone compact.now (away q.0) result bytes.new }
{
    let held = disk_holders::place_held(drives, gone, q);
    let Some(serial) = held else {
        return Err(Refusal::BadZone(0));
    };
    if let Some(zone) = mem_lookup::held_fault(drives.p, drives.pointers, gone, q, held) {
        return Err(Refusal::BadZone(zone as u64));
    }
    seek_lost(drives, gone, compact, q, serial, bytes)
}

// 01, Refusals, 9; Read: a place on a present drive: the stamp by footer or spare.
fn seek_here(drives: &Drives<'_>, gone: u8, q: Place) -> Result<Sought, Refusal>
    requires here { Here drives.now.p gone }
    requires q_value { is_in gone (place_drive drives.now.p q.0) ≡ false }
    ensures { (cs : List ℕ) (bs : List ℕ) → SeeksAll drives.now.p drives.now.image.now (viewed drives.now) gone cs (here q.0) result bs }
{
    if let Some(zone) = mem_lookup::place_fault(drives, gone, q) {
        return Err(Refusal::BadZone(zone as u64));
    }
    let r = disk_holders::held_record(drives, gone, q);
    let stamp = r.stamp;
    Ok(Sought::Here(q, stamp))
}

// 01, Read: what lies there.
fn seek_found(
    drives: &Drives<'_>,
    gone: u8,
    compact: &[u8],
    f: Found,
    bytes: &mut [usize],
) -> Result<Sought, Refusal>
    requires here { Here drives.now.p gone }
    requires compact_len { (length compact.now ≡ compact_len drives.now.p) × (length bytes.old ≡ 8) × Sorted drives.now.p gone (found_of f) }
    ensures { SeeksAll drives.now.p drives.now.image.now (viewed drives.now) gone compact.now (found_of f) result bytes.new }
{
    match f {
        Found::Nowhere => Ok(Sought::Never),
        Found::Here(q) => seek_here(drives, gone, q),
        Found::Away(q) => seek_away(drives, gone, compact, q, bytes),
    }
}

// 01, Refusals: the checks, and then what the lookup gives; len is the lent block's length, B for the first call, which has none.
fn seek(
    p: Params,
    offline: &[u8],
    image: &[u8],
    pointers: &[u8],
    addresses: &[u8],
    compact: &[u8],
    inflight: &[u8],
    state: &[u8],
    address: Address,
    len: usize,
    bytes: &mut [usize],
) -> Result<Sought, Refusal>
    requires { (length state.now ≡ state_len) × (length bytes.old ≡ 8) }
    ensures result_value { checked result
        ≡ read_refusal p offline.now (mk_disk image.now pointers.now)
        (mk_memory (state_of state.now) addresses.now compact.now inflight.now) address.0 len }
    ensures gives { Gives p image.now (view_of p offline.now image.now pointers.now) (state_of state.now).missing compact.now
        (lies p (state_of state.now).missing addresses.now address.0) result bytes.new }
{
    if !disk_shape::in_range(p) {
        return Err(Refusal::Range);
    }
    mem_calls::lent_ok(p, offline, image, pointers, addresses, compact, inflight)?;
    if len != p.B {
        return Err(Refusal::Lengths);
    }
    mem_calls::list_rule(p, offline)?;
    if p.L as u64 <= address.0 {
        return Err(Refusal::Address);
    }
    if !mem_bounds::state_ok(p, state) {
        return Err(Refusal::BadZone(0));
    }
    let gone = mem_bounds::missing(state);
    let f = mem_lookup::lies(p, gone, addresses, address.0 as usize);
    seek_found(
        &Drives {
            p,
            image,
            pointers,
            offline,
        },
        gone,
        compact,
        f,
        bytes,
    )
}

// ---- the two calls

// The first read: its answer, a part of the image by its byte offset.
pub fn find(
    p: Params,
    offline: &[u8],
    image: &[u8],
    pointers: &[u8],
    addresses: &[u8],
    compact: &[u8],
    inflight: &[u8],
    state: &[u8],
    address: Address,
) -> Answer
    requires { length state.now ≡ state_len }
    ensures { mk_after result (mk_disk image.now pointers.now)
        (mk_memory (state_of state.now) addresses.now compact.now inflight.now) []
        ≡ call_disk p offline.now (mk_disk image.now pointers.now)
        (mk_memory (state_of state.now) addresses.now compact.now inflight.now) (read address.0) }
{
    let b = p.B;
    let mut bytes = [0usize; 8];
    let sought = seek(
        p, offline, image, pointers, addresses, compact, inflight, state, address, b, &mut bytes,
    );
    match sought {
        Err(why) => Answer::from(why),
        Ok(Sought::Never) => Answer::Never,
        Ok(Sought::Here(q, t)) => Answer::Part(disk_shape::place_byte(p, q) as u64, t),
        Ok(Sought::Away(_, t)) => Answer::Lost(t),
    }
}

// The first read's part of the lent image, by its place there: the block, or empty where the answer is no part.
pub fn part<'a>(
    p: Params,
    offline: &[u8],
    image: &'a [u8],
    pointers: &[u8],
    addresses: &[u8],
    compact: &[u8],
    inflight: &[u8],
    state: &[u8],
    address: Address,
) -> &'a [u8]
    requires { length state.now ≡ state_len }
    ensures { PartOf image.entry (part_at (call_disk p offline.now (mk_disk image.now pointers.now)
        (mk_memory (state_of state.now) addresses.now compact.now inflight.now)
        (read address.0)).answer) (part_len p
        (call_disk p offline.now (mk_disk image.now pointers.now)
        (mk_memory (state_of state.now) addresses.now compact.now inflight.now)
        (read address.0)).answer) result }
{
    let answer = find(
        p, offline, image, pointers, addresses, compact, inflight, state, address,
    );
    if let Answer::Part(at, _) = answer {
        let a = at as usize;
        let e = a + p.B;
        return &image[a..e];
    }
    &image[..0]
}

// The second read of a place on a present drive: a copy.
fn fill_here(p: Params, image: &[u8], q: Place, block: &mut [u8])
    requires p_value { in_range p ≡ true }
    requires image_len { (length image.now ≡ image_len p) × (length block.old ≡ p.B) × DataPlace p q.0 }
    ensures { block.new ≡ part (place_byte p q.0) p.B image.now }
{
    let at = disk_shape::place_byte(p, q);
    let end = at + p.B;
    disk_blocks::copy(block, &image[at..end]);
}

// The second read of a place on the missing drive: decoded from the blocks that begin at these bytes.
fn fill_lost(p: Params, image: &[u8], gone: u8, q: Place, bytes: &[usize], block: &mut [u8])
    requires p_value { in_range p ≡ true }
    requires image_len { (length image.now ≡ image_len p) × (length block.old ≡ p.B) × DataPlace p q.0 }
    requires bytes_len { (length bytes.now ≡ 8) × PartsWithin gone p.N bytes.now p.B (image_len p) }
    ensures { block.new ≡ lost_block p image.now gone q.0 bytes.now }
{
    let s = disk_shape::place_block(p, q) - 1;
    let drive = disk_shape::place_drive(p, q);
    disk_code::decode_block(p, image, bytes, gone, s, drive, block);
}

// The second read, into a lent block.
pub fn fill(
    p: Params,
    offline: &[u8],
    image: &[u8],
    pointers: &[u8],
    addresses: &[u8],
    compact: &[u8],
    inflight: &[u8],
    state: &[u8],
    address: Address,
    block: &mut [u8],
) -> Answer
    requires { length state.now ≡ state_len }
    ensures { mk_after result (mk_disk image.now pointers.now)
        (mk_memory (state_of state.now) addresses.now compact.now inflight.now) block.new
        ≡ call_disk p offline.now (mk_disk image.now pointers.now)
        (mk_memory (state_of state.now) addresses.now compact.now inflight.now)
        (fill address.0 block.old) }
{
    let n = block.len();
    let mut bytes = [0usize; 8];
    let sought = seek(
        p, offline, image, pointers, addresses, compact, inflight, state, address, n, &mut bytes,
    );
    match sought {
        Err(why) => Answer::from(why),
        Ok(Sought::Never) => {
            disk_blocks::clear(block);
            Answer::Filled(Stamp(0))
        }
        Ok(Sought::Here(q, t)) => {
            fill_here(p, image, q, block);
            Answer::Filled(t)
        }
        Ok(Sought::Away(q, stamp)) => {
            let gone = mem_bounds::missing(state);
            fill_lost(p, image, gone, q, &bytes, block);
            Answer::Filled(stamp)
        }
    }
}
