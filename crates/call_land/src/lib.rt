// The landing call (01, Landing).
#![tactic(auto)]

ghost use Rattle.std.specs.Prelude.{◌≡◌, true, List, [], ◌∷◌, ℕ, ◌+◌, ◌-◌, ◌≤◌, ◌<◌, eqb, length, set, replicate, IfOk};
ghost use Rattle.mem_calls.specs.Left.{checked};
ghost use Rattle.spec.specs.Calls.{first_refusal};
ghost use Rattle.spec.specs.Calls.Check.{zones};
ghost use Rattle.spec.specs.declared.Answer.TheVariants.{Cut};
ghost use Rattle.spec.specs.declared.State.{State as StateOf};
ghost use Rattle.spec.specs.Drives.{view_of, mk_disk, pointer_of, store_disk, zone_on};
ghost use Rattle.spec.specs.Drives.Store.{put};
ghost use Rattle.spec.specs.Engine.{call_disk};
ghost use Rattle.spec.specs.Engine.Call.{land};
ghost use Rattle.spec.specs.Landing.{flight_rec, land_faults};
ghost use Rattle.spec.specs.Layout.{compact_entry, record_bytes};
ghost use Rattle.spec.specs.Memory.{Memory, mk_memory, state_len, state_of, filled_in_of, offset_in, compact_at, slot_block};
ghost use Rattle.spec.specs.Params.{in_range, data_count, footers, capacity, offline_len, addresses_len, compact_len, inflight_len};
ghost use Rattle.spec.specs.Lists.{is_nil};
ghost use Rattle.spec.specs.Segments.{open_segments};
ghost use Rattle.call_land.specs.Ends.{Chosen};
ghost use Rattle.call_land.specs.Marked.{change_to};
ghost use Rattle.call_land.specs.Plan.{Looks, LookedAt, TargetAt, seals_of, Completing};
ghost use Rattle.call_land.specs.Ready.{land_refusal};
ghost use Rattle.call_land_table.specs.Winners.{EntriesSane};
ghost use Rattle.mem_rows.specs.Rows.{after_change};
ghost use Rattle.law_basic.specs.Segs.{ZonesLow};
ghost use Rattle.law_views.specs.Views.{Whole};
ghost use Rattle.call_land_chunk.specs.Alone.{alone, mark_row};
ghost use Rattle.disk_drives.specs.Viewed.{viewed};
ghost use Rattle.disk_zones.specs.Made.{Storing};

use disk_drives::Drives;
use disk_zones::TooFew;
use mem_calls::Refusal;
use mem_rows::{Change, Front, Row};
use spec::{Answer, Params, Seg, Serial, State};

// What a landing asks of the state, once: the stripe's eighth (8: not in flight) and its row, whether the chunk completes the stripe, and whether it seals
// the segment.
#[derive(Clone, Copy)]
pub struct Look {
    pub slot: usize,
    pub done: bool,
    pub seals: bool,
    pub row: Row,
}

// 02, item 4: the open segment: its zone on the landing's drive, Z where no remaining segment has the open serial; and, where the stripe completes, all of
// its zones.
#[derive(Clone, Copy)]
pub struct Target {
    pub zone: usize,
    pub segment: Seg,
}

// An eighth as it is, 0 for none.
fn within(slot: usize) -> usize
    ensures { (result < 8) × (slot < 8 → result ≡ slot) }
{
    if slot < 8 {
        return slot;
    }
    0
}

// 01, Landing: looks at the state; the row is read in its bytes.
fn look_at(p: Params, state: State, bytes: &[u8], drive: usize, stripe: usize) -> Look
    requires { (state ≡ state_of bytes.now) × (length bytes.now ≡ state_len) }
    ensures { Looks p state drive stripe result }
{
    let slot = mem_state::slot_of(state, stripe);
    let row = mem_codec::row_at(bytes, within(slot));
    let done = call_land_chunk::completes(p, row, drive);
    let flying = mem_state::in_flight(state);
    let seals = call_land_chunk::is_last(p, done, state.next, flying);
    Look {
        slot,
        done,
        seals,
        row,
    }
}

// 02, item 4: looks up the open segment by its serial with its zones on all drives; the headers of each drive are looked at once.
fn open_whole(drives: &Drives<'_>, drive: usize, opened: u64) -> Target
    requires drive_lt_n { drive < drives.now.p.N }
    ensures st_value { (st : StateOf)
        → st.opened ≡ opened
        → is_nil (open_segments drives.now.p (viewed drives.now) st) ≡ eqb result.zone drives.now.p.Z }
    ensures target_at { (st : StateOf)
        → st.opened ≡ opened
        → (result.zone ≡ drives.now.p.Z → ⊥)
        → TargetAt drives.now.p (viewed drives.now) st drive true result }
    ensures zone_le_z { result.zone ≤ drives.now.p.Z }
{
    let first = disk_holders::open_zone(drives, 0, Serial(opened));
    if first == drives.p.Z {
        return Target {
            zone: first,
            segment: Seg { zones: [0u32; 8] },
        };
    }
    let segment = disk_holders::open_segment(drives, first, Serial(opened));
    let zone = disk_shape::zone_on(drives.p, segment, drive);
    Target { zone, segment }
}

// 02, item 4: looks up the open segment by its serial. Its zones on the other drives are looked for only where the stripe completes.
fn open_at(drives: &Drives<'_>, drive: usize, opened: u64, done: bool) -> Target
    requires drive_lt_n { drive < drives.now.p.N }
    ensures st_value { (st : StateOf)
        → st.opened ≡ opened
        → is_nil (open_segments drives.now.p (viewed drives.now) st) ≡ eqb result.zone drives.now.p.Z }
    ensures target_at { (st : StateOf)
        → st.opened ≡ opened
        → (result.zone ≡ drives.now.p.Z → ⊥)
        → TargetAt drives.now.p (viewed drives.now) st drive done result }
    ensures zone_le_z { result.zone ≤ drives.now.p.Z }
{
    if done {
        return open_whole(drives, drive, opened);
    }
    let zone = disk_holders::open_zone(drives, drive, Serial(opened));
    Target {
        zone,
        segment: Seg { zones: [0u32; 8] },
    }
}

// 01, Refusals, 9, behind the ranges of the state; 02, item 4: outside them too where no remaining segment has its open serial.
fn zone_checks(
    drives: &Drives<'_>,
    addresses: &[u8],
    opened: u64,
    seen: Look,
    drive: usize,
    stripe: usize,
) -> Result<Target, Refusal>
    requires addresses_len { length addresses.now ≡ addresses_len drives.now.p }
    requires drive_lt_n { (drive < drives.now.p.N) × ((m : Memory) × LookedAt drives.now.p m addresses.now opened drive stripe seen) }
    ensures check_value { (m : Memory)
        → LookedAt drives.now.p m addresses.now opened drive stripe seen
        → checked result ≡ first_refusal (zones (land_faults drives.now.p (viewed drives.now) m drive stripe) ∷ []) }
    ensures target_at { (m : Memory)
        → LookedAt drives.now.p m addresses.now opened drive stripe seen
        → IfOk result (λ t. TargetAt drives.now.p (viewed drives.now) m.state drive seen.done t) }
{
    let target = open_at(drives, drive, opened, seen.done);
    if target.zone == drives.p.Z {
        return Err(Refusal::BadZone(0));
    }
    let row = seen.row;
    let segment = target.segment;
    let z = call_land_faults::land_fault(
        drives,
        addresses,
        row,
        drive,
        target.zone,
        segment,
        stripe,
        seen.done,
        seen.seals,
    );
    mem_lookup::zone_check(drives.p, z)?;
    Ok(target)
}

// 01, Refusals: the checks of a landing, in order. The ranges of the state are looked at in its bytes, before its open segment is looked up.
fn checks(
    p: Params,
    offline: &[u8],
    image: &[u8],
    pointers: &[u8],
    addresses: &[u8],
    compact: &[u8],
    inflight: &[u8],
    bytes: &[u8],
    missing: u8,
    opened: u64,
    seen: Look,
    drive: usize,
    stripe: usize,
) -> Result<Target, Refusal>
    requires looks { Looks p (state_of bytes.now) drive stripe seen }
    requires missing_value { (missing ≡ (state_of bytes.now).missing) × (length bytes.now ≡ state_len) × (opened ≡ (state_of bytes.now).opened) }
    ensures check_value { checked result
        ≡ land_refusal p offline.now (mk_disk image.now pointers.now)
        (mk_memory (state_of bytes.now) addresses.now compact.now inflight.now) drive stripe }
    ensures target_at { IfOk result (λ t. TargetAt p (view_of p offline.now image.now pointers.now) (state_of bytes.now) drive seen.done t) }
{
    if !disk_shape::in_range(p) {
        return Err(Refusal::Range);
    }
    mem_calls::lent_ok(p, offline, image, pointers, addresses, compact, inflight)?;
    mem_calls::list_rule(p, offline)?;
    if missing != 0 {
        return Err(Refusal::Missing);
    }
    let row = seen.row;
    if !call_land_chunk::waiting(p, seen.slot, row, drive) {
        return Err(Refusal::NotDue);
    }
    if !mem_bounds::state_ok(p, bytes) {
        return Err(Refusal::BadZone(0));
    }
    let drives = Drives {
        p,
        image,
        pointers,
        offline,
    };
    zone_checks(&drives, addresses, opened, seen, drive, stripe)
}

// 01, Landing: the chunk of a drive goes to the zone's write pointer, its record in its spare.
fn put_chunk(
    p: Params,
    image: &mut [u8],
    pointers: &mut [u8],
    inflight: &[u8],
    row: Row,
    i: usize,
    drive: usize,
    zone: usize,
)
    requires p_value { in_range p ≡ true }
    requires whole { Whole p (mk_disk image.old pointers.old) }
    requires inflight_len { (length inflight.now ≡ inflight_len p) × (i < 8) × (filled_in_of (alone row) 0 ≤ 8) }
    requires drive_lt_n { (drive < p.N) × (zone < p.Z) × (pointer_of p pointers.old drive zone < capacity p) }
    ensures { mk_disk image.new pointers.new
        ≡ store_disk p (put drive zone (slot_block p inflight.now i drive) (record_bytes (flight_rec p (alone row) 0 drive)))
        (mk_disk image.old pointers.old) }
{
    let mut spare = [0u8; disk_shape::SPARE];
    disk_records::write_record(&mut spare, call_land_chunk::flight_record(p, row, drive));
    let a = disk_shape::slot_byte(p, i, drive);
    let e = a + p.B;
    disk_zones::put(p, image, pointers, drive, zone, &inflight[a..e], &spare);
}

// 01, What a zone holds: the compact table's entry of the chunk.
fn show_chunk(
    p: Params,
    compact: &mut [u8],
    drive: usize,
    zone: usize,
    offset: usize,
    stripe: usize,
)
    requires p_value { in_range p ≡ true }
    requires compact_len { (length compact.old ≡ compact_len p) × (drive < p.N) × (zone < p.Z) × (offset < p.S) }
    ensures { compact.new ≡ set compact.old (compact_at p drive zone offset) (compact_entry p stripe) }
{
    let c = disk_shape::compact_at(p, drive, zone, offset);
    let b = disk_shape::compact_entry(p, stripe);
    compact[c] = b;
}

// 01, Landing: the chunk is stored, shown in the compact table, and remembered with its offset.
fn store_chunk(
    p: Params,
    image: &mut [u8],
    pointers: &mut [u8],
    compact: &mut [u8],
    inflight: &[u8],
    row: Row,
    i: usize,
    zone: usize,
    drive: usize,
    stripe: usize,
) -> Row
    requires p_value { in_range p ≡ true }
    requires whole { Whole p (mk_disk image.old pointers.old) }
    requires compact_len { (length compact.old ≡ compact_len p) × (length inflight.now ≡ inflight_len p) × (i < 8) × (filled_in_of (alone row) 0 ≤ 8) }
    requires drive_lt_n { (drive < p.N) × (zone < p.Z) × (1 ≤ pointer_of p pointers.old drive zone) × (pointer_of p pointers.old drive zone ≤ p.S) }
    ensures pointers_after { mk_disk image.new pointers.new
        ≡ store_disk p
        (put drive zone (slot_block p inflight.now i drive) (record_bytes (flight_rec p (alone row) 0 drive)))
        (mk_disk image.old pointers.old) }
    ensures compact_after { (compact.new
        ≡ set compact.old
        (compact_at p drive zone (pointer_of p pointers.old drive zone - 1))
        (compact_entry p stripe))
        × (result ≡ mark_row row drive (pointer_of p pointers.old drive zone - 1)) }
{
    let offset = disk_zones::pointer(p, pointers, drive, zone) as usize - 1;
    put_chunk(p, image, pointers, inflight, row, i, drive, zone);
    show_chunk(p, compact, drive, zone, offset, stripe);
    call_land_chunk::mark_landed(row, drive, offset)
}

// 01, Landing: the landing after which all S stripes are complete also stores the footers.
fn seal(
    p: Params,
    image: &mut [u8],
    pointers: &mut [u8],
    segment: Seg,
    seals: bool,
    count: u64,
) -> Result<u64, TooFew>
    requires p_value { in_range p ≡ true }
    requires whole { Whole p (mk_disk image.old pointers.old) }
    requires zones_low { ZonesLow p 0 segment × (seals ≡ true → (d : ℕ) → d < p.N → pointer_of p pointers.old d (zone_on segment d) + footers p ≤ capacity p) }
    ensures { (off : List ℕ)
        → Storing p count (seals_of p off (mk_disk image.old pointers.old) segment seals)
        (mk_disk image.old pointers.old) result (mk_disk image.new pointers.new) }
{
    if !seals {
        return Ok(count);
    }
    call_land_seal::seal_stores(p, image, pointers, segment, count)
}

// 01, Store count: a cut leaves the tables all zeros.
fn cut(addresses: &mut [u8], compact: &mut [u8]) -> Answer
    ensures { (result ≡ Cut) × (addresses.new ≡ replicate (length addresses.old) 0) × (compact.new ≡ replicate (length compact.old) 0) }
{
    disk_blocks::clear(addresses);
    disk_blocks::clear(compact);
    Answer::Cut
}

// 01, Landing: the stripe is complete: the table points at what holds, its writes are acknowledged, and the last one's landing seals.
fn complete(
    p: Params,
    image: &mut [u8],
    pointers: &mut [u8],
    offline: &[u8],
    addresses: &mut [u8],
    compact: &mut [u8],
    row: Row,
    segment: Seg,
    seals: bool,
    count: u64,
) -> Answer
    requires p_value { in_range p ≡ true }
    requires whole { Whole p (mk_disk image.old pointers.old) × (length offline.now ≡ offline_len p) }
    requires addresses_len { (length addresses.old ≡ addresses_len p) × EntriesSane p (view_of p offline.now image.old pointers.old) (alone row) 0 addresses.old }
    requires row_bound { (filled_in_of (alone row) 0 ≤ data_count p) × ((d : ℕ) → d < p.N → offset_in (alone row) 0 d < p.S) }
    requires zones_low { ZonesLow p 0 segment × (seals ≡ true → (d : ℕ) → d < p.N → pointer_of p pointers.old d (zone_on segment d) + footers p ≤ capacity p) }
    ensures { Completing p offline.now count row segment seals (mk_disk image.old pointers.old) addresses.old compact.old result
        (mk_disk image.new pointers.new) addresses.new compact.new }
{
    let drives = Drives {
        p,
        image,
        pointers,
        offline,
    };
    call_land_table::point(&drives, addresses, segment, row);
    let made = seal(p, image, pointers, segment, seals, count);
    if made.is_err() {
        return cut(addresses, compact);
    }
    let n = call_land_chunk::writes_in(row);
    Answer::Landed(n as u64)
}

// 01, Landing: what changes in the state: the stripe's eighth, and, at the end of a segment, that none is target.
fn change_to(answer: Answer, front: Front, i: usize, row: Row, closes: bool) -> Change
    ensures { result ≡ change_to answer front i row closes }
{
    let stamp = front.stamp;
    let serial = front.serial;
    let mut opened = front.opened;
    let mut next = front.next;
    if closes {
        opened = 0;
        next = 0;
    }
    Change {
        answer,
        stamp,
        serial,
        opened,
        next,
        slot: i,
        row,
    }
}

// 01, Landing; Store count: where no check holds.
fn plan(
    p: Params,
    offline: &[u8],
    image: &mut [u8],
    pointers: &mut [u8],
    addresses: &mut [u8],
    compact: &mut [u8],
    inflight: &[u8],
    front: Front,
    seen: Look,
    target: Target,
    drive: usize,
    stripe: usize,
    count: u64,
) -> Change
    requires { (st : StateOf)
        × Chosen p offline.now (mk_disk image.old pointers.old) addresses.old compact.old inflight.now drive stripe seen target front st }
    ensures { (st : StateOf)
        → Chosen p offline.now (mk_disk image.old pointers.old) addresses.old compact.old
        inflight.now drive stripe seen target front st
        → after_change st result image.new pointers.new addresses.new compact.new inflight.now [] ≡
        call_disk p offline.now (mk_disk image.old pointers.old)
        (mk_memory st addresses.old compact.old inflight.now) (land drive stripe count) }
{
    if count == 0 {
        let answer = cut(addresses, compact);
        return mem_rows::kept(answer, front);
    }
    let i = seen.slot;
    let row = seen.row;
    let marked = store_chunk(
        p,
        image,
        pointers,
        compact,
        inflight,
        row,
        i,
        target.zone,
        drive,
        stripe,
    );
    if !seen.done {
        return change_to(Answer::Landed(0), front, i, marked, false);
    }
    let segment = target.segment;
    let seals = seen.seals;
    let answer = complete(
        p,
        image,
        pointers,
        offline,
        addresses,
        compact,
        marked,
        segment,
        seals,
        count - 1,
    );
    change_to(
        answer,
        front,
        i,
        call_land_chunk::free_stripe(marked),
        seals,
    )
}

// A landing: refused, cut or done, with the change made it leaves what the definition says. The state goes by value, with the bytes that say it.
pub fn land(
    p: Params,
    offline: &[u8],
    image: &mut [u8],
    pointers: &mut [u8],
    addresses: &mut [u8],
    compact: &mut [u8],
    inflight: &[u8],
    state: State,
    bytes: &[u8],
    drive: usize,
    stripe: usize,
    count: u64,
) -> Change
    requires { (state ≡ state_of bytes.now) × (length bytes.now ≡ state_len) }
    ensures { after_change state result image.new pointers.new addresses.new compact.new inflight.now []
        ≡ call_disk p offline.now (mk_disk image.old pointers.old)
        (mk_memory state addresses.old compact.old inflight.now) (land drive stripe count) }
{
    let seen = look_at(p, state, bytes, drive, stripe);
    let front = mem_rows::front_of(state);
    let target = match checks(
        p,
        offline,
        image,
        pointers,
        addresses,
        compact,
        inflight,
        bytes,
        state.missing,
        state.opened,
        seen,
        drive,
        stripe,
    ) {
        Err(why) => return mem_rows::kept(Answer::from(why), front),
        Ok(target) => target,
    };
    plan(
        p, offline, image, pointers, addresses, compact, inflight, front, seen, target, drive,
        stripe, count,
    )
}
