// The memory that the drives say: restart's tables and state (01, Restart).
#![tactic(auto)]

ghost use Rattle.std.specs.Prelude.{◌≡◌, true, false, cond, ◌&&◌, List, [], ◌∷◌, ℕ, ◌+◌, ◌*◌, ◌%◌, max, ◌≤◌, ◌<◌, ltb, eqb, length, get_or, replicate};
ghost use Rattle.spec.specs.Drives.{view_of, mk_disk, sealed_in, zone_on};
ghost use Rattle.spec.specs.Lists.{up_from, below, is_in};
ghost use Rattle.spec.specs.Memory.{mk_memory, idle_state, compact_at};
ghost use Rattle.spec.specs.Params.{in_range, image_len, pointers_len, offline_len, addresses_len, compact_len};
ghost use Rattle.spec.specs.Restart.{restart_memory};
ghost use Rattle.spec.specs.Segments.{remaining, segment_of, counted, cand_of, greatest_stamp};
ghost use Rattle.recover_groups.specs.Groups.{group_len, segment_in, GroupReads};
ghost use Rattle.recover_addresses.specs.Lies.{Ground, Gathered};
ghost use Rattle.recover_addresses.specs.Told.{Known, Tells};
ghost use Rattle.recover_compact.specs.Compacts.{SegmentShown};
ghost use Rattle.disk_rank.specs.Ranked.{ranked};
ghost use Rattle.disk_gather.specs.Flags.{Keeps};
ghost use Rattle.law_drives.specs.Members.{In};
ghost use Rattle.law_drives.specs.Tables.{seg_at, remains_at};
ghost use Rattle.law_views.specs.Views.{Whole};
ghost use Rattle.recover_tables.specs.Head.{Loading, OpenNext, SaidTables};
ghost use Rattle.recover_tables.specs.Index.{Rowed, Grouped};
ghost use Rattle.recover_tables.specs.Ready.{ReadsStripe, Indexing, Standing};
ghost use Rattle.recover_tables.specs.Walk.{stripe_cands, Walked, Toured};
ghost use Rattle.law_basic.specs.Segs.{ZonesLow};

use disk_rank::Cand;
use recover_groups::Group;
use spec::{Params, Seg, Serial, Stamp, State};

// The most zones of all drives.
const OWNERS: usize = 8 * 1024;

// The greatest counted stamp so far, and how many stripes of the segment count so far.
#[derive(Clone, Copy)]
pub struct Loaded {
    pub stamp: Stamp,
    pub counted: usize,
}

// The greatest counted stamp so far, and how many stripes of the open segment count.
#[derive(Clone, Copy)]
pub struct Head {
    pub stamp: Stamp,
    pub next: usize,
}

// The greater of two.
fn greater(a: Stamp, b: Stamp) -> Stamp
    ensures { result.0 ≡ max a.0 b.0 }
{
    Stamp(a.0.max(b.0))
}

// The record of stripe k of the group on a drive, as it competes.
fn cand_of(
    p: Params,
    image: &[u8],
    w: Group,
    at: &[u16],
    serial: Serial,
    drive: usize,
    k: usize,
) -> Cand
    requires p_value { in_range p ≡ true }
    requires image_len { (length image.now ≡ image_len p) × (length at.now ≡ 2048) × ZonesLow p w.gone w.seg × (w.base < p.S) × (drive < p.N) × (k < group_len p w.base)
        × (zone_on w.seg drive < p.Z) }
    requires reads_stripe { ReadsStripe p image.now w at.now k }
    ensures { (off : List ℕ) (ps : List ℕ)
        → GroupReads p off image.now ps w at.now
        → serial.0 ≡ (segment_in p off image.now ps w).serial
        → ranked result ≡ cand_of p w.gone (segment_in p off image.now ps w) (w.base + k) drive }
{
    let r = recover_groups::rec_of(p, image, w, at, drive, k);
    let offset = recover_groups::offset_of(w, at, drive, k);
    let zone = disk_shape::zone_on(p, w.seg, drive);
    let place = disk_shape::place_of(p, drive, zone, 1 + offset);
    let address = r.address;
    let stamp = r.stamp;
    Cand {
        address,
        stamp,
        serial,
        drive,
        offset,
        place,
    }
}

// The data records of a counted stripe: offered to the table; the greatest stamp so far comes back.
fn load_stripe(
    p: Params,
    image: &[u8],
    pointers: &[u8],
    offline: &[u8],
    addresses: &mut [u8],
    compact: &[u8],
    w: Group,
    rows: &[u32],
    serials: &[u64],
    owners: &[u16],
    serial: Serial,
    at: &[u16],
    k: usize,
    stamp: Stamp,
) -> Stamp
    requires ground { Ground p offline.now image.now pointers.now w.gone compact.now }
    requires gathered { Gathered p (view_of p offline.now image.now pointers.now) w.gone rows.now serials.now owners.now ×
        (serial.0 ≡ (segment_in p offline.now image.now pointers.now w).serial) }
    requires standing { Standing p offline.now image.now pointers.now w compact.now at.now k }
    requires known { Known p (view_of p offline.now image.now pointers.now) w.gone compact.now addresses.old }
    ensures tells { Tells p (view_of p offline.now image.now pointers.now) w.gone compact.now addresses.old addresses.new
        (stripe_cands p w.gone (segment_in p offline.now image.now pointers.now w) (w.base + k)) }
    ensures result_value { result.0 ≡ max stamp.0 (greatest_stamp (stripe_cands p w.gone (segment_in p offline.now image.now pointers.now w) (w.base + k))) }
{
    let s = w.base + k;
    let n = disk_shape::data_count(p);
    let mut most = stamp;
    for i in 0..n {
        let drive = disk_shape::data_drive(p, s, i);
        let c = cand_of(p, image, w, at, serial, drive, k);
        let t = c.stamp;
        recover_addresses::offer(
            p, image, pointers, offline, addresses, compact, w.gone, rows, serials, owners, c,
        );
        most = greater(most, t);
    }
    most
}

// Stripe k of the group, if it counts.
fn load_if(
    p: Params,
    image: &[u8],
    pointers: &[u8],
    offline: &[u8],
    addresses: &mut [u8],
    compact: &[u8],
    w: Group,
    rows: &[u32],
    serials: &[u64],
    owners: &[u16],
    serial: Serial,
    at: &[u16],
    k: usize,
    t: Loaded,
) -> Loaded
    requires ground { Ground p offline.now image.now pointers.now w.gone compact.now }
    requires gathered { Gathered p (view_of p offline.now image.now pointers.now) w.gone rows.now serials.now owners.now ×
        (serial.0 ≡ (segment_in p offline.now image.now pointers.now w).serial) }
    requires indexing { Indexing p offline.now image.now pointers.now w compact.now at.now k × (t.counted ≤ w.base + k) }
    requires known { Known p (view_of p offline.now image.now pointers.now) w.gone compact.now addresses.old }
    ensures { Walked p (view_of p offline.now image.now pointers.now) w.gone compact.now w.seg ((w.base + k) ∷ []) addresses.old
        addresses.new t.stamp.0 result.stamp.0 t.counted result.counted }
{
    if !recover_groups::counts(p, w.gone, at, k) {
        return t;
    }
    let most = t.stamp;
    let stamp = load_stripe(
        p, image, pointers, offline, addresses, compact, w, rows, serials, owners, serial, at, k,
        most,
    );
    Loaded {
        stamp,
        counted: t.counted + 1,
    }
}

// What the compact table holds of data offset i of a group on a drive.
fn entry_at(p: Params, compact: &[u8], w: Group, drive: usize, i: usize) -> usize
    requires p_value { in_range p ≡ true }
    requires compact_len { (length compact.now ≡ compact_len p) × (drive < p.N) × (zone_on w.seg drive < p.Z) × (w.base < p.S) × (i < group_len p w.base) }
    ensures { (result ≡ get_or compact.now (compact_at p drive (zone_on w.seg drive) w.base + i) 0) × (result < 256) }
{
    let zone = disk_shape::zone_on(p, w.seg, drive);
    let from = disk_shape::compact_at(p, drive, zone, w.base);
    compact[from + i] as usize
}

// The index of a present drive, whose row is clear: the compact table has it, so that no record is read again.
fn index_drive(p: Params, pointers: &[u8], compact: &[u8], w: Group, drive: usize, at: &mut [u16])
    requires p_value { in_range p ≡ true }
    requires pointers_len { (length pointers.now ≡ pointers_len p) × (length compact.now ≡ compact_len p) × (length at.old ≡ 2048) }
    requires drive_lt_n { (drive < p.N) × ZonesLow p w.gone w.seg × (w.base < p.S) × (w.base % p.G ≡ 0) × (is_in w.gone drive ≡ false) }
    requires by_index { (k : ℕ) → k < group_len p w.base → get_or at.old (256 * drive + k) 0 ≡ 0 }
    ensures { (off : List ℕ) (im : List ℕ) → Rowed p off im pointers.now w.gone compact.now w.seg w.base drive at.old at.new }
{
    let n = recover_groups::group_stored(p, pointers, w, drive);
    for i in 0..n {
        let j = 256 * drive + entry_at(p, compact, w, drive, i);
        at[j] = (i + 1) as u16;
    }
}

// The same of any drive; a missing one has no chunks.
fn index_any(p: Params, pointers: &[u8], compact: &[u8], w: Group, drive: usize, at: &mut [u16])
    requires p_value { in_range p ≡ true }
    requires pointers_len { (length pointers.now ≡ pointers_len p) × (length compact.now ≡ compact_len p) × (length at.old ≡ 2048) }
    requires drive_lt_n { (drive < p.N) × ZonesLow p w.gone w.seg × (w.base < p.S) × (w.base % p.G ≡ 0) }
    ensures { (off : List ℕ) (im : List ℕ) → Rowed p off im pointers.now w.gone compact.now w.seg w.base drive at.old at.new }
{
    recover_groups::clear_row(p, at, drive);
    if bits_masks::has_drive(w.gone, drive) {
        return;
    }
    index_drive(p, pointers, compact, w, drive, at);
}

// The index of the group.
fn index_group(p: Params, pointers: &[u8], compact: &[u8], w: Group, at: &mut [u16])
    requires p_value { in_range p ≡ true }
    requires pointers_len { (length pointers.now ≡ pointers_len p) × (length compact.now ≡ compact_len p) × (length at.old ≡ 2048) }
    requires zones_low { ZonesLow p w.gone w.seg × (w.base < p.S) × (w.base % p.G ≡ 0) }
    ensures { (off : List ℕ) (im : List ℕ) → Grouped p off im pointers.now compact.now w at.new }
{
    for d in 0..p.N {
        index_any(p, pointers, compact, w, d, at);
    }
}

// One group.
fn load_group(
    p: Params,
    image: &[u8],
    pointers: &[u8],
    offline: &[u8],
    addresses: &mut [u8],
    compact: &[u8],
    w: Group,
    rows: &[u32],
    serials: &[u64],
    owners: &[u16],
    serial: Serial,
    at: &mut [u16],
    t: Loaded,
) -> Loaded
    requires ground { Ground p offline.now image.now pointers.now w.gone compact.now }
    requires gathered { Gathered p (view_of p offline.now image.now pointers.now) w.gone rows.now serials.now owners.now ×
        (serial.0 ≡ (segment_in p offline.now image.now pointers.now w).serial) }
    requires at_len { (length at.old ≡ 2048)
        × (w.base < p.S)
        × (w.base % p.G ≡ 0)
        × (w.full ≡ sealed_in p (view_of p offline.now image.now pointers.now) w.gone w.seg)
        × In w.seg (remaining p (view_of p offline.now image.now pointers.now) w.gone)
        × SegmentShown p (view_of p offline.now image.now pointers.now) w.gone w.seg compact.now
        × (t.counted ≤ w.base) }
    requires known { Known p (view_of p offline.now image.now pointers.now) w.gone compact.now addresses.old }
    ensures { Walked p (view_of p offline.now image.now pointers.now) w.gone compact.now w.seg (up_from w.base (group_len p w.base))
        addresses.old addresses.new t.stamp.0 result.stamp.0 t.counted result.counted }
{
    index_group(p, pointers, compact, w, at);
    let len = recover_groups::group_len(p, w.base);
    let mut next = t;
    for k in 0..len {
        next = load_if(
            p, image, pointers, offline, addresses, compact, w, rows, serials, owners, serial, at,
            k, next,
        );
    }
    next
}

// All groups of a remaining segment; at is room for the index of one.
fn load_groups(
    p: Params,
    image: &[u8],
    pointers: &[u8],
    offline: &[u8],
    addresses: &mut [u8],
    compact: &[u8],
    gone: u8,
    rows: &[u32],
    serials: &[u64],
    owners: &[u16],
    serial: Serial,
    seg: Seg,
    at: &mut [u16],
    stamp: Stamp,
) -> Loaded
    requires ground { Ground p offline.now image.now pointers.now gone compact.now }
    requires gathered { Gathered p (view_of p offline.now image.now pointers.now) gone rows.now serials.now owners.now ×
        (serial.0 ≡ (segment_of p (view_of p offline.now image.now pointers.now) gone seg).serial) }
    requires fact { In seg (remaining p (view_of p offline.now image.now pointers.now) gone) × SegmentShown p (view_of p offline.now image.now pointers.now) gone seg compact.now }
    requires known { Known p (view_of p offline.now image.now pointers.now) gone compact.now addresses.old × (length at.old ≡ 2048) }
    ensures { Walked p (view_of p offline.now image.now pointers.now) gone compact.now seg (below p.S) addresses.old addresses.new
        stamp.0 result.stamp.0 0 result.counted }
{
    let full = disk_zones::is_sealed(p, pointers, gone, seg);
    let mut t = Loaded { stamp, counted: 0 };
    for base in (0..p.S).step_by(p.G) {
        let w = Group {
            gone,
            seg,
            full,
            base,
        };
        t = load_group(
            p, image, pointers, offline, addresses, compact, w, rows, serials, owners, serial, at,
            t,
        );
    }
    t
}

// One segment that remains: its rows of the compact table, then its records, which are in the cache by then; opened is the row of the open one.
fn load_segment(
    p: Params,
    image: &[u8],
    pointers: &[u8],
    offline: &[u8],
    addresses: &mut [u8],
    compact: &mut [u8],
    gone: u8,
    rows: &[u32],
    serials: &[u64],
    owners: &[u16],
    kept: bool,
    opened: usize,
    z: usize,
    at: &mut [u16],
    h: Head,
) -> Head
    requires ground { Ground p offline.now image.now pointers.now gone compact.old }
    requires gathered { Gathered p (view_of p offline.now image.now pointers.now) gone rows.now serials.now owners.now }
    requires z_lt_z { (z < p.Z) × (kept ≡ remains_at p (view_of p offline.now image.now pointers.now) gone z) }
    requires toured { Toured p (view_of p offline.now image.now pointers.now) gone z compact.old addresses.old h.stamp.0 × (length at.old ≡ 2048) }
    ensures toured_2 { Toured p (view_of p offline.now image.now pointers.now) gone (z + 1) compact.new addresses.new result.stamp.0 }
    ensures next_value { result.next
        ≡ cond (kept && eqb z opened)
        (length (counted p gone (segment_of p (view_of p offline.now image.now pointers.now) gone
        (seg_at p (view_of p offline.now image.now pointers.now) gone z)))) h.next }
{
    if !kept {
        return h;
    }
    let segment = disk_gather::row(rows, z);
    recover_compact::rows(p, image, pointers, compact, gone, segment);
    let most = h.stamp;
    let serial = Serial(serials[z]);
    let t = load_groups(
        p, image, pointers, offline, addresses, compact, gone, rows, serials, owners, serial,
        segment, at, most,
    );
    let stamp = t.stamp;
    if z == opened {
        return Head {
            stamp,
            next: t.counted,
        };
    }
    Head {
        stamp,
        next: h.next,
    }
}

// All segments, from tables that are clear: no address was ever written, and no zone has chunks; at is room for the index of a group.
fn load_segments(
    p: Params,
    image: &[u8],
    pointers: &[u8],
    offline: &[u8],
    addresses: &mut [u8],
    compact: &mut [u8],
    gone: u8,
    rows: &[u32],
    serials: &[u64],
    owners: &[u16],
    kept: &[bool],
    opened: usize,
    at: &mut [u16],
) -> Head
    requires ground { Ground p offline.now image.now pointers.now gone compact.old }
    requires gathered { Gathered p (view_of p offline.now image.now pointers.now) gone rows.now serials.now owners.now }
    requires keeps { Keeps p (view_of p offline.now image.now pointers.now) gone kept.now }
    requires addresses_value { (addresses.old ≡ replicate (addresses_len p) 255) × (compact.old ≡ replicate (compact_len p) 0) × (length at.old ≡ 2048) }
    ensures toured { Toured p (view_of p offline.now image.now pointers.now) gone p.Z compact.new addresses.new result.stamp.0 }
    ensures next_le_s { (result.next ≤ p.S)
        × OpenNext p (view_of p offline.now image.now pointers.now) gone opened result.next }
{
    let mut h = Head {
        stamp: Stamp(0),
        next: 0,
    };
    for z in 0..p.Z {
        h = load_segment(
            p, image, pointers, offline, addresses, compact, gone, rows, serials, owners, kept[z],
            opened, z, at, h,
        );
    }
    h
}

// Every address never written.
fn clear_table(addresses: &mut [u8])
    ensures { addresses.new ≡ replicate (length addresses.old) 255 }
{
    addresses.fill(255);
}

// Both tables; opened is the row of the open segment; owners is room for whose each zone is, which is none before.
fn load_tables(
    p: Params,
    image: &[u8],
    pointers: &[u8],
    offline: &[u8],
    addresses: &mut [u8],
    compact: &mut [u8],
    gone: u8,
    rows: &[u32],
    serials: &[u64],
    owners: &mut [u16],
    kept: &[bool],
    opened: usize,
) -> Head
    requires p_value { in_range p ≡ true }
    requires whole { Whole p (mk_disk image.now pointers.now) × (offline_len p ≤ length owners.old) × ((t : ℕ) → t < offline_len p → get_or owners.old t 0 ≡ 1024) }
    requires addresses_len { (length addresses.old ≡ addresses_len p) × (length compact.old ≡ compact_len p) }
    requires loading { Loading p (view_of p offline.now image.now pointers.now) gone rows.now serials.now kept.now }
    ensures said_tables { SaidTables p (view_of p offline.now image.now pointers.now) gone addresses.new compact.new result.stamp.0 }
    ensures next_le_s { (result.next ≤ p.S)
        × OpenNext p (view_of p offline.now image.now pointers.now) gone opened result.next }
{
    clear_table(addresses);
    disk_blocks::clear(compact);
    disk_gather::find_owners(p, rows, kept, owners);
    let mut at = [0u16; 2048];
    load_segments(
        p, image, pointers, offline, addresses, compact, gone, rows, serials, owners, kept, opened,
        &mut at,
    )
}

// The state: nothing in flight; a segment is open if no drive is missing and one is unsealed; 02, item 4: the state has its serial.
fn state_of(p: Params, gone: u8, h: Head, serial: Serial, serials: &[u64], opened: usize) -> State
    requires { (p.Z ≤ 1024) × (p.S ≤ 65535) × (h.next ≤ p.S) × (p.Z ≤ length serials.now) }
    ensures { result
        ≡ idle_state 1 gone h.stamp.0 serial.0 (cond (eqb gone 0 && ltb opened p.Z) (get_or serials.now opened 0) 0)
        (cond (eqb gone 0 && ltb opened p.Z) h.next 0) }
{
    let stamp = h.stamp;
    if gone != 0 {
        return mem_state::idle_state(1, gone, stamp, serial, 0, 0);
    }
    if p.Z <= opened {
        return mem_state::idle_state(1, gone, stamp, serial, 0, 0);
    }
    let number = serials[opened];
    let next = h.next as u32;
    mem_state::idle_state(1, gone, stamp, serial, number, next)
}

// The address table, the compact table and the state that the drives say, by what was gathered of their segments. The only other facts needed of the
// view are that no remaining segment has a stripe number outside its group or twice in a zone, or a bad data address stored, and that no two have one zone;
// the in-flight buffer stays (fl).
pub fn load(
    p: Params,
    image: &[u8],
    pointers: &[u8],
    offline: &[u8],
    addresses: &mut [u8],
    compact: &mut [u8],
    gone: u8,
    rows: &[u32],
    serials: &[u64],
    kept: &[bool],
) -> State
    requires p_value { in_range p ≡ true }
    requires whole { Whole p (mk_disk image.now pointers.now) }
    requires addresses_len { (length addresses.old ≡ addresses_len p) × (length compact.old ≡ compact_len p) }
    requires loading { Loading p (view_of p offline.now image.now pointers.now) gone rows.now serials.now kept.now }
    ensures { (fl : List ℕ)
        → mk_memory result addresses.new compact.new fl
        ≡ restart_memory p (view_of p offline.now image.now pointers.now) gone fl }
{
    let first = recover_segments::first_unsealed(p, pointers, gone, kept, rows);
    let opened = first.unwrap_or(p.Z);
    let serial = recover_segments::greatest_serial(p, kept, serials);
    let mut owners = [1024u16; OWNERS];
    let h = load_tables(
        p,
        image,
        pointers,
        offline,
        addresses,
        compact,
        gone,
        rows,
        serials,
        &mut owners,
        kept,
        opened,
    );
    state_of(p, gone, h, serial, serials, opened)
}
