// Groups of a segment: the index of a group's chunks, its records and blocks, stored and lost (01, What a zone holds; Restart, 3; Refusals, 9).
#![tactic(auto)]

ghost use Rattle.std.specs.Prelude.{◌≡◌, true, false, cond, not, ◌||◌, List, ℕ, ◌+◌, ◌-◌, ◌*◌, ◌%◌, ◌≤◌, ◌<◌, eqb, length, get_or, set};
ghost use Rattle.std.specs.Int.Bits.{bit_xor};
ghost use Rattle.spec.specs.Bytes.{part};
ghost use Rattle.spec.specs.Drives.{view_of, mk_disk, sealed_in, zone_at, record_in, zone_on};
ghost use Rattle.spec.specs.Faults.{bad_rec, stored_bad};
ghost use Rattle.spec.specs.declared.Params.{Params};
ghost use Rattle.spec.specs.Lists.{keep, is_in};
ghost use Rattle.spec.specs.Params.{in_range, image_len, pointers_len, drives_of};
ghost use Rattle.spec.specs.Parity.{decode_block, decode_rec};
ghost use Rattle.spec.specs.Segments.{Segment, recs_on, offset_on, has_chunk, counts, stored_piece, stored_rec, rec_of, offset_of};
ghost use Rattle.disk_records.specs.Record.{rec_val};
ghost use Rattle.law_views.specs.Views.{Whole};
ghost use Rattle.recover_groups.specs.Groups.{group_len, group_recs, recs_bad, group_fault, recs_fault, Indexed, Entered, AllEntered, segment_in, GroupReads, Row, SameBelow};
ghost use Rattle.recover_groups.specs.Entering.{is_new};
ghost use Rattle.law_basic.specs.Segs.{ZonesLow};

use disk_records::Record;
use spec::{Address, Params, Seg, Stamp};

// A group of a segment as read: the missing drives, the segment, sealed or not, the group's first stripe.
// Stays: full is a fact beside the others, not whether they hold, so no `Option` takes its place.
#[derive(Clone, Copy)]
pub struct Group {
    pub gone: u8,
    pub seg: Seg,
    pub full: bool,
    pub base: usize,
}

// How many stripes the group has; the last may be short.
pub fn group_len(p: Params, base: usize) -> usize
    requires p_value { in_range p ≡ true }
    requires base_lt_s { base < p.S }
    ensures { (result ≡ group_len p base) × (1 ≤ result) × (result ≤ 256) × (base + result ≤ p.S) }
{
    if p.S - base < p.G {
        return p.S - base;
    }
    p.G
}

// ---- records

// 01, Refusals, 9: a data address at or above L, not padding, or below L with stamp 0.
pub fn bad_rec(p: Params, r: Record) -> bool
    ensures { result ≡ bad_rec p (rec_val r) }
{
    if r.address.0 < p.L as u64 {
        return r.stamp.0 == 0;
    }
    r.address.0 != Address::PADDING.0
}

// 01, Refusals, 9: such an address, stored. Whether it is data is asked last: that divides.
pub fn stored_bad(p: Params, drive: usize, r: Record) -> bool
    requires { in_range p ≡ true }
    ensures { result ≡ stored_bad p drive (rec_val r) }
{
    if !bad_rec(p, r) {
        return false;
    }
    disk_shape::is_data(p, r.stripe as usize, drive)
}

// ---- the index of a group

// Clears a drive's row.
pub fn clear_row(p: Params, at: &mut [u16], drive: usize)
    requires p_value { in_range p ≡ true }
    requires at_len { (length at.old ≡ 2048) × (drive < p.N) }
    ensures by_index { (k : ℕ) → k < p.G → get_or at.new (256 * drive + k) 0 ≡ 0 }
    ensures same_below { SameBelow drive at.old at.new }
{
    for k in 0..p.G {
        let j = 256 * drive + k;
        at[j] = 0;
    }
}

// Enters v for stripe s. False where s lies outside the group or is there already.
fn enter(p: Params, at: &mut [u16], drive: usize, base: usize, s: usize, v: usize) -> bool
    requires p_value { in_range p ≡ true }
    requires at_len { (length at.old ≡ 2048) × (drive < p.N) × (base < p.S) × (v < 65536) }
    ensures value { result ≡ is_new p drive base at.old s }
    ensures at_after { at.new ≡ cond result (set at.old (256 * drive + (s - base)) v) at.old }
{
    if s < base {
        return false;
    }
    let k = s - base;
    if group_len(p, base) <= k {
        return false;
    }
    let j = 256 * drive + k;
    if at[j] != 0 {
        return false;
    }
    at[j] = v as u16;
    true
}

// How many data blocks of the group lie below the drive's pointer.
pub fn group_stored(p: Params, pointers: &[u8], w: Group, drive: usize) -> usize
    requires p_value { in_range p ≡ true }
    requires pointers_len { (length pointers.now ≡ pointers_len p) × (drive < p.N) × (zone_on w.seg drive < p.Z) × (w.base < p.S) }
    ensures by_index { (off : List ℕ) (im : List ℕ) → length im ≡ image_len p → is_in w.gone drive ≡ false
        → result ≡ length (group_recs p w.base (recs_on (segment_in p off im pointers.now w) drive)) }
    ensures upper_bound { result ≤ group_len p w.base }
{
    let n = disk_stored::data_stored(p, pointers, drive, disk_shape::zone_on(p, w.seg, drive));
    let len = group_len(p, w.base);
    if n < w.base {
        return 0;
    }
    let m = n - w.base;
    if len < m {
        return len;
    }
    m
}

// The record at a data offset, as disk_stored::record_in has it, for the one loop below: what is the same for all records of a zone is worked out
// before the loop.
fn record_of(
    p: Params,
    image: &[u8],
    full: bool,
    drive: usize,
    zone: usize,
    offset: usize,
) -> Record
    requires p_value { in_range p ≡ true }
    requires image_len { (length image.now ≡ image_len p) × (drive < p.N) × (zone < p.Z) × (offset < p.S) }
    ensures { (off : List ℕ) (ps : List ℕ) → length ps ≡ pointers_len p → rec_val result ≡ record_in p full (zone_at (view_of p off image.now ps) drive zone) offset }
{
    let at = disk_stored::record_byte(p, full, drive, zone, offset);
    let end = at + disk_shape::SPARE;
    disk_records::read_record(&image[at..end])
}

// The index of one present drive, whose row is clear. False where a record is outside its group, twice, or has a bad data address.
fn index_drive(
    p: Params,
    image: &[u8],
    pointers: &[u8],
    w: Group,
    drive: usize,
    at: &mut [u16],
) -> bool
    requires p_value { in_range p ≡ true }
    requires whole { Whole p (mk_disk image.now pointers.now) }
    requires at_len { (length at.old ≡ 2048) × (drive < p.N) × ZonesLow p w.gone w.seg × (w.base < p.S) × (w.base % p.G ≡ 0) × (is_in w.gone drive ≡ false) }
    requires by_index { (k : ℕ) → k < group_len p w.base → get_or at.old (256 * drive + k) 0 ≡ 0 }
    ensures by_index_2 { (off : List ℕ)
        → w.full ≡ sealed_in p (view_of p off image.now pointers.now) w.gone w.seg
        → result ≡ not (recs_bad p drive w.base (group_recs p w.base (recs_on (segment_in p off image.now pointers.now w) drive))) }
    ensures same_below { SameBelow drive at.old at.new }
    ensures by_index_3 { (off : List ℕ)
        → w.full ≡ sealed_in p (view_of p off image.now pointers.now) w.gone w.seg
        → result ≡ true
        → Row p w.base (group_recs p w.base (recs_on (segment_in p off image.now pointers.now w) drive)) drive at.new }
{
    let n = group_stored(p, pointers, w, drive);
    let base = w.base;
    let zone = disk_shape::zone_on(p, w.seg, drive);
    for i in 0..n {
        let r = record_of(p, image, w.full, drive, zone, base + i);
        if stored_bad(p, drive, r) {
            return false;
        }
        if !enter(p, at, drive, base, r.stripe as usize, i + 1) {
            return false;
        }
    }
    true
}

// The same of any drive; a missing one has no chunks.
fn index_any(
    p: Params,
    image: &[u8],
    pointers: &[u8],
    w: Group,
    drive: usize,
    at: &mut [u16],
) -> bool
    requires p_value { in_range p ≡ true }
    requires whole { Whole p (mk_disk image.now pointers.now) }
    requires at_len { (length at.old ≡ 2048) × (drive < p.N) × ZonesLow p w.gone w.seg × (w.base < p.S) × (w.base % p.G ≡ 0) }
    ensures by_index { (off : List ℕ)
        → w.full ≡ sealed_in p (view_of p off image.now pointers.now) w.gone w.seg
        → result ≡ (is_in w.gone drive || not (recs_bad p drive w.base (group_recs p w.base (recs_on (segment_in p off image.now pointers.now w) drive)))) }
    ensures same_below { SameBelow drive at.old at.new }
    ensures by_index_2 { (off : List ℕ)
        → w.full ≡ sealed_in p (view_of p off image.now pointers.now) w.gone w.seg
        → result ≡ true
        → Row p w.base (group_recs p w.base (recs_on (segment_in p off image.now pointers.now w) drive)) drive at.new }
{
    clear_row(p, at, drive);
    if bits_masks::has_drive(w.gone, drive) {
        return true;
    }
    index_drive(p, image, pointers, w, drive, at)
}

// The index of the group. False where a record is outside its group, twice on a drive, or has a bad data address.
pub fn index_group(p: Params, image: &[u8], pointers: &[u8], w: Group, at: &mut [u16]) -> bool
    requires p_value { in_range p ≡ true }
    requires whole { Whole p (mk_disk image.now pointers.now) }
    requires at_len { (length at.old ≡ 2048) × ZonesLow p w.gone w.seg × (w.base < p.S) × (w.base % p.G ≡ 0) }
    ensures by_index { (off : List ℕ)
        → w.full ≡ sealed_in p (view_of p off image.now pointers.now) w.gone w.seg
        → result ≡ not (group_fault p w.gone (segment_in p off image.now pointers.now w) w.base) }
    ensures by_index_2 { (off : List ℕ)
        → w.full ≡ sealed_in p (view_of p off image.now pointers.now) w.gone w.seg
        → recs_fault p w.gone (segment_in p off image.now pointers.now w) ≡ false
        → Indexed p (segment_in p off image.now pointers.now w) w.base at.new }
{
    for d in 0..p.N {
        if !index_any(p, image, pointers, w, d, at) {
            return false;
        }
    }
    true
}

// ---- the chunks of a stripe: number k of the group

// 01, Restart, 3: the drive has the stripe's chunk.
pub fn has_chunk(at: &[u16], drive: usize, k: usize) -> bool
    requires { (length at.now ≡ 2048) × (drive < 8) × (k < 256) }
    ensures value { result ≡ not (eqb (get_or at.now (256 * drive + k) 0) 0) }
    ensures value_2 { (p : Params) (g : Segment) (base : ℕ) → Indexed p g base at.now → drive < p.N → k < group_len p base → result ≡ has_chunk g (base + k) drive }
{
    let j = 256 * drive + k;
    at[j] != 0
}

// 01, Restart, 3: on how many drives the stripe has its chunk.
pub fn chunks(p: Params, at: &[u16], k: usize) -> usize
    requires p_value { in_range p ≡ true }
    requires at_len { (length at.now ≡ 2048) × (k < 256) }
    ensures upper_bound { result ≤ p.N }
    ensures value { (g : Segment) (base : ℕ) → Indexed p g base at.now → k < group_len p base → result ≡ length (keep (has_chunk g (base + k)) (drives_of p)) }
{
    let mut n = 0;
    for d in 0..p.N {
        if has_chunk(at, d, k) {
            n += 1;
        }
    }
    n
}

// The drive is missing, or has the stripe's chunk.
fn is_there(p: Params, gone: u8, at: &[u16], drive: usize, k: usize) -> bool
    requires p_value { in_range p ≡ true }
    requires at_len { (length at.now ≡ 2048) × (drive < p.N) × (k < 256) }
    ensures { result ≡ (is_in gone drive || not (eqb (get_or at.now (256 * drive + k) 0) 0)) }
{
    if bits_masks::has_drive(gone, drive) {
        return true;
    }
    has_chunk(at, drive, k)
}

// 01, Restart, 3: every present drive has the stripe's chunk.
pub fn counts(p: Params, gone: u8, at: &[u16], k: usize) -> bool
    requires p_value { in_range p ≡ true }
    requires at_len { (length at.now ≡ 2048) × (k < 256) }
    ensures { (g : Segment) (base : ℕ) → Indexed p g base at.now → k < group_len p base → result ≡ counts p gone g (base + k) }
{
    (0..p.N).all(|d| is_there(p, gone, at, d, k))
}

// The offset of the stripe's chunk on a drive that has it.
pub fn offset_on(w: Group, at: &[u16], drive: usize, k: usize) -> usize
    requires { (length at.now ≡ 2048) × (drive < 8) × (k < 256) × (w.base < 65536) × (1 ≤ get_or at.now (256 * drive + k) 0) }
    ensures value { result ≡ w.base + get_or at.now (256 * drive + k) 0 - 1 }
    ensures value_2 { (p : Params) (g : Segment) → Indexed p g w.base at.now → drive < p.N → k < group_len p w.base → result ≡ offset_on g drive (w.base + k) }
{
    let j = 256 * drive + k;
    w.base + at[j] as usize - 1
}

// 01, The array: on the missing drive data offset s stands for stripe s.
pub fn offset_of(w: Group, at: &[u16], drive: usize, k: usize) -> usize
    requires at_len { (length at.now ≡ 2048) × (drive < 8) × (k < 256) × (w.base < 65536) }
    requires bound { is_in w.gone drive ≡ false → 1 ≤ get_or at.now (256 * drive + k) 0 }
    ensures { (p : Params) (g : Segment) → Indexed p g w.base at.now → drive < p.N → k < group_len p w.base → result ≡ offset_of w.gone g (w.base + k) drive }
{
    if bits_masks::has_drive(w.gone, drive) {
        return w.base + k;
    }
    offset_on(w, at, drive, k)
}

// The record of the stripe's chunk on a drive that has it.
pub fn stored_rec(p: Params, image: &[u8], w: Group, at: &[u16], drive: usize, k: usize) -> Record
    requires p_value { in_range p ≡ true }
    requires image_len { (length image.now ≡ image_len p) × (length at.now ≡ 2048) × (zone_on w.seg drive < p.Z) × (w.base < p.S) × (drive < p.N) × (k < group_len p w.base) }
    requires entered { Entered p w.base at.now drive k }
    ensures { (off : List ℕ) (ps : List ℕ)
        → GroupReads p off image.now ps w at.now
        → rec_val result ≡ stored_rec (segment_in p off image.now ps w) (w.base + k) drive }
{
    let zone = disk_shape::zone_on(p, w.seg, drive);
    disk_stored::record_in(p, image, w.full, drive, zone, offset_on(w, at, drive, k))
}

// The same; zeros for a missing drive.
fn present_rec(p: Params, image: &[u8], w: Group, at: &[u16], drive: usize, k: usize) -> Record
    requires p_value { in_range p ≡ true }
    requires image_len { (length image.now ≡ image_len p) × (length at.now ≡ 2048) × ZonesLow p w.gone w.seg × (w.base < p.S) × (drive < p.N) × (k < group_len p w.base) }
    requires all_entered { AllEntered p w.gone w.base at.now k }
    ensures { (off : List ℕ) (ps : List ℕ)
        → GroupReads p off image.now ps w at.now
        → is_in w.gone drive ≡ false
        → rec_val result ≡ stored_rec (segment_in p off image.now ps w) (w.base + k) drive }
{
    if bits_masks::has_drive(w.gone, drive) {
        return Record {
            address: Address(0),
            stamp: Stamp(0),
            stripe: 0,
        };
    }
    stored_rec(p, image, w, at, drive, k)
}

// 01, Read and Rebuild: the record that a missing drive has of a counted stripe, decoded from the present drives' ones.
pub fn lost_rec(p: Params, image: &[u8], w: Group, at: &[u16], drive: usize, k: usize) -> Record
    requires p_value { in_range p ≡ true }
    requires image_len { (length image.now ≡ image_len p) × (length at.now ≡ 2048) × ZonesLow p w.gone w.seg × (w.base < p.S) × (drive < p.N) × (k < group_len p w.base) }
    requires all_entered { AllEntered p w.gone w.base at.now k }
    ensures { (off : List ℕ) (ps : List ℕ)
        → GroupReads p off image.now ps w at.now
        → rec_val result ≡ decode_rec p w.gone (w.base + k) drive (stored_rec (segment_in p off image.now ps w) (w.base + k)) }
{
    let mut addresses = [0u64; 8];
    let mut stamps = [0u64; 8];
    for d in 0..p.N {
        let r = present_rec(p, image, w, at, d, k);
        addresses[d] = r.address.0;
        stamps[d] = r.stamp.0;
    }
    let s = (w.base + k) as u32;
    disk_code::decode_record(p, &addresses, &stamps, w.gone, s, drive)
}

// Adds a record's address and stamp to those of r.
pub fn xor_rec(r: Record, q: Record) -> Record
    ensures { (result.address.0 ≡ bit_xor r.address.0 q.address.0) × (result.stamp.0 ≡ bit_xor r.stamp.0 q.stamp.0) × (result.stripe ≡ r.stripe) }
{
    Record {
        address: Address(r.address.0 ^ q.address.0),
        stamp: Stamp(r.stamp.0 ^ q.stamp.0),
        stripe: r.stripe,
    }
}

// 01, Restart, 3: the record of a counted stripe on a drive, stored or decoded.
pub fn rec_of(p: Params, image: &[u8], w: Group, at: &[u16], drive: usize, k: usize) -> Record
    requires p_value { in_range p ≡ true }
    requires image_len { (length image.now ≡ image_len p) × (length at.now ≡ 2048) × ZonesLow p w.gone w.seg × (w.base < p.S) × (drive < p.N) × (k < group_len p w.base) }
    requires all_entered { AllEntered p w.gone w.base at.now k }
    ensures { (off : List ℕ) (ps : List ℕ) → GroupReads p off image.now ps w at.now
        → rec_val result ≡ rec_of p w.gone (segment_in p off image.now ps w) (w.base + k) drive }
{
    if bits_masks::has_drive(w.gone, drive) {
        return lost_rec(p, image, w, at, drive, k);
    }
    stored_rec(p, image, w, at, drive, k)
}

// Byte offset of the block of the stripe's chunk on a drive that has it.
pub fn block_at(p: Params, w: Group, at: &[u16], drive: usize, k: usize) -> usize
    requires p_value { in_range p ≡ true }
    requires at_len { (length at.now ≡ 2048) × (zone_on w.seg drive < p.Z) × (w.base < p.S) × (drive < p.N) × (k < group_len p w.base) }
    requires entered { Entered p w.base at.now drive k }
    ensures b_bound { result + p.B ≤ image_len p }
    ensures by_index { (off im ps : List ℕ)
        → length im ≡ image_len p
        → GroupReads p off im ps w at.now
        → (stored_piece (segment_in p off im ps w) (w.base + k) drive).block ≡ part result p.B im }
{
    let zone = disk_shape::zone_on(p, w.seg, drive);
    disk_shape::block_byte(p, drive, zone, 1 + offset_on(w, at, drive, k))
}

// The block of the stripe's chunk on a drive that has it.
pub fn chunk_block<'a>(
    p: Params,
    image: &'a [u8],
    w: Group,
    at: &[u16],
    drive: usize,
    k: usize,
) -> &'a [u8]
    requires p_value { in_range p ≡ true }
    requires image_len { (length image.now ≡ image_len p) × (length at.now ≡ 2048) × (zone_on w.seg drive < p.Z) × (w.base < p.S) × (drive < p.N) × (k < group_len p w.base) }
    requires entered { Entered p w.base at.now drive k }
    ensures long { length result.now ≡ p.B }
    ensures block { (off : List ℕ) (ps : List ℕ)
        → GroupReads p off image.now ps w at.now
        → result.now ≡ (stored_piece (segment_in p off image.now ps w) (w.base + k) drive).block }
{
    let a = block_at(p, w, at, drive, k);
    &image[a..a + p.B]
}

// Byte offset of the block of the stripe's chunk on a drive; 0 for a missing one.
fn present_block(p: Params, w: Group, at: &[u16], drive: usize, k: usize) -> usize
    requires p_value { in_range p ≡ true }
    requires at_len { (length at.now ≡ 2048) × ZonesLow p w.gone w.seg × (w.base < p.S) × (drive < p.N) × (k < group_len p w.base) }
    requires all_entered { AllEntered p w.gone w.base at.now k }
    ensures b_bound { is_in w.gone drive ≡ false → result + p.B ≤ image_len p }
    ensures by_index { (off im ps : List ℕ)
        → length im ≡ image_len p
        → GroupReads p off im ps w at.now
        → is_in w.gone drive ≡ false
        → (stored_piece (segment_in p off im ps w) (w.base + k) drive).block ≡ part result p.B im }
{
    if bits_masks::has_drive(w.gone, drive) {
        return 0;
    }
    block_at(p, w, at, drive, k)
}

// 01, Read and Rebuild: the block that a missing drive has of a counted stripe, decoded from the present drives' ones.
pub fn lost_block(
    p: Params,
    image: &[u8],
    w: Group,
    at: &[u16],
    drive: usize,
    k: usize,
    block: &mut [u8],
)
    requires p_value { in_range p ≡ true }
    requires image_len { (length image.now ≡ image_len p) × (length at.now ≡ 2048) × ZonesLow p w.gone w.seg × (w.base < p.S) × (drive < p.N) × (k < group_len p w.base)
        × (length block.old ≡ p.B) }
    requires all_entered { AllEntered p w.gone w.base at.now k }
    ensures { (off : List ℕ) (ps : List ℕ)
        → GroupReads p off image.now ps w at.now
        → block.new
        ≡ decode_block p w.gone (w.base + k) drive (λ e. (stored_piece (segment_in p off image.now ps w) (w.base + k) e).block) }
{
    let mut from = [0usize; 8];
    for d in 0..p.N {
        from[d] = present_block(p, w, at, d, k);
    }
    let s = w.base + k;
    disk_code::decode_block(p, image, &from, w.gone, s, drive, block);
}
