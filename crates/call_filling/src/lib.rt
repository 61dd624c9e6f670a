// What write, copy and closing share: which stripe takes a block, opening a segment, a data position filled (01, Write; Refusals, 6 to 8). Each question to the state is asked
// once, of its front; a stripe goes by value.
#![tactic(auto)]

ghost use Rattle.std.specs.Prelude.{◌≡◌, true, false, cond, not, ◌&&◌, List, ℕ, ◌*◌, ◌<◌, leb, eqb, length, replicate};
ghost use Rattle.std.specs.Int.Bits.{bit_or};
ghost use Rattle.spec.specs.declared.Answer.TheVariants.{Cut};
ghost use Rattle.spec.specs.Lists.{any, only};
ghost use Rattle.spec.specs.Counts.{last_count};
ghost use Rattle.spec.specs.Drives.{view_of, mk_disk, empty_count};
ghost use Rattle.spec.specs.Params.{in_range, data_count, image_len, pointers_len, offline_len, inflight_len};
ghost use Rattle.spec.specs.Memory.{is_free, is_filling, in_flight, free_slot, filling_slot};
ghost use Rattle.spec.specs.Write.{must_open, opens, no_stamp, other_group, must_wait, scarce};
ghost use Rattle.call_filling.specs.Aims.{aim_of};
ghost use Rattle.call_filling.specs.Entries.{added_row, begun_row, drive_for, entered, placed_row_of, sent_row};
ghost use Rattle.call_filling.specs.Left.{OpeningStores, placed_by, taken_by};
ghost use Rattle.mem_rows.specs.Rows.{behind, kept_as};
ghost use Rattle.law_views.specs.Views.{Whole};

use disk_zones::TooFew;
use mem_rows::{Change, Front, Row};
use spec::{Address, Answer, Params, Serial, Stamp};

// ---- the stripe that takes a block

// A stripe with k data positions filled has one left.
fn has_room(p: Params, k: u8) -> bool
    ensures { result ≡ not (leb (data_count p) k) }
{
    k as usize + 1 < p.N
}

// Some data positions are filled, and not all.
fn is_filling(p: Params, f: Front, i: usize) -> bool
    requires { i < 8 }
    ensures { result ≡ is_filling p (behind f) i }
{
    !mem_rows::is_free(f.filled, i) & has_room(p, f.filled[i])
}

// The filling stripe's eighth; 8 if there is none.
pub fn filling_slot(p: Params, f: Front) -> usize
    ensures { result ≡ filling_slot p (behind f) }
{
    for i in 0..8 {
        if is_filling(p, f, i) {
            return i;
        }
    }
    8
}

// 01, Write: the lowest free eighth; 8 if there is none.
fn free_slot(f: Front) -> usize
    ensures { result ≡ free_slot (behind f) }
{
    for i in 0..8 {
        if mem_rows::is_free(f.filled, i) {
            return i;
        }
    }
    8
}

// A stripe that begins now needs a new segment.
#[tactic(auto, unfolding(spec::specs::Write::must_open))]
fn must_open(p: Params, f: Front) -> bool
    ensures { result ≡ must_open p (behind f) }
{
    (f.opened == 0) | (f.next as usize == p.S)
}

// Where a block goes: whether a stripe begins, whether a segment is opened for it, and the eighth that takes it.
#[derive(Clone, Copy)]
pub struct Aim {
    pub begins: bool,
    pub opens: bool,
    pub slot: usize,
}

pub fn aim_of(p: Params, f: Front) -> Aim
    ensures { result ≡ aim_of p (behind f) }
{
    let i = filling_slot(p, f);
    if i < 8 {
        return Aim {
            begins: false,
            opens: false,
            slot: i,
        };
    }
    Aim {
        begins: true,
        opens: must_open(p, f),
        slot: free_slot(f),
    }
}

// ---- tests

// 01, Refusals, 6: no next stamp.
pub fn no_stamp(f: Front) -> bool
    ensures { result ≡ no_stamp (behind f) }
{
    f.stamp.0 == Stamp::LAST.0
}

// 01, Refusals, 6: no next serial where a segment must be opened.
pub fn no_serial(f: Front, a: Aim) -> bool
    ensures { result ≡ (a.opens && eqb f.serial.0 last_count) }
{
    a.opens & (f.serial.0 == Serial::LAST.0)
}

// How many stripes are in flight.
fn in_flight(f: Front) -> usize
    ensures { result ≡ length (in_flight (behind f)) }
{
    mem_rows::in_flight(f.filled)
}

// The stripe of eighth i is in flight, and of another group than the next one.
fn is_elsewhere(p: Params, f: Front, i: usize) -> bool
    requires p_value { in_range p ≡ true }
    requires i_bound { i < 8 }
    ensures { result ≡ (not (is_free (behind f) i) && other_group p (behind f) i) }
{
    if mem_rows::is_free(f.filled, i) {
        return false;
    }
    disk_shape::group(p, f.numbers[i] as usize) != disk_shape::group(p, f.next as usize)
}

// Some stripe in flight is of another group than the next one.
fn any_elsewhere(p: Params, f: Front) -> bool
    requires { in_range p ≡ true }
    ensures { result ≡ any (other_group p (behind f)) (in_flight (behind f)) }
{
    for i in 0..8 {
        if is_elsewhere(p, f, i) {
            return true;
        }
    }
    false
}

// 01, Refusals, 7: a stripe must begin and eight are in flight, or it is in the next group or segment and any is in flight.
pub fn must_wait(p: Params, f: Front, a: Aim) -> bool
    requires p_value { in_range p ≡ true }
    requires a_value { a ≡ aim_of p (behind f) }
    ensures { result ≡ must_wait p (behind f) }
{
    if !a.begins {
        return false;
    }
    let n = in_flight(f);
    if 8 <= n {
        return true;
    }
    if a.opens {
        return n != 0;
    }
    any_elsewhere(p, f)
}

// 01, Refusals, 8; 02, item 4: n zones empty, or fewer.
pub fn scarce(p: Params, pointers: &[u8], offline: &[u8], n: usize) -> bool
    requires p_value { in_range p ≡ true }
    requires pointers_len { (length pointers.now ≡ pointers_len p) × (length offline.now ≡ offline_len p) × (n < 8) }
    ensures { (im : List ℕ) → length im ≡ image_len p → result ≡ scarce p (view_of p offline.now im pointers.now) n }
{
    let k = disk_zones::empty_zones(p, pointers, offline, n + 1);
    k <= n
}

// ---- a segment opened

// The numbers in front with the segment open.
#[derive(Clone, Copy)]
pub struct Opened {
    pub serial: Serial,
    pub opened: u64,
    pub next: u32,
}

// 01, Write; 02, item 4: where no segment is open, headers in each drive's lowest empty good zone, under the next serial and the store count.
pub fn open(
    p: Params,
    image: &mut [u8],
    pointers: &mut [u8],
    offline: &[u8],
    f: Front,
    a: Aim,
    count: u64,
) -> Result<Opened, TooFew>
    requires p_value { in_range p ≡ true }
    requires whole { Whole p (mk_disk image.old pointers.old) × (length offline.now ≡ offline_len p) }
    requires opens_value { a.opens ≡ opens p (behind f) }
    requires serial_lt_last_count { a.opens ≡ true → f.serial.0 < last_count }
    requires nonzero { a.opens ≡ true → 0 < empty_count p (view_of p offline.now image.old pointers.old) }
    ensures { OpeningStores p offline.now (behind f) count (mk_disk image.old pointers.old) result
        (mk_disk image.new pointers.new) }
{
    let old = f.serial;
    if !a.opens {
        return Ok(Opened {
            serial: old,
            opened: f.opened,
            next: f.next,
        });
    }
    let g = disk_zones::new_segment(p, pointers, offline);
    let serial = Serial(old.0 + 1);
    disk_zones::header_stores(p, image, pointers, g, serial, Serial(0), count)?;
    Ok(Opened {
        serial,
        opened: serial.0,
        next: 0,
    })
}

// 01, Store count: the tables are all zeros, other buffers as they came.
pub fn cut(addresses: &mut [u8], compact: &mut [u8], f: Front) -> Change
    ensures value { result ≡ kept_as Cut f }
    ensures addresses_after { (addresses.new ≡ replicate (length addresses.old) 0) × (compact.new ≡ replicate (length compact.old) 0) }
{
    disk_blocks::clear(addresses);
    disk_blocks::clear(compact);
    mem_rows::kept(Answer::Cut, f)
}

// ---- a data position filled

// The mask of writes with position k, where it is one.
fn with_write(writes: u8, k: usize, write: bool) -> u8
    ensures { result ≡ bit_or writes (cond write 1 0 * only k) }
{
    if write {
        return bits_masks::with_drive(writes, k);
    }
    writes
}

// 01, Write: the address with its stamp at the next data position of a stripe.
fn added(row: Row, address: Address, stamp: Stamp, write: bool) -> Row
    requires { row.filled < 8 }
    ensures { result ≡ added_row row address.0 stamp.0 (cond write 1 0) }
{
    let f = row.filled;
    let k = f as usize;
    let w = with_write(row.writes, k, write);
    let mut next = row;
    next.filled = f + 1;
    next.writes = w;
    next.addresses[k] = address.0;
    next.stamps[k] = stamp.0;
    next
}

// 01, Write: the stripe with a block at its next data position; parity is worked out when the last data block is in.
pub fn enter(
    p: Params,
    inflight: &mut [u8],
    row: Row,
    i: usize,
    address: Address,
    stamp: Stamp,
    write: bool,
) -> Row
    requires p_value { in_range p ≡ true }
    requires i_bound { (i < 8) × (row.filled < data_count p) × (length inflight.old ≡ inflight_len p) }
    ensures value { result ≡ added_row row address.0 stamp.0 (cond write 1 0) }
    ensures inflight_after { inflight.new ≡ entered p row i inflight.old }
{
    let next = added(row, address, stamp, write);
    if !has_room(p, next.filled) {
        disk_code::slot_parity(p, inflight, i, row.number as usize);
    }
    next
}

// The drive of the next data position of a stripe.
pub fn next_drive(p: Params, row: Row) -> usize
    requires p_value { in_range p ≡ true }
    requires filled_bound { row.filled < data_count p }
    ensures { (result ≡ drive_for p row) × (result < p.N) }
{
    disk_shape::data_drive(p, row.number as usize, row.filled as usize)
}

// What filling a data position gives beside the in-flight buffer.
#[derive(Clone, Copy)]
pub struct Put {
    pub row: Row,
    pub drive: usize,
}

// 01, Write: the block lies in its eighth by drive.
fn place(
    p: Params,
    inflight: &mut [u8],
    row: Row,
    i: usize,
    address: Address,
    stamp: Stamp,
    write: bool,
    block: &[u8],
) -> Put
    requires p_value { in_range p ≡ true }
    requires i_bound { (i < 8) × (row.filled < data_count p) × (length inflight.old ≡ inflight_len p) × (length block.now ≡ p.B) }
    ensures { placed_by result inflight.new ≡ placed_row_of p row inflight.old i address.0 stamp.0 (cond write 1 0) block.now }
{
    let drive = next_drive(p, row);
    let at = disk_shape::slot_byte(p, i, drive);
    disk_blocks::copy_part(inflight, at, block);
    let next = enter(p, inflight, row, i, address, stamp, write);
    Put { row: next, drive }
}

// ---- a block sent

// The next stripe number begins in an eighth.
fn begun(row: Row, number: u32) -> Row
    ensures { result ≡ begun_row row number }
{
    let mut next = row;
    next.number = number;
    next.filled = 0;
    next.writes = 0;
    next.landed = 0;
    next
}

// What sending a block gives beside the in-flight buffer.
#[derive(Clone, Copy)]
pub struct Taken {
    pub row: Row,
    pub next: u32,
    pub drive: usize,
}

// 01, Write: the block takes the next data position of the stripe in its eighth, or begins stripe number next there; a segment is open for it.
pub fn send(
    p: Params,
    inflight: &mut [u8],
    row: Row,
    a: Aim,
    next: u32,
    address: Address,
    stamp: Stamp,
    write: bool,
    block: &[u8],
) -> Taken
    requires p_value { in_range p ≡ true }
    requires slot_bound { (a.slot < 8) × (a.begins ≡ false → row.filled < data_count p) × (next < 4294967295) × (length inflight.old ≡ inflight_len p) × (length block.now ≡ p.B) }
    ensures { taken_by result inflight.new ≡ sent_row p row inflight.old a.slot a.begins next address.0 stamp.0 (cond write 1 0) block.now }
{
    let i = a.slot;
    if a.begins {
        let first = begun(row, next);
        let q = place(p, inflight, first, i, address, stamp, write, block);
        let last = q.row;
        return Taken {
            row: last,
            next: next + 1,
            drive: q.drive,
        };
    }
    let q = place(p, inflight, row, i, address, stamp, write, block);
    let last = q.row;
    Taken {
        row: last,
        next,
        drive: q.drive,
    }
}
