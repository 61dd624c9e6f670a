// A stripe in flight as a landing asks about it: whether a chunk waits, whether it completes the stripe, its record (01, Landing).
#![tactic(auto)]

ghost use Rattle.std.specs.Prelude.{◌≡◌, true, ◌&&◌, ◌≤◌, ◌<◌, ltb, eqb};
ghost use Rattle.spec.specs.Landing.{ready, completes, flight_rec, writes_in};
ghost use Rattle.spec.specs.Memory.{slot_count, stripe_in, filled_in_of, entry_in_of, entries_in, offset_in};
ghost use Rattle.spec.specs.Params.{in_range};
ghost use Rattle.spec.specs.Parity.{encode_rec};
ghost use Rattle.disk_records.specs.Record.{rec_val};
ghost use Rattle.call_land_chunk.specs.Alone.{alone, mark_row, free_row};

use disk_records::Record;
use mem_rows::Row;
use spec::{Address, Params, Stamp};

// 01, Write: how many data positions are filled.
pub fn filled_in(row: Row) -> usize
    ensures { result ≡ filled_in_of (alone row) 0 }
{
    row.filled as usize
}

// 01, Landing: the chunk on drive d of the stripe is there and has not landed.
pub fn ready(p: Params, row: Row, d: usize) -> bool
    requires { in_range p ≡ true }
    ensures { result ≡ ready p (alone row) 0 d }
{
    if bits_masks::has_drive(row.landed, d) {
        return false;
    }
    let s = row.number as usize;
    let f = row.filled as usize;
    if disk_shape::is_data(p, s, d) {
        return disk_shape::data_position(p, s, d) < f;
    }
    disk_shape::data_count(p) <= f
}

// 01, Refusals, 5: a chunk that waits, of the stripe in this eighth; 8: it is not in flight.
pub fn waiting(p: Params, slot: usize, row: Row, d: usize) -> bool
    requires { in_range p ≡ true }
    ensures { result ≡ (ltb d p.N && ltb slot slot_count && ready p (alone row) 0 d) }
{
    if p.N <= d {
        return false;
    }
    if 8 <= slot {
        return false;
    }
    ready(p, row, d)
}

// 01, Landing: as many drives have landed the stripe as there are drives, once d has.
pub fn completes(p: Params, row: Row, d: usize) -> bool
    ensures { result ≡ completes p (alone row) 0 d }
{
    bits_masks::is_complete(bits_masks::with_drive(row.landed, d), p.N)
}

// 01, Landing: it completes, all S stripes of the segment have begun, and one is in flight.
pub fn is_last(p: Params, done: bool, next: u32, flying: usize) -> bool
    ensures { result ≡ (done && eqb next p.S && eqb flying 1) }
{
    if !done {
        return false;
    }
    if next as usize != p.S {
        return false;
    }
    flying == 1
}

// 01, Write: the record of data position k.
pub fn entry(row: Row, k: usize) -> Record
    requires { k < 8 }
    ensures { rec_val result ≡ entry_in_of (alone row) 0 k }
{
    let a = row.addresses[k];
    let t = row.stamps[k];
    Record {
        address: Address(a),
        stamp: Stamp(t),
        stripe: row.number,
    }
}

// 01, Landing: the data offset at which a drive has the stripe.
pub fn offset_in(row: Row, drive: usize) -> usize
    requires { drive < 8 }
    ensures { result ≡ offset_in (alone row) 0 drive }
{
    row.offsets[drive] as usize
}

// 01, What a zone holds: the parity's record, from the filled positions.
pub fn parity_entry(row: Row) -> Record
    requires { filled_in_of (alone row) 0 ≤ 8 }
    ensures { rec_val result ≡ encode_rec 0 (stripe_in (alone row) 0) (entries_in (alone row) 0) }
{
    let n = filled_in(row);
    let addresses = row.addresses;
    let stamps = row.stamps;
    disk_code::encode_record(n, &addresses, &stamps, 0, row.number)
}

// 01, What a zone holds: the record of the stripe's chunk on drive d.
pub fn flight_record(p: Params, row: Row, d: usize) -> Record
    requires { (in_range p ≡ true) × (d < p.N) × (filled_in_of (alone row) 0 ≤ 8) }
    ensures { rec_val result ≡ flight_rec p (alone row) 0 d }
{
    let s = row.number as usize;
    if disk_shape::is_data(p, s, d) {
        return entry(row, disk_shape::data_position(p, s, d));
    }
    parity_entry(row)
}

// 01, Landing: how many of the filled positions are writes.
pub fn writes_in(row: Row) -> usize
    ensures { result ≡ writes_in (alone row) 0 }
{
    let f = filled_in(row);
    let mut n = 0;
    for k in 0..f {
        if bits_masks::has_drive(row.writes, k) {
            n += 1;
        }
    }
    n
}

// 01, Landing: drive d has the stripe, at data offset o.
pub fn mark_landed(row: Row, d: usize, o: usize) -> Row
    requires { (d < 8) × (o < 4294967296) }
    ensures { result ≡ mark_row row d o }
{
    let mut next = row;
    next.landed = bits_masks::with_drive(row.landed, d);
    next.offsets[d] = o as u32;
    next
}

// 01, Landing: the eighth is free.
pub fn free_stripe(row: Row) -> Row
    ensures { result ≡ free_row row }
{
    let mut next = row;
    next.filled = 0;
    next
}
