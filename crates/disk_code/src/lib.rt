// The code of a stripe: its parities from its data, and what is lost of it from what is there (01, What a zone holds; Write; Read; Restart; Rebuild). What two parities
// change (02, item 5) is here, in its definitions (spec, Parity) and in its laws (law_code).
#![tactic(auto)]

ghost use Rattle.std.specs.Prelude.{◌≡◌, true, false, cond, map, ◌+◌, ◌≤◌, ◌<◌, length, get_or};
ghost use Rattle.std.specs.Int.Bits.{bit_xor};
ghost use Rattle.spec.specs.Bytes.{part, xors, parity, xor_all};
ghost use Rattle.spec.specs.Layout.{mk_rec, parity_drive, data_drive};
ghost use Rattle.spec.specs.Lists.{below, is_in};
ghost use Rattle.spec.specs.Memory.{slot_byte, set_slot_parity};
ghost use Rattle.spec.specs.Params.{in_range, data_count, inflight_len};
ghost use Rattle.spec.specs.Parity.{encode_block, encode_rec, decode_block, decode_rec};
ghost use Rattle.disk_records.specs.Record.{rec_val};
ghost use Rattle.disk_code.specs.Folds.{kept, parts_of, PartsWithin};
ghost use Rattle.disk_code.specs.Slots.{data_parity};

use disk_records::Record;
use spec::{Address, Params, Stamp};

// ---- the two folds: the exclusive or of the first n of eight, without those that a mask leaves out

// One number more, unless it is left out.
fn add_number(numbers: &[u64], out: u8, k: usize, sum: u64) -> u64
    requires { k < length numbers.now }
    ensures { result ≡ cond (is_in out k) sum (bit_xor sum (get_or numbers.now k 0)) }
{
    if bits_masks::has_drive(out, k) {
        return sum;
    }
    sum ^ numbers[k]
}

// The exclusive or of numbers.
fn fold_numbers(numbers: &[u64], out: u8, n: usize) -> u64
    requires { n ≤ length numbers.now }
    ensures { result ≡ xor_all (map (λ k. get_or numbers.now k 0) (kept out n)) }
{
    let mut sum = 0;
    for k in 0..n {
        sum = add_number(numbers, out, k, sum);
    }
    sum
}

// One part more, unless it is left out.
fn add_part(src: &[u8], at: &[usize], out: u8, k: usize, block: &mut [u8])
    requires k_in_bounds { k < length at.now }
    requires block_in_bounds { is_in out k ≡ false → get_or at.now k 0 + length block.old ≤ length src.now }
    ensures { block.new ≡ cond (is_in out k) block.old
        (xors block.old (part (get_or at.now k 0) (length block.old) src.now)) }
{
    if bits_masks::has_drive(out, k) {
        return;
    }
    let a = at[k];
    let e = a + block.len();
    disk_blocks::xor_into(block, &src[a..e]);
}

// The exclusive or of parts of a buffer, by their offsets, each of b bytes.
fn fold_parts(src: &[u8], at: &[usize], out: u8, n: usize, b: usize, block: &mut [u8])
    requires n_in_bounds { (n ≤ length at.now) × (length block.old ≡ b) }
    requires parts_within { PartsWithin out n at.now b (length src.now) }
    ensures { block.new ≡ parity b (parts_of src.now at.now b (kept out n)) }
{
    disk_blocks::clear(block);
    for k in 0..n {
        add_part(src, at, out, k, block);
    }
}

// ---- encode: parity k from the data, by position

// 01, What a zone holds: the parity block of the data at these offsets.
pub fn encode_block(p: Params, src: &[u8], at: &[usize], k: usize, block: &mut [u8])
    requires p_value { in_range p ≡ true }
    requires at_len { (length at.now ≡ 8) × (length block.old ≡ p.B) }
    requires parts_within { PartsWithin 0 (data_count p) at.now p.B (length src.now) }
    ensures { block.new ≡ encode_block p.B k (parts_of src.now at.now p.B (below (data_count p))) }
{
    fold_parts(src, at, 0, disk_shape::data_count(p), p.B, block);
}

// 01, What a zone holds: the parity's record of the first n positions.
pub fn encode_record(n: usize, addresses: &[u64], stamps: &[u64], k: usize, stripe: u32) -> Record
    requires { (n ≤ length addresses.now) × (n ≤ length stamps.now) }
    ensures { rec_val result ≡ encode_rec k stripe (map (λ i. mk_rec (get_or addresses.now i 0) (get_or stamps.now i 0) stripe) (below n)) }
{
    Record {
        address: Address(fold_numbers(addresses, 0, n)),
        stamp: Stamp(fold_numbers(stamps, 0, n)),
        stripe,
    }
}

// ---- decode: what a missing drive has of a stripe, from what the present drives have, by drive

// 01, Read and Rebuild: its block.
pub fn decode_block(
    p: Params,
    src: &[u8],
    at: &[usize],
    gone: u8,
    stripe: usize,
    drive: usize,
    block: &mut [u8],
)
    requires p_value { in_range p ≡ true }
    requires at_len { (length at.now ≡ 8) × (length block.old ≡ p.B) × (drive < p.N) }
    requires parts_within { PartsWithin gone p.N at.now p.B (length src.now) }
    ensures { block.new ≡ decode_block p gone stripe drive (λ e. part (get_or at.now e 0) p.B src.now) }
{
    fold_parts(src, at, gone, p.N, p.B, block);
}

// 01, Restart, 3: its record.
pub fn decode_record(
    p: Params,
    addresses: &[u64],
    stamps: &[u64],
    gone: u8,
    stripe: u32,
    drive: usize,
) -> Record
    requires p_value { in_range p ≡ true }
    requires addresses_len { (length addresses.now ≡ 8) × (length stamps.now ≡ 8) × (drive < p.N) }
    ensures { rec_val result ≡ decode_rec p gone stripe drive (λ e. mk_rec (get_or addresses.now e 0) (get_or stamps.now e 0) stripe) }
{
    Record {
        address: Address(fold_numbers(addresses, gone, p.N)),
        stamp: Stamp(fold_numbers(stamps, gone, p.N)),
        stripe,
    }
}

// ---- encode inside the in-flight buffer, where the data and their parity lie: two parts of one buffer are not lent at once, so this fold goes by index

// Byte offset of a data position's block in its eighth.
fn data_byte(p: Params, slot: usize, stripe: usize, position: usize) -> usize
    requires p_value { in_range p ≡ true }
    requires slot_bound { (slot < 8) × (position < data_count p) }
    ensures { (result ≡ slot_byte p slot (data_drive p stripe position)) × (result + p.B ≤ inflight_len p) }
{
    disk_shape::slot_byte(p, slot, disk_shape::data_drive(p, stripe, position))
}

// Exclusive-ors the data blocks of an eighth, the first apart, into the parity's place, where the first stands.
fn add_data(p: Params, inflight: &mut [u8], slot: usize, stripe: usize)
    requires p_value { in_range p ≡ true }
    requires slot_bound { (slot < 8) × (length inflight.old ≡ inflight_len p) × (part (slot_byte p slot (parity_drive p stripe)) p.B inflight.old ≡ data_parity p inflight.old slot stripe 1) }
    ensures { inflight.new ≡ set_slot_parity p inflight.old slot stripe }
{
    let n = disk_shape::data_count(p);
    let b = p.B;
    let at = disk_shape::slot_byte(p, slot, disk_shape::parity_drive(p, stripe));
    for k in 1..n {
        let next = data_byte(p, slot, stripe, k);
        disk_blocks::xor_within(inflight, at, next, b);
    }
}

// 01, Write: parity is worked out in the stripe's eighth when the last data block is in.
pub fn slot_parity(p: Params, inflight: &mut [u8], slot: usize, stripe: usize)
    requires p_value { in_range p ≡ true }
    requires slot_bound { (slot < 8) × (length inflight.old ≡ inflight_len p) }
    ensures { inflight.new ≡ set_slot_parity p inflight.old slot stripe }
{
    let b = p.B;
    let at = disk_shape::slot_byte(p, slot, disk_shape::parity_drive(p, stripe));
    let first = data_byte(p, slot, stripe, 0);
    disk_blocks::copy_within(inflight, at, first, b);
    add_data(p, inflight, slot, stripe);
}
