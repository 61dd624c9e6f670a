// Headers and records, to and from bytes (01, What a zone holds).
#![tactic(auto)]

ghost use Rattle.std.specs.Prelude.{◌≡◌, true, ◌++◌, map, ◌+◌, ◌≤◌, ◌<◌, length};
ghost use Rattle.spec.specs.Bytes.{field, bytes_of, splice};
ghost use Rattle.spec.specs.Drives.{chunk_of, zones_in, zero_spare};
ghost use Rattle.spec.specs.Faults.{same_chunk};
ghost use Rattle.spec.specs.Layout.{header_len, header_block, header_serial, header_copied, header_zone, record_bytes, record_of_of};
ghost use Rattle.spec.specs.Lists.{total, zipped};
ghost use Rattle.spec.specs.Params.{in_range, spare_len, unit_len};
ghost use Rattle.disk_records.specs.Record.{rec_val};
ghost use Rattle.spec.specs.declared.Seg.{Seg};

use spec::{Address, Params, Seg, Serial, Stamp};

// 01, What a zone holds: the record of a data block.
#[derive(Clone, Copy)]
pub struct Record {
    pub address: Address,
    pub stamp: Stamp,
    pub stripe: u32,
}

// 01, What a zone holds; 02, item 4: the widths of a header's fields before the zones and behind them; where the zones begin, and how many bytes are not zones.
const HEAD: [usize; 7] = [2, 1, 1, 1, 2, 2, 4];

const TAIL: [usize; 3] = [8, 8, 8];

const ZONES_AT: usize = 2 + 1 + 1 + 1 + 2 + 2 + 4;

const SERIAL_AT: usize = ZONES_AT + 8;

const COPIED_AT: usize = SERIAL_AT + 8;

const HEADER: usize = COPIED_AT + 8;

const VERSION: u64 = 2;

// A small block with its spare.
const SMALL: usize = 256 + disk_shape::SPARE;

// The numbers in fields of these widths, one after the other from an index.
fn write_fields(dst: &mut [u8], from: usize, widths: &[usize], values: &[u64])
    requires { (length values.now ≡ length widths.now) × (from + total widths.now ≤ length dst.old) }
    ensures { dst.new ≡ splice dst.old from (bytes_of (zipped field widths.now values.now)) }
{
    let mut at = from;
    for i in 0..widths.len() {
        bits_be::write_be(dst, at, widths[i], values[i]);
        at += widths[i];
    }
}

// 02, item 4: the zones of a segment, by drive, in their place in the header.
fn write_zones(dst: &mut [u8], p: Params, segment: Seg)
    requires { (in_range p ≡ true) × (header_len p ≤ length dst.old) }
    ensures { dst.new ≡ splice dst.old 13 (bytes_of (map (field 4) (zones_in p segment))) }
{
    let zones = segment.zones;
    for d in 0..p.N {
        bits_be::write_be32(dst, ZONES_AT + 4 * d, zones[d]);
    }
}

// The header block with its spare, in the part of the image that holds both.
pub fn write_header(
    dst: &mut [u8],
    p: Params,
    drive: usize,
    segment: Seg,
    serial: Serial,
    copied: Serial,
)
    requires { (in_range p ≡ true) × (length dst.old ≡ unit_len p) × (drive < p.N) }
    ensures { dst.new ≡ header_block p drive (zones_in p segment) serial.0 copied.0 ++ zero_spare }
{
    let head = [
        (HEADER + 4 * p.N) as u64,
        VERSION,
        p.N as u64,
        drive as u64,
        p.B as u64,
        p.G as u64,
        p.S as u64,
    ];
    let tail = [p.L as u64, serial.0, copied.0];
    disk_blocks::clear(dst);
    write_fields(dst, 0, &HEAD, &head);
    write_zones(dst, p, segment);
    write_fields(dst, ZONES_AT + 4 * p.N, &TAIL, &tail);
}

// Whether a block with its spare is that header; scratch is room for the header.
fn matches_header(
    src: &[u8],
    scratch: &mut [u8],
    p: Params,
    drive: usize,
    segment: Seg,
    serial: Serial,
    copied: Serial,
) -> bool
    requires { (in_range p ≡ true) × (length src.now ≡ unit_len p) × (unit_len p ≤ length scratch.old) × (drive < p.N) }
    ensures { result ≡ same_chunk (chunk_of p src.now) (header_block p drive (zones_in p segment) serial.0 copied.0) zero_spare }
{
    let n = disk_shape::unit_len(p);
    write_header(&mut scratch[..n], p, drive, segment, serial, copied);
    disk_blocks::same(src, &scratch[..n])
}

// The same with room of its own, which is cleared: no more than the blocks ask for.
fn is_header_within<const ROOM: usize>(
    src: &[u8],
    p: Params,
    drive: usize,
    segment: Seg,
    serial: Serial,
    copied: Serial,
) -> bool
    requires { (in_range p ≡ true) × (length src.now ≡ unit_len p) × (unit_len p ≤ ROOM) × (ROOM ≤ 4116) × (drive < p.N) }
    ensures { result ≡ same_chunk (chunk_of p src.now) (header_block p drive (zones_in p segment) serial.0 copied.0) zero_spare }
{
    let mut scratch = [0u8; ROOM];
    matches_header(src, &mut scratch, p, drive, segment, serial, copied)
}

// Whether a block with its spare is that header.
pub fn is_header(
    src: &[u8],
    p: Params,
    drive: usize,
    segment: Seg,
    serial: Serial,
    copied: Serial,
) -> bool
    requires { (in_range p ≡ true) × (length src.now ≡ unit_len p) × (drive < p.N) }
    ensures { result ≡ same_chunk (chunk_of p src.now) (header_block p drive (zones_in p segment) serial.0 copied.0) zero_spare }
{
    if p.B <= 256 {
        return is_header_within::<SMALL>(src, p, drive, segment, serial, copied);
    }
    is_header_within::<{ disk_shape::UNIT }>(src, p, drive, segment, serial, copied)
}

// The serials of a header block.
pub fn header_serial(p: Params, src: &[u8]) -> Serial
    requires { header_len p ≤ length src.now }
    ensures { result.0 ≡ header_serial p src.now }
{
    Serial(bits_be::read_be64(src, SERIAL_AT + 4 * p.N))
}

pub fn header_copied(p: Params, src: &[u8]) -> Serial
    requires { header_len p ≤ length src.now }
    ensures { result.0 ≡ header_copied p src.now }
{
    Serial(bits_be::read_be64(src, COPIED_AT + 4 * p.N))
}

// 02, item 4: the zone that a header block names for a drive.
pub fn header_zone(p: Params, src: &[u8], drive: usize) -> u32
    requires { (header_len p ≤ length src.now) × (drive < p.N) }
    ensures { result ≡ header_zone p src.now drive }
{
    bits_be::read_be32(src, ZONES_AT + 4 * drive)
}

// The record in a spare.
pub fn read_record(src: &[u8]) -> Record
    requires { spare_len ≤ length src.now }
    ensures { rec_val result ≡ record_of_of src.now }
{
    let address = Address(bits_be::read_be64(src, disk_shape::ADDRESS_AT));
    let stamp = Stamp(bits_be::read_be64(src, disk_shape::STAMP_AT));
    let stripe = bits_be::read_be32(src, disk_shape::STRIPE_AT);
    Record {
        address,
        stamp,
        stripe,
    }
}

// A spare with the record.
pub fn write_record(dst: &mut [u8], r: Record)
    requires { length dst.old ≡ spare_len }
    ensures { dst.new ≡ record_bytes (rec_val r) }
{
    bits_be::write_be64(dst, disk_shape::ADDRESS_AT, r.address.0);
    bits_be::write_be64(dst, disk_shape::STAMP_AT, r.stamp.0);
    bits_be::write_be32(dst, disk_shape::STRIPE_AT, r.stripe);
}
