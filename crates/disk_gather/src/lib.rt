// Segments gathered by serial from the headers of used zones, and whose a zone is (02, item 4; 01, Restart, 1 and 2).
#![tactic(auto)]

ghost use Rattle.disk_drives.specs.Viewed.{viewed};
ghost use Rattle.std.specs.Prelude.{◌≡◌, true, false, cond, not, ◌&&◌, ◌||◌, List, ℕ, ◌+◌, ◌*◌, ◌≤◌, ◌<◌, leb, ltb, eqb, length, get_or};
ghost use Rattle.std.specs.Int.Bits.{bit_and};
ghost use Rattle.spec.specs.Bytes.{splice, part};
ghost use Rattle.spec.specs.Drives.{View, view_of, chunk_at, zone_on, seg};
ghost use Rattle.spec.specs.Layout.{header_serial, header_copied, header_zone};
ghost use Rattle.spec.specs.Lists.{all, any, is_in};
ghost use Rattle.spec.specs.Params.{in_range, unit_len, zone_len, image_len, pointers_len, offline_len, place_of, place_byte, present};
ghost use Rattle.spec.specs.Segments.{low_drive, is_used, serial_in, bearing, lowest_bearing, zone_for, seg_for, leads};
ghost use Rattle.law_basic.specs.Segs.{ZonesLow};
ghost use Rattle.law_drives.specs.Segs.{Here};
ghost use Rattle.law_drives.specs.Tables.{seg_at, remains_at};
ghost use Rattle.disk_gather.specs.Index.{bears_at, in_bucket, Nearest, Chained, ChainedTo, Blank};
ghost use Rattle.disk_gather.specs.Flags.{left_at, other_left, Serials, LeftFlags, Keeps, FlagsRows, Repeats};
ghost use Rattle.disk_gather.specs.Owners.{row_seg, OwnersRowsLow, owner_of};
ghost use Rattle.disk_gather.specs.Values.{IndexOf, BucketsOf};

use disk_drives::Drives;
use index::{Buckets, Index};
use spec::{Params, Seg, Serial};

mod index;

// The most zones of all drives.
const ZONES: usize = 8 * 1024;

// Buckets of a drive's index, less 1: the bits of a serial that name its bucket.
const MASK: usize = 2047;

// Places of the index: to each drive its buckets and its zones.
const LINKS: usize = 8 * (2048 + 1024);

// The same of a small box: so many zones of all drives.
const FEW_ZONES: usize = 256;

const FEW_MASK: usize = 63;

const FEW_LINKS: usize = 8 * 64 + 256;

// ---- headers

// 01, Restart, 2: the lowest present drive.
pub fn low_drive(p: Params, gone: u8) -> usize
    requires { in_range p ≡ true }
    ensures { (result ≡ low_drive p gone) × (result < p.N) }
{
    (0..p.N)
        .find(|d| !bits_masks::has_drive(gone, *d))
        .unwrap_or(0)
}

// 02, item 4: whether a zone takes part: good and not empty.
pub fn is_used(p: Params, pointers: &[u8], offline: &[u8], drive: usize, zone: usize) -> bool
    requires p_value { in_range p ≡ true }
    requires pointers_len { (length pointers.now ≡ pointers_len p) × (length offline.now ≡ offline_len p) }
    requires drive_lt_n { (drive < p.N) × (zone < p.Z) }
    ensures { (im : List ℕ) → length im ≡ image_len p → result ≡ is_used p (view_of p offline.now im pointers.now) drive zone }
{
    disk_zones::is_good(p, offline, drive, zone)
        && disk_zones::pointer(p, pointers, drive, zone) != 0
}

// The header of a zone.
fn header_of<'a>(p: Params, image: &'a [u8], drive: usize, zone: usize) -> &'a [u8]
    requires p_value { in_range p ≡ true }
    requires image_len { (length image.now ≡ image_len p) × (drive < p.N) × (zone < p.Z) }
    ensures long { length result.now ≡ p.B }
    ensures block { (off : List ℕ) (ps : List ℕ)
        → length ps ≡ pointers_len p
        → result.now ≡ (chunk_at (view_of p off image.now ps) drive zone 0).block }
{
    let a = disk_shape::block_byte(p, drive, zone, 0);
    &image[a..a + p.B]
}

// The serial in a zone's header.
pub fn serial_in(p: Params, image: &[u8], drive: usize, zone: usize) -> Serial
    requires p_value { in_range p ≡ true }
    requires image_len { (length image.now ≡ image_len p) × (drive < p.N) × (zone < p.Z) }
    ensures { (off : List ℕ) (ps : List ℕ) → length ps ≡ pointers_len p → result.0 ≡ serial_in p (view_of p off image.now ps) drive zone }
{
    disk_records::header_serial(p, header_of(p, image, drive, zone))
}

// The copied serial there.
pub fn copied_in(p: Params, image: &[u8], drive: usize, zone: usize) -> Serial
    requires p_value { in_range p ≡ true }
    requires image_len { (length image.now ≡ image_len p) × (drive < p.N) × (zone < p.Z) }
    ensures { (off : List ℕ) (ps : List ℕ)
        → length ps ≡ pointers_len p
        → result.0 ≡ header_copied p (chunk_at (view_of p off image.now ps) drive zone 0).block }
{
    disk_records::header_copied(p, header_of(p, image, drive, zone))
}

// 02, item 4: the zone that the header there names for another drive.
pub fn zone_named(p: Params, image: &[u8], drive: usize, zone: usize, other: usize) -> u32
    requires p_value { in_range p ≡ true }
    requires image_len { (length image.now ≡ image_len p) × (drive < p.N) × (zone < p.Z) × (other < p.N) }
    ensures { (off : List ℕ) (ps : List ℕ)
        → length ps ≡ pointers_len p
        → result ≡ header_zone p (chunk_at (view_of p off image.now ps) drive zone 0).block other }
{
    disk_records::header_zone(p, header_of(p, image, drive, zone), other)
}

// ---- the segment of a serial

// Bytes from a zone's header to the next one's.
fn zone_len(p: Params) -> usize
    requires { in_range p ≡ true }
    ensures { (result ≡ zone_len p) × (result ≤ 359660196) }
{
    disk_shape::capacity(p) * disk_shape::unit_len(p)
}

// The serial in the header at a byte of the image.
fn serial_here(p: Params, image: &[u8], at: usize) -> Serial
    requires p_value { in_range p ≡ true }
    requires p_in_bounds { (at + unit_len p ≤ length image.now) × (at ≤ 2946336325632) }
    ensures { result.0 ≡ header_serial p (part at p.B image.now) }
{
    let e = at + p.B;
    disk_records::header_serial(p, &image[at..e])
}

// 02, item 4: whether a zone takes part and bears the serial; at: the byte of its header.
fn bears(drives: &Drives<'_>, drive: usize, zone: usize, at: usize, serial: Serial) -> bool
    requires drive_lt_n { (drive < drives.now.p.N) × (zone < drives.now.p.Z) × (at ≡ place_byte drives.now.p (place_of drives.now.p drive zone 0)) }
    ensures { result ≡ bears_at drives.now.p (viewed drives.now) drive serial.0 zone }
{
    is_used(drives.p, drives.pointers, drives.offline, drive, zone)
        && serial_here(drives.p, drives.image, at).0 == serial.0
}

// 02, item 4: the lowest zone of a drive that bears the serial; Z where none does. The loop reads a copy of the drives, which lies in registers.
pub fn lowest_bearing(drives: &Drives<'_>, drive: usize, serial: Serial) -> usize
    requires drive_lt_n { drive < drives.now.p.N }
    ensures { (result ≡ lowest_bearing drives.now.p (viewed drives.now) drive serial.0) × (result ≤ drives.now.p.Z) }
{
    let own = *drives;
    let step = zone_len(own.p);
    let mut at = disk_shape::block_byte(own.p, drive, 0, 0);
    for z in 0..own.p.Z {
        if bears(&own, drive, z, at, serial) {
            return z;
        }
        at += step;
    }
    own.p.Z
}

// 02, item 4: the zone of a segment on a drive; first: that on the lowest present drive; lowest: that on another present one.
fn zone_by<F: Fn(usize) -> usize>(
    p: Params,
    image: &[u8],
    gone: u8,
    low: usize,
    first: usize,
    drive: usize,
    lowest: &F,
) -> u32
    requires p_value { in_range p ≡ true }
    requires drive_lt_n { (length image.now ≡ image_len p)
        × (drive < p.N)
        × (low < p.N)
        × (low ≡ low_drive p gone)
        × (first < p.Z) }
    requires callable { F.pre lowest.now drive × ((n : ℕ) → F.post lowest.now drive n → n ≤ p.Z) }
    ensures { (off : List ℕ) (ps : List ℕ) (serial : ℕ)
        → length ps ≡ pointers_len p
        → first ≡ lowest_bearing p (view_of p off image.now ps) low serial
        → ((n : ℕ) → is_in gone drive ≡ false → F.post lowest.now drive n → n ≡ lowest_bearing p (view_of p off image.now ps) drive serial)
        → result ≡ zone_for p (view_of p off image.now ps) gone serial drive }
{
    if bits_masks::has_drive(gone, drive) {
        return zone_named(p, image, low, first, drive);
    }
    if drive == low {
        return first as u32;
    }
    lowest(drive) as u32
}

// 02, item 4: a segment, by its zones on the drives; first: that on the lowest present drive; lowest: that on another present one.
fn seg_by<F: Fn(usize) -> usize>(
    p: Params,
    image: &[u8],
    gone: u8,
    low: usize,
    first: usize,
    lowest: F,
) -> Seg
    requires p_value { in_range p ≡ true }
    requires low_lt_n { (length image.now ≡ image_len p) × (low < p.N) × (low ≡ low_drive p gone) × (first < p.Z) }
    requires callable { (d : ℕ) → d < p.N → F.pre lowest d × ((n : ℕ) → F.post lowest d n → n ≤ p.Z) }
    ensures { (off : List ℕ) (ps : List ℕ) (serial : ℕ)
        → length ps ≡ pointers_len p
        → first ≡ lowest_bearing p (view_of p off image.now ps) low serial
        → ((d n : ℕ) → d < p.N → is_in gone d ≡ false → F.post lowest d n → n ≡ lowest_bearing p (view_of p off image.now ps) d serial)
        → result ≡ seg_for p (view_of p off image.now ps) gone serial }
{
    let mut zones = [0u32; 8];
    for d in 0..p.N {
        zones[d] = zone_by(p, image, gone, low, first, d, &lowest);
    }
    Seg { zones }
}

// 02, item 4: the segment of a serial; first: its zone on the lowest present drive.
pub fn seg_from(drives: &Drives<'_>, gone: u8, low: usize, first: usize, serial: Serial) -> Seg
    requires low_lt_n { (low < drives.now.p.N)
        × (low ≡ low_drive drives.now.p gone)
        × (first < drives.now.p.Z)
        × (first ≡ lowest_bearing drives.now.p (viewed drives.now) low serial.0) }
    ensures { result ≡ seg_for drives.now.p (viewed drives.now) gone serial.0 }
{
    seg_by(drives.p, drives.image, gone, low, first, |d| {
        lowest_bearing(drives, d, serial)
    })
}

// 02, item 4: the segment of a serial that the lowest present drive bears.
pub fn seg_for(drives: &Drives<'_>, gone: u8, serial: Serial) -> Seg
    requires serial_bound { lowest_bearing drives.now.p (viewed drives.now) (low_drive drives.now.p gone) serial.0 < drives.now.p.Z }
    ensures { result ≡ seg_for drives.now.p (viewed drives.now) gone serial.0 }
{
    let low = low_drive(drives.p, gone);
    let first = lowest_bearing(drives, low, serial);
    seg_from(drives, gone, low, first, serial)
}

// A drive is missing, or the segment has a zone there.
fn is_on(p: Params, segment: Seg, gone: u8, drive: usize) -> bool
    requires p_value { in_range p ≡ true }
    requires drive_lt_n { drive < p.N }
    ensures { result ≡ (is_in gone drive || ltb (zone_on segment drive) p.Z) }
{
    bits_masks::has_drive(gone, drive) || disk_shape::zone_on(p, segment, drive) < p.Z
}

// 01, Restart, 1: whether the segment has a zone on every present drive.
pub fn on_all(p: Params, segment: Seg, gone: u8) -> bool
    requires { in_range p ≡ true }
    ensures { result ≡ all (λ d. ltb (zone_on segment d) p.Z) (present p gone) }
{
    (0..p.N).all(|d| is_on(p, segment, gone, d))
}

// 02, item 4: whether the zone is the lowest of its drive that bears its serial.
pub fn leads(drives: &Drives<'_>, drive: usize, zone: usize) -> bool
    requires drive_lt_n { (drive < drives.now.p.N) × (zone < drives.now.p.Z) }
    ensures { result ≡ leads drives.now.p (viewed drives.now) drive zone }
{
    is_used(drives.p, drives.pointers, drives.offline, drive, zone)
        && lowest_bearing(
            drives,
            drive,
            serial_in(drives.p, drives.image, drive, zone),
        ) == zone
}

// ---- all segments, by their zones on the lowest present drive

// A row of eight zones.
fn put_row(rows: &mut [u32], z: usize, segment: Seg)
    requires { (8 * z + 8 ≤ length rows.old) × (z < 1024) }
    ensures { rows.new ≡ splice rows.old (8 * z) segment.zones }
{
    let a = 8 * z;
    rows[a..a + 8].copy_from_slice(&segment.zones);
}

// And back.
pub fn row(rows: &[u32], z: usize) -> Seg
    requires { (8 * z + 8 ≤ length rows.now) × (z < 1024) }
    ensures { result ≡ seg (part (8 * z) 8 rows.now) }
{
    let a = 8 * z;
    let mut zones = [0u32; 8];
    zones.copy_from_slice(&rows[a..a + 8]);
    Seg { zones }
}

// The serials in the headers of the lowest present drive, by zone, as the bytes stand.
fn read_serials(p: Params, image: &[u8], gone: u8, out: &mut [u64])
    requires p_value { in_range p ≡ true }
    requires image_len { (length image.now ≡ image_len p) × (p.Z ≤ length out.old) }
    ensures { (off : List ℕ) (ps : List ℕ) → length ps ≡ pointers_len p → Serials p (view_of p off image.now ps) gone out.new }
{
    let low = low_drive(p, gone);
    let step = zone_len(p);
    let mut at = disk_shape::block_byte(p, low, 0, 0);
    for z in 0..p.Z {
        let s = serial_here(p, image, at);
        out[z] = s.0;
        at += step;
    }
}

// ---- an index of the serials, so that each header is looked at once

// The bucket of a serial.
fn bucket(serial: Serial, mask: usize) -> usize
    ensures { (result ≡ bit_and serial.0 mask) × (result ≤ mask) }
{
    (serial.0 & (mask as u64)) as usize
}

// A zone that takes part goes before the lowest of its bucket; at: the byte of its header. heads: the serials by zone. links: to each bucket its lowest zone, a
// number above all zones where it has none, and behind the buckets to each zone how far it is to the next of its bucket.
// Stays: the arrays go side by side while they are filled; a struct of two `&mut` asks each function for two clauses more, that it keeps its references.
fn chain_zone(
    drives: &Drives<'_>,
    drive: usize,
    mask: usize,
    z: usize,
    at: usize,
    heads: &mut [u64],
    links: &mut [u16],
)
    requires drive_lt_n { (drive < drives.now.p.N) × (z < drives.now.p.Z) × (at ≡ place_byte drives.now.p (place_of drives.now.p drive z 0)) × (mask ≤ 2047) }
    requires z_in_bounds { (drives.now.p.Z ≤ length heads.old)
        × (mask + 1 + drives.now.p.Z ≤ length links.old)
        × Chained drives.now.p (viewed drives.now) mask drive (z + 1) heads.old links.old }
    ensures { Chained drives.now.p (viewed drives.now) mask drive z heads.new links.new }
{
    if !is_used(drives.p, drives.pointers, drives.offline, drive, z) {
        return;
    }
    let s = serial_here(drives.p, drives.image, at);
    let b = bucket(s, mask);
    let far = usize::from(links[b]) - (z + 1);
    heads[z] = s.0;
    links[mask + 1 + z] = far as u16;
    links[b] = z as u16;
}

// From the last zone down, all of a drive. The loop reads a copy of the drives, which lies in registers.
fn chain_drive(drives: &Drives<'_>, drive: usize, mask: usize, heads: &mut [u64], links: &mut [u16])
    requires drive_lt_n { (drive < drives.now.p.N) × (mask ≤ 2047) × (drives.now.p.Z ≤ length heads.old) × (mask + 1 + drives.now.p.Z ≤ length links.old) }
    requires by_index { (b : ℕ) → b ≤ mask → 1024 ≤ get_or links.old b 0 }
    ensures { Chained drives.now.p (viewed drives.now) mask drive 0 heads.new links.new }
{
    let own = *drives;
    let step = zone_len(own.p);
    let mut at = disk_shape::block_byte(own.p, drive, own.p.Z - 1, 0) + step;
    for z in (0..own.p.Z).rev() {
        at -= step;
        chain_zone(&own, drive, mask, z, at, heads, links);
    }
}

// A drive, if it is present, at its part of the arrays of all drives.
fn chain_present(
    drives: &Drives<'_>,
    gone: u8,
    drive: usize,
    mask: usize,
    heads: &mut [u64],
    links: &mut [u16],
)
    requires drive_lt_n { (drive < drives.now.p.N) × (mask ≤ 2047) × (drives.now.p.N * drives.now.p.Z ≤ length heads.old) × (drives.now.p.N * (mask + 1 + drives.now.p.Z) ≤ length links.old) }
    requires blank { Blank drives.now.p mask drive links.old × ChainedTo drives.now.p (viewed drives.now) gone mask drive heads.old links.old }
    ensures blank_2 { Blank drives.now.p mask (drive + 1) links.new }
    ensures chained_to { ChainedTo drives.now.p (viewed drives.now) gone mask (drive + 1) heads.new links.new }
{
    if bits_masks::has_drive(gone, drive) {
        return;
    }
    let n = mask + 1 + drives.p.Z;
    let a = drive * drives.p.Z;
    let b = drive * n;
    chain_drive(
        drives,
        drive,
        mask,
        &mut heads[a..a + drives.p.Z],
        &mut links[b..b + n],
    );
}

// All present drives; the arrays' buckets are empty before.
fn index_of<'a>(
    drives: &Drives<'_>,
    gone: u8,
    mask: usize,
    heads: &'a mut [u64],
    links: &'a mut [u16],
) -> Index<'a>
    requires mask_bound { (mask ≤ 2047) × (drives.now.p.N * drives.now.p.Z ≤ length heads.old)
        × (drives.now.p.N * (mask + 1 + drives.now.p.Z) ≤ length links.old) × Blank drives.now.p mask 0 links.old }
    ensures same { (result.p ≡ drives.now.p) × (result.gone ≡ gone) }
    ensures index { IndexOf (viewed drives.now) result }
{
    for d in 0..drives.p.N {
        chain_present(drives, gone, d, mask, heads, links);
    }
    Index {
        p: drives.p,
        gone,
        low: low_drive(drives.p, gone),
        mask,
        heads,
        links,
    }
}

// Along a bucket of a drive, from a zone of it on: the lowest zone that bears the serial; Z where none does.
fn walk(part: &Buckets<'_>, from: usize, serial: Serial) -> usize
    ensures nearest { (v : View) (d i : ℕ)
        → i ≤ part.now.p.Z
        → BucketsOf v d part.now
        → Nearest (in_bucket part.now.p v part.now.mask d (bit_and serial.0 part.now.mask)) part.now.p.Z i from
        → Nearest (bears_at part.now.p v d serial.0) part.now.p.Z i result }
    ensures upper_bound { result ≤ part.now.p.Z }
{
    let zones = part.p.Z;
    let mut z = from;
    // Stays: the links give the steps, so no range of the library goes by them; and Z says none, as in `lowest_bearing` of `spec`.
    while z < zones {
        if part.heads[z] == serial.0 {
            return z;
        }
        z = z + 1 + usize::from(part.links[part.mask + 1 + z]);
    }
    zones
}

// By a drive's index, the lowest zone that bears the serial; Z where none does.
fn lowest_in(part: &Buckets<'_>, serial: Serial) -> usize
    ensures nearest { (v : View) (d : ℕ) → BucketsOf v d part.now → Nearest (bears_at part.now.p v d serial.0) part.now.p.Z 0 result }
    ensures upper_bound { result ≤ part.now.p.Z }
{
    let b = bucket(serial, part.mask);
    walk(part, usize::from(part.links[b]), serial)
}

// By a drive's index, whether it bears the serial twice.
fn is_twice(part: &Buckets<'_>, serial: Serial) -> bool
    ensures { (v : View) (d : ℕ) → BucketsOf v d part.now → result ≡ leb 2 (length (bearing part.now.p v d serial.0)) }
{
    let z = lowest_in(part, serial);
    if part.p.Z <= z {
        return false;
    }
    let next = z + 1 + usize::from(part.links[part.mask + 1 + z]);
    walk(part, next, serial) < part.p.Z
}

// The index of one drive.
fn buckets_of<'a>(index: &Index<'a>, drive: usize) -> Buckets<'a>
    requires { drive < index.now.p.N }
    ensures same { (result.p ≡ index.now.p) × (result.mask ≡ index.now.mask) }
    ensures buckets { (v : View) → IndexOf v index.now → is_in index.now.gone drive ≡ false → BucketsOf v drive result }
{
    let n = index.mask + 1 + index.p.Z;
    let a = drive * index.p.Z;
    let b = drive * n;
    Buckets {
        p: index.p,
        mask: index.mask,
        heads: &index.heads[a..a + index.p.Z],
        links: &index.links[b..b + n],
    }
}

// By the index of all drives, the lowest zone of a present drive that bears the serial; Z where none does.
fn lowest_on(index: &Index<'_>, drive: usize, serial: Serial) -> usize
    requires { drive < index.now.p.N }
    ensures value { (v : View)
        → is_in index.now.gone drive ≡ false
        → IndexOf v index.now
        → result ≡ lowest_bearing index.now.p v drive serial.0 }
    ensures upper_bound { result ≤ index.now.p.Z }
{
    lowest_in(&buckets_of(index, drive), serial)
}

// By the index of all drives, whether a drive is present and bears the serial twice.
fn twice_on(index: &Index<'_>, drive: usize, serial: Serial) -> bool
    requires { drive < index.now.p.N }
    ensures { (v : View)
        → IndexOf v index.now
        → result ≡ (not (is_in index.now.gone drive) && leb 2 (length (bearing index.now.p v drive serial.0))) }
{
    !bits_masks::has_drive(index.gone, drive) && is_twice(&buckets_of(index, drive), serial)
}

// By the index of all drives, whether some present drive bears the serial twice.
fn is_repeated(index: &Index<'_>, serial: Serial) -> bool
    ensures { (v : View)
        → IndexOf v index.now
        → result ≡ any (λ d. leb 2 (length (bearing index.now.p v d serial.0))) (present index.now.p index.now.gone) }
{
    (0..index.p.N).any(|d| twice_on(index, d, serial))
}

// 01, Restart, 1: whether the segment that leads at a zone of the lowest present drive is left; its zones go to its row. serial: that of the zone.
fn gather_zone(index: &Index<'_>, image: &[u8], z: usize, serial: Serial, rows: &mut [u32]) -> bool
    requires image_len { length image.now ≡ image_len index.now.p }
    requires here { Here index.now.p index.now.gone × (z < index.now.p.Z) × (8 * index.now.p.Z ≤ length rows.old) }
    ensures by_index { (off : List ℕ) (ps : List ℕ)
        → length ps ≡ pointers_len index.now.p
        → IndexOf (view_of index.now.p off image.now ps) index.now
        → serial.0 ≡ serial_in index.now.p (view_of index.now.p off image.now ps) (low_drive index.now.p index.now.gone) z
        → result ≡ left_at index.now.p (view_of index.now.p off image.now ps) index.now.gone z }
    ensures by_index_2 { (off : List ℕ) (ps : List ℕ)
        → length ps ≡ pointers_len index.now.p
        → IndexOf (view_of index.now.p off image.now ps) index.now
        → serial.0 ≡ serial_in index.now.p (view_of index.now.p off image.now ps) (low_drive index.now.p index.now.gone) z
        → rows.new
        ≡ cond (leads index.now.p (view_of index.now.p off image.now ps) (low_drive index.now.p index.now.gone) z)
        (splice rows.old (8 * z) (seg_at index.now.p (view_of index.now.p off image.now ps) index.now.gone z).zones) rows.old }
{
    if lowest_on(index, index.low, serial) != z {
        return false;
    }
    let segment = seg_by(index.p, image, index.gone, index.low, z, |d| {
        lowest_on(index, d, serial)
    });
    put_row(rows, z, segment);
    on_all(index.p, segment, index.gone)
}

// 01, Restart, 1: which segments are left, and the rows of those that lead. The loop reads a copy of the index, as in the loops below.
fn gather_left(
    index: &Index<'_>,
    image: &[u8],
    serials: &[u64],
    rows: &mut [u32],
    left: &mut [bool],
)
    requires image_len { length image.now ≡ image_len index.now.p }
    requires here { Here index.now.p index.now.gone
        × (index.now.p.Z ≤ length serials.now)
        × (8 * index.now.p.Z ≤ length rows.old)
        × (index.now.p.Z ≤ length left.old) }
    ensures by_index { (off : List ℕ) (ps : List ℕ)
        → length ps ≡ pointers_len index.now.p
        → IndexOf (view_of index.now.p off image.now ps) index.now
        → Serials index.now.p (view_of index.now.p off image.now ps) index.now.gone serials.now
        → FlagsRows index.now.p (view_of index.now.p off image.now ps) index.now.gone rows.new }
    ensures by_index_2 { (off : List ℕ) (ps : List ℕ)
        → length ps ≡ pointers_len index.now.p
        → IndexOf (view_of index.now.p off image.now ps) index.now
        → Serials index.now.p (view_of index.now.p off image.now ps) index.now.gone serials.now
        → LeftFlags index.now.p (view_of index.now.p off image.now ps) index.now.gone left.new }
{
    let own = *index;
    for z in 0..own.p.Z {
        left[z] = gather_zone(&own, image, z, Serial(serials[z]), rows);
    }
}

// 01, Restart, 2: another zone than z is the lowest of the lowest present drive that bears serial c, and flagged.
fn is_other_left(index: &Index<'_>, flags: &[bool], z: usize, c: Serial) -> bool
    requires { index.now.p.Z ≤ length flags.now }
    ensures { (v : View)
        → is_in index.now.gone index.now.low ≡ false
        → IndexOf v index.now
        → result ≡ other_left index.now.p v index.now.low flags.now z c.0 }
{
    let h = lowest_on(index, index.low, c);
    // Stays: in one `&&` of three tests the inner two have no name that a proof can cite.
    if index.p.Z <= h {
        return false;
    }
    if h == z {
        return false;
    }
    flags[h]
}

// 01, Restart, 1 and 2: the segment that leads at a zone is left by 1, and no copy of another.
fn is_kept(index: &Index<'_>, image: &[u8], flags: &[bool], z: usize) -> bool
    requires { (length image.now ≡ image_len index.now.p) × (z < index.now.p.Z) × (index.now.p.Z ≤ length flags.now) }
    ensures { (off : List ℕ) (ps : List ℕ)
        → length ps ≡ pointers_len index.now.p
        → Here index.now.p index.now.gone
        → IndexOf (view_of index.now.p off image.now ps) index.now
        → LeftFlags index.now.p (view_of index.now.p off image.now ps) index.now.gone flags.now
        → result ≡ remains_at index.now.p (view_of index.now.p off image.now ps) index.now.gone z }
{
    if !flags[z] {
        return false;
    }
    let c = copied_in(index.p, image, index.low, z);
    if c.0 == 0 {
        return true;
    }
    !is_other_left(index, flags, z, c)
}

// 01, Restart, 1 and 2: which segments remain; flags say which are left by 1.
fn keep_flags(index: &Index<'_>, image: &[u8], flags: &[bool], out: &mut [bool])
    requires image_len { length image.now ≡ image_len index.now.p }
    requires z_in_bounds { (index.now.p.Z ≤ length flags.now) × (index.now.p.Z ≤ length out.old) }
    ensures { (off : List ℕ) (ps : List ℕ)
        → length ps ≡ pointers_len index.now.p
        → Here index.now.p index.now.gone
        → IndexOf (view_of index.now.p off image.now ps) index.now
        → LeftFlags index.now.p (view_of index.now.p off image.now ps) index.now.gone flags.now
        → Keeps index.now.p (view_of index.now.p off image.now ps) index.now.gone out.new }
{
    let own = *index;
    for z in 0..own.p.Z {
        out[z] = is_kept(&own, image, flags, z);
    }
}

// With arrays for so many zones of all drives and so many places of the index.
fn gather_in<const ZONES: usize, const LINKS: usize>(
    drives: &Drives<'_>,
    gone: u8,
    mask: usize,
    rows: &mut [u32],
    serials: &mut [u64],
    left: &mut [bool],
    kept: &mut [bool],
)
    requires here { Here drives.now.p gone }
    requires room { (mask ≤ 2047) × (drives.now.p.N * drives.now.p.Z ≤ ZONES) × (drives.now.p.N * (mask + 1 + drives.now.p.Z) ≤ LINKS) × (ZONES ≤ 8192) × (LINKS ≤ 24576) }
    requires z_in_bounds { (8 * drives.now.p.Z ≤ length rows.old) × (drives.now.p.Z ≤ length serials.old) × (drives.now.p.Z ≤ length left.old) × (drives.now.p.Z ≤ length kept.old) }
    ensures serials { Serials drives.now.p (viewed drives.now) gone serials.new }
    ensures flags_rows { FlagsRows drives.now.p (viewed drives.now) gone rows.new }
    ensures left_flags { LeftFlags drives.now.p (viewed drives.now) gone left.new }
    ensures keeps { Keeps drives.now.p (viewed drives.now) gone kept.new }
{
    let mut heads = [0u64; ZONES];
    let mut links = [65535u16; LINKS];
    let index = index_of(drives, gone, mask, &mut heads, &mut links);
    read_serials(drives.p, drives.image, gone, serials);
    gather_left(&index, drives.image, serials, rows, left);
    keep_flags(&index, drives.image, left, kept);
}

// 01, Restart, 1 and 2; 02, item 4: for each zone of the lowest present drive: its serial; whether a segment leads there that is left by 1, and
// whether it remains; and where one leads, its zones. An array is as long as the caller's box needs. A small box has small arrays to clear.
pub fn gather(
    drives: &Drives<'_>,
    gone: u8,
    rows: &mut [u32],
    serials: &mut [u64],
    left: &mut [bool],
    kept: &mut [bool],
)
    requires here { Here drives.now.p gone }
    requires z_in_bounds { (8 * drives.now.p.Z ≤ length rows.old) × (drives.now.p.Z ≤ length serials.old) × (drives.now.p.Z ≤ length left.old) × (drives.now.p.Z ≤ length kept.old) }
    ensures serials { Serials drives.now.p (viewed drives.now) gone serials.new }
    ensures flags_rows { FlagsRows drives.now.p (viewed drives.now) gone rows.new }
    ensures left_flags { LeftFlags drives.now.p (viewed drives.now) gone left.new }
    ensures keeps { Keeps drives.now.p (viewed drives.now) gone kept.new }
{
    // 3.5 kB on the stack.
    if disk_shape::offline_len(drives.p) <= FEW_ZONES {
        gather_in::<FEW_ZONES, FEW_LINKS>(drives, gone, FEW_MASK, rows, serials, left, kept);
        return;
    }
    // 112 kB.
    gather_in::<ZONES, LINKS>(drives, gone, MASK, rows, serials, left, kept);
}

// ---- serials borne twice

// By the index, for each zone of the lowest present drive whether some present drive bears its serial twice.
fn flag_repeats(index: &Index<'_>, image: &[u8], out: &mut [bool])
    requires image_len { length image.now ≡ image_len index.now.p }
    requires z_in_bounds { index.now.p.Z ≤ length out.old }
    ensures { (off : List ℕ) (ps : List ℕ)
        → length ps ≡ pointers_len index.now.p
        → IndexOf (view_of index.now.p off image.now ps) index.now
        → Repeats index.now.p (view_of index.now.p off image.now ps) index.now.gone out.new }
{
    let own = *index;
    let step = zone_len(own.p);
    let mut at = disk_shape::block_byte(own.p, own.low, 0, 0);
    for z in 0..own.p.Z {
        let s = serial_here(own.p, image, at);
        out[z] = is_repeated(&own, s);
        at += step;
    }
}

// With arrays for so many zones of all drives and so many places of the index.
fn repeats_in<const ZONES: usize, const LINKS: usize>(
    drives: &Drives<'_>,
    gone: u8,
    mask: usize,
    out: &mut [bool],
)
    requires room { (mask ≤ 2047) × (drives.now.p.N * drives.now.p.Z ≤ ZONES) × (drives.now.p.N * (mask + 1 + drives.now.p.Z) ≤ LINKS) × (ZONES ≤ 8192) × (LINKS ≤ 24576) }
    requires z_in_bounds { drives.now.p.Z ≤ length out.old }
    ensures { Repeats drives.now.p (viewed drives.now) gone out.new }
{
    let mut heads = [0u64; ZONES];
    let mut links = [65535u16; LINKS];
    let index = index_of(drives, gone, mask, &mut heads, &mut links);
    flag_repeats(&index, drives.image, out);
}

// 02, item 4: for each zone of the lowest present drive, whether some present drive bears its serial twice.
pub fn repeats(drives: &Drives<'_>, gone: u8, out: &mut [bool])
    requires here { Here drives.now.p gone }
    requires z_in_bounds { drives.now.p.Z ≤ length out.old }
    ensures { Repeats drives.now.p (viewed drives.now) gone out.new }
{
    if disk_shape::offline_len(drives.p) <= FEW_ZONES {
        repeats_in::<FEW_ZONES, FEW_LINKS>(drives, gone, FEW_MASK, out);
        return;
    }
    repeats_in::<ZONES, LINKS>(drives, gone, MASK, out);
}

// ---- whose a zone is

// The zones of a segment are those of row g.
fn own_zones(p: Params, owners: &mut [u16], segment: Seg, g: usize)
    requires p_value { in_range p ≡ true }
    requires z_in_bounds { (p.N * p.Z ≤ length owners.old) × ZonesLow p 0 segment × (g < 1024) }
    ensures { (d z : ℕ)
        → d < p.N
        → z < p.Z
        → get_or owners.new (d * p.Z + z) 0 ≡ cond (eqb z (zone_on segment d)) g (get_or owners.old (d * p.Z + z) 0) }
{
    let n = g as u16;
    for d in 0..p.N {
        let zone = disk_shape::zone_on(p, segment, d);
        let at = disk_shape::offline_at(p, d, zone);
        owners[at] = n;
    }
}

// The same of the segment in row g, if it is kept.
fn own_kept(p: Params, rows: &[u32], kept: &[bool], owners: &mut [u16], g: usize)
    requires p_value { in_range p ≡ true }
    requires z_in_bounds { (8 * p.Z ≤ length rows.now) × (p.Z ≤ length kept.now) × (p.N * p.Z ≤ length owners.old) × OwnersRowsLow p rows.now kept.now × (g < p.Z) }
    ensures { (d z : ℕ)
        → d < p.N
        → z < p.Z
        → get_or owners.new (d * p.Z + z) 0
        ≡ cond (get_or kept.now g false && eqb z (zone_on (row_seg rows.now g) d)) g (get_or owners.old (d * p.Z + z) 0) }
{
    if !kept[g] {
        return;
    }
    let segment = row(rows, g);
    own_zones(p, owners, segment, g);
}

// 02, item 4: whose each zone of all drives is: the row of the segment that has it, of those that are kept. It is 1024, none, before.
pub fn find_owners(p: Params, rows: &[u32], kept: &[bool], owners: &mut [u16])
    requires p_value { in_range p ≡ true }
    requires z_in_bounds { (8 * p.Z ≤ length rows.now) × (p.Z ≤ length kept.now) × (p.N * p.Z ≤ length owners.old) × OwnersRowsLow p rows.now kept.now }
    requires by_index { (t : ℕ) → t < p.N * p.Z → get_or owners.old t 0 ≡ 1024 }
    ensures { (d z : ℕ) → d < p.N → z < p.Z → get_or owners.new (d * p.Z + z) 0 ≡ owner_of rows.now kept.now d z p.Z }
{
    for g in 0..p.Z {
        own_kept(p, rows, kept, owners, g);
    }
}
