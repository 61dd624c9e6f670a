// Sizes, places and offsets from the parameters (01, The array; What a zone holds).
#![tactic(auto)]

ghost use Rattle.std.specs.Prelude.{◌≡◌, true, ◌+◌, ◌*◌, ◌≤◌, ◌<◌};
ghost use Rattle.spec.specs.Lists.{is_member_of};
ghost use Rattle.spec.specs.Params.{between, block_sizes, in_range, parity_count, data_count, most_with, spare_len, per_footer, footers, capacity, unit_len, image_len, pointers_len};
ghost use Rattle.spec.specs.Params.{offline_len, addresses_len, compact_len, inflight_len, place_of, place_block, place_zone, place_drive, place_byte};
ghost use Rattle.spec.specs.Layout.{parity_drive, data_drive, data_position, is_data, group, compact_entry};
ghost use Rattle.spec.specs.Drives.{pointer_byte, zone_on};
ghost use Rattle.spec.specs.Memory.{compact_at, slot_byte};

use spec::{Params, Place, Seg};

// 01, What a zone holds: where the fields of a record begin, and its length and so a spare's. Headers are laid out in disk_records.
pub const ADDRESS_AT: usize = 0;

pub const STAMP_AT: usize = ADDRESS_AT + 8;

pub const STRIPE_AT: usize = STAMP_AT + 8;

pub const SPARE: usize = STRIPE_AT + 4;

// The longest block with its spare.
pub const UNIT: usize = 4096 + SPARE;

// From lo to hi. `&` has no branch, so the proof has one path.
#[tactic(auto, unfolding(spec::specs::Params::between))]
fn is_between(lo: usize, hi: usize, n: usize) -> bool
    ensures { result ≡ between lo hi n }
{
    (lo <= n) & (n <= hi)
}

// A power of two from 128 to 4,096.
#[tactic(auto, unfolding(spec::specs::Lists::is_member_of, spec::specs::Lists::any, spec::specs::Params::block_sizes))]
fn is_block_size(b: usize) -> bool
    ensures { result ≡ is_member_of b block_sizes }
{
    matches!(b, 128 | 256 | 512 | 1024 | 2048 | 4096)
}

// 01, The array: the ranges (refusal 1), of any numbers.
pub fn in_range(p: Params) -> bool
    ensures { result ≡ in_range p }
{
    let shaped = is_between(3, 8, p.N)
        & is_block_size(p.B)
        & is_between(4, 1024, p.Z)
        & is_between(1, 65535, p.S)
        & is_between(1, 256, p.G);
    if !shaped {
        return false;
    }
    is_between(1, (p.Z - 3) * p.S * (p.N - parity_count(p)), p.L)
}

// Parities of a stripe; today one (02, item 5).
pub fn parity_count(p: Params) -> usize
    ensures { (result ≡ parity_count p) × (1 ≤ result) × (result ≤ 2) }
{
    1
}

// Data positions of a stripe.
pub fn data_count(p: Params) -> usize
    requires { in_range p ≡ true }
    ensures { (result ≡ data_count p) × (2 ≤ result) × (result ≤ 7) }
{
    p.N - parity_count(p)
}

// 01, The array: the greatest L of drives with so many zones.
pub fn most_with(p: Params, zones: usize) -> usize
    requires p_value { in_range p ≡ true }
    requires zones_le_z { zones ≤ p.Z }
    ensures { (result ≡ most_with p zones) × (result ≤ 468378645) }
{
    zones.saturating_sub(3) * p.S * data_count(p)
}

// Records of a footer block.
pub fn per_footer(p: Params) -> usize
    requires { in_range p ≡ true }
    ensures { (result ≡ per_footer p) × (3 ≤ result) × (result ≤ 204) }
{
    p.B / SPARE
}

// Footer blocks of a zone.
pub fn footers(p: Params) -> usize
    requires { in_range p ≡ true }
    ensures { (result ≡ footers p) × (1 ≤ result) × (result ≤ 21845) }
{
    let n = per_footer(p);
    (p.S + n - 1) / n
}

// Blocks of a zone.
pub fn capacity(p: Params) -> usize
    requires { in_range p ≡ true }
    ensures { (result ≡ capacity p) × (3 ≤ result) × (result ≤ 87381) }
{
    1 + p.S + footers(p)
}

// Bytes of a block with its spare.
pub fn unit_len(p: Params) -> usize
    requires { in_range p ≡ true }
    ensures { (result ≡ unit_len p) × (128 + spare_len ≤ result) × (result ≤ 4096 + spare_len) }
{
    p.B + SPARE
}

// 01, The array: the lengths of the lent buffers (refusal 2).
pub fn image_len(p: Params) -> usize
    requires { in_range p ≡ true }
    ensures { (result ≡ image_len p) × (result ≤ 2946336325632) }
{
    p.N * (p.Z * (capacity(p) * unit_len(p)))
}

pub fn pointers_len(p: Params) -> usize
    requires { in_range p ≡ true }
    ensures { (result ≡ pointers_len p) × (result ≤ 32768) }
{
    4 * (p.N * p.Z)
}

// 02, item 4: the list of offline zones.
pub fn offline_len(p: Params) -> usize
    requires { in_range p ≡ true }
    ensures { (result ≡ offline_len p) × (result ≤ 8192) }
{
    p.N * p.Z
}

pub fn addresses_len(p: Params) -> usize
    requires { in_range p ≡ true }
    ensures { (result ≡ addresses_len p) × (result ≤ 1873514580) }
{
    4 * p.L
}

pub fn compact_len(p: Params) -> usize
    requires { in_range p ≡ true }
    ensures { (result ≡ compact_len p) × (result ≤ 536862720) }
{
    p.N * p.Z * p.S
}

pub fn inflight_len(p: Params) -> usize
    requires { in_range p ≡ true }
    ensures { (result ≡ inflight_len p) × (result ≤ 262144) }
{
    8 * p.N * p.B
}

// The place of a block.
pub fn place_of(p: Params, drive: usize, zone: usize, block: usize) -> Place
    requires p_value { in_range p ≡ true }
    requires drive_lt_n { (drive < p.N) × (zone < p.Z) × (block < capacity p) }
    ensures { (result.0 ≡ place_of p drive zone block) × (result.0 < 715825152) }
{
    let c = capacity(p);
    let at = (drive * p.Z + zone) * c + block;
    Place(at as u32)
}

// And back: its block, zone and drive.
pub fn place_block(p: Params, place: Place) -> usize
    requires { in_range p ≡ true }
    ensures { (result ≡ place_block p place.0) × (result < capacity p) × (result < 87381) }
{
    let c = capacity(p);
    (place.0 as usize) % c
}

pub fn place_zone(p: Params, place: Place) -> usize
    requires { in_range p ≡ true }
    ensures { (result ≡ place_zone p place.0) × (result < p.Z) }
{
    let c = capacity(p);
    (place.0 as usize) / c % p.Z
}

pub fn place_drive(p: Params, place: Place) -> usize
    requires { in_range p ≡ true }
    ensures { (result ≡ place_drive p place.0) × (result < 4294967296) }
{
    let c = capacity(p);
    (place.0 as usize) / c / p.Z
}

// Byte offset of a place.
pub fn place_byte(p: Params, place: Place) -> usize
    requires { in_range p ≡ true }
    ensures { (result ≡ place_byte p place.0) × (result < 17678085390336) }
{
    (place.0 as usize) * unit_len(p)
}

// Byte offset of a block.
pub fn block_byte(p: Params, drive: usize, zone: usize, block: usize) -> usize
    requires p_value { in_range p ≡ true }
    requires drive_lt_n { (drive < p.N) × (zone < p.Z) × (block < capacity p) }
    ensures { (result ≡ place_byte p (place_of p drive zone block)) × (result + unit_len p ≤ image_len p) × (result ≤ 2946336325632) }
{
    place_byte(p, place_of(p, drive, zone, block))
}

// The drive of a stripe's parity.
pub fn parity_drive(p: Params, stripe: usize) -> usize
    requires { in_range p ≡ true }
    ensures { (result ≡ parity_drive p stripe) × (result < p.N) }
{
    p.N - 1 - stripe % p.N
}

// The drive of a data position, and back.
pub fn data_drive(p: Params, stripe: usize, position: usize) -> usize
    requires p_value { in_range p ≡ true }
    requires position_bound { position < data_count p }
    ensures { (result ≡ data_drive p stripe position) × (result < p.N) }
{
    if position < parity_drive(p, stripe) {
        return position;
    }
    position + 1
}

pub fn data_position(p: Params, stripe: usize, drive: usize) -> usize
    requires { in_range p ≡ true }
    ensures { (result ≡ data_position p stripe drive) × (result ≤ drive) }
{
    if drive < parity_drive(p, stripe) {
        return drive;
    }
    drive.saturating_sub(1)
}

// Whether the drive has data of the stripe.
pub fn is_data(p: Params, stripe: usize, drive: usize) -> bool
    requires { in_range p ≡ true }
    ensures { result ≡ is_data p stripe drive }
{
    drive != parity_drive(p, stripe)
}

// The group of a stripe or of a data offset.
pub fn group(p: Params, stripe: usize) -> usize
    requires { in_range p ≡ true }
    ensures { (result ≡ group p stripe) × (result ≤ stripe) }
{
    stripe / p.G
}

// What the compact table holds of a stripe.
pub fn compact_entry(p: Params, stripe: usize) -> u8
    requires { in_range p ≡ true }
    ensures { result ≡ compact_entry p stripe }
{
    (stripe % p.G) as u8
}

// Byte offset of a zone's write pointer.
pub fn pointer_byte(p: Params, drive: usize, zone: usize) -> usize
    requires p_value { in_range p ≡ true }
    requires drive_lt_n { (drive < p.N) × (zone < p.Z) }
    ensures { (result ≡ pointer_byte p drive zone) × (result + 4 ≤ pointers_len p) × (result < 32768) }
{
    4 * (drive * p.Z + zone)
}

// 02, item 4: index of a zone in the list of offline zones.
pub fn offline_at(p: Params, drive: usize, zone: usize) -> usize
    requires p_value { in_range p ≡ true }
    requires drive_lt_n { (drive < p.N) × (zone < p.Z) }
    ensures { (result ≡ drive * p.Z + zone) × (result < offline_len p) × (result < 8192) }
{
    drive * p.Z + zone
}

// Index in the compact table.
pub fn compact_at(p: Params, drive: usize, zone: usize, offset: usize) -> usize
    requires p_value { in_range p ≡ true }
    requires drive_lt_n { (drive < p.N) × (zone < p.Z) × (offset < p.S) }
    ensures { (result ≡ compact_at p drive zone offset) × (result < compact_len p) × (result < 536862720) }
{
    (drive * p.Z + zone) * p.S + offset
}

// Byte offset in the in-flight buffer: an eighth, then by drive.
pub fn slot_byte(p: Params, slot: usize, drive: usize) -> usize
    requires p_value { in_range p ≡ true }
    requires slot_bound { (slot < 8) × (drive < p.N) }
    ensures { (result ≡ slot_byte p slot drive) × (result + p.B ≤ inflight_len p) × (result < 262144) }
{
    (slot * p.N + drive) * p.B
}

// The zone of a segment on a drive.
pub fn zone_on(p: Params, segment: Seg, drive: usize) -> usize
    requires p_value { in_range p ≡ true }
    requires drive_lt_n { drive < p.N }
    ensures { result ≡ zone_on segment drive }
{
    let zones = segment.zones;
    zones[drive] as usize
}
