// Live blocks counted by their records (01, Reclaim): a data block is live where the table has its place at the address of its record. Others may
// be live too, so a count is no more than the live blocks.
#![tactic(auto)]

ghost use Rattle.std.specs.Prelude.{◌≡◌, true, ℕ, ◌+◌, ◌-◌, ◌*◌, min, ◌≤◌, ◌<◌, eqb, length};
ghost use mir.Val.{bool_byte};
ghost use Rattle.call_reclaim_live.specs.Live.{in_seg, live_below};
ghost use Rattle.disk_gather.specs.Owners.{OwnersRowsLow};
ghost use Rattle.law_basic.specs.Segs.{ZonesLow};
ghost use Rattle.spec.specs.Params.{in_range, spare_len, capacity, image_len, addresses_len, place_of};
ghost use Rattle.call_reclaim_records.specs.Vouch.{pointed_from, Enough};

use spec::{Params, Seg};

// An address of the table: a, or 0 where a is none of n.
pub fn clipped(a: u64, n: usize) -> usize
    requires { 0 < n }
    ensures { result < n }
{
    if a < n as u64 {
        return a as usize;
    }
    0
}

// 1 where two places are the same, without a branch.
fn same(a: u32, b: usize) -> usize
    ensures { result ≡ bool_byte (eqb a b) }
{
    (a as usize == b) as usize
}

// Of the n places from q on, how many the table of l addresses has at the addresses of the records from byte at on.
fn vouched_run(image: &[u8], addresses: &[u8], l: usize, at: usize, n: usize, q: usize) -> usize
    requires { (0 < l) × (4 * l ≤ length addresses.now) × (at + spare_len * n ≤ length image.now) × (q + n ≤ 715825152) }
    ensures { result ≤ length (pointed_from addresses.now l q n) }
{
    let mut c = 0;
    for i in 0..n {
        let a = clipped(
            bits_be::read_be64(image, at + disk_shape::SPARE * i + disk_shape::ADDRESS_AT),
            l,
        );
        c += same(mem_tables::place_at(addresses, a).0, q + i);
    }
    c
}

// How many of s records the next footer block holds, of which o lie before it.
fn run_len(s: usize, o: usize, per: usize) -> usize
    ensures { result ≡ min per (s - o) }
{
    if s <= o {
        return 0;
    }
    if per < s - o {
        return per;
    }
    s - o
}

// Of a zone's data blocks, footer block after footer block until there are enough.
fn vouched_zone(
    p: Params,
    image: &[u8],
    addresses: &[u8],
    drive: usize,
    zone: usize,
    most: usize,
) -> usize
    requires p_value { in_range p ≡ true }
    requires image_len { (length image.now ≡ image_len p) × (length addresses.now ≡ addresses_len p) × (drive < p.N) × (zone < p.Z) }
    ensures { (result ≤ length (pointed_from addresses.now p.L (place_of p drive zone 1) p.S)) × (result ≤ 65535) }
{
    let per = disk_shape::per_footer(p);
    let feet = disk_shape::footers(p);
    let unit = disk_shape::unit_len(p);
    let first = disk_shape::place_of(p, drive, zone, 1).0 as usize;
    let mut at = disk_shape::block_byte(p, drive, zone, 1 + p.S);
    let mut c = 0;
    let mut o = 0;
    for f in 0..feet {
        if most <= c {
            return c;
        }
        let n = run_len(p.S, o, per);
        c += vouched_run(image, addresses, p.L, at, n, first + o);
        o += n;
        at += unit;
    }
    c
}

// 01, Reclaim: some of the live blocks of a segment; all that can be told by the records, or at least most.
pub fn vouched(p: Params, image: &[u8], addresses: &[u8], segment: Seg, most: usize) -> usize
    requires p_value { in_range p ≡ true }
    requires image_len { (length image.now ≡ image_len p) × (length addresses.now ≡ addresses_len p) × ZonesLow p 0 segment }
    ensures { result ≤ length (live_below p addresses.now (in_seg p segment) (p.N * p.Z * capacity p)) }
{
    let mut c = 0;
    for d in 0..p.N {
        if most <= c {
            return c;
        }
        let zone = disk_shape::zone_on(p, segment, d);
        c += vouched_zone(p, image, addresses, d, zone, most - c);
    }
    c
}

// How many live blocks segment g must have if segment best, with n, is to be taken: the lower one is, on a tie.
fn needed(best: usize, n: usize, g: usize) -> usize
    requires { n < 18446744073709551615 }
    ensures { (n ≤ result) × (g < best → n < result) }
{
    if g < best {
        return n + 1;
    }
    n
}

// Whether segment g, if it is sealed, has so many.
fn is_enough(
    p: Params,
    image: &[u8],
    rows: &[u32],
    sealed: &[bool],
    addresses: &[u8],
    best: usize,
    n: usize,
    g: usize,
) -> bool
    requires p_value { in_range p ≡ true }
    requires image_len { (length image.now ≡ image_len p) × (length addresses.now ≡ addresses_len p) × (g < p.Z) × (n < 18446744073709551615) }
    requires z_in_bounds { (8 * p.Z ≤ length rows.now) × (p.Z ≤ length sealed.now) × OwnersRowsLow p rows.now sealed.now }
    ensures { result ≡ true → Enough p rows.now sealed.now addresses.now best n g }
{
    if g == best {
        return true;
    }
    if !sealed[g] {
        return true;
    }
    let segment = disk_gather::row(rows, g);
    let need = needed(best, n, g);
    need <= vouched(p, image, addresses, segment, need)
}

// 01, Reclaim: whether no sealed segment other than best, which has n live blocks, would be taken in its place.
pub fn is_fewest(
    p: Params,
    image: &[u8],
    rows: &[u32],
    sealed: &[bool],
    addresses: &[u8],
    best: usize,
    n: usize,
) -> bool
    requires p_value { in_range p ≡ true }
    requires image_len { (length image.now ≡ image_len p) × (length addresses.now ≡ addresses_len p) × (n < 18446744073709551615) }
    requires z_in_bounds { (8 * p.Z ≤ length rows.now) × (p.Z ≤ length sealed.now) × OwnersRowsLow p rows.now sealed.now }
    ensures { result ≡ true → (k : ℕ) → k < p.Z → Enough p rows.now sealed.now addresses.now best n k }
{
    for g in 0..p.Z {
        if !is_enough(p, image, rows, sealed, addresses, best, n, g) {
            return false;
        }
    }
    true
}

// How many of a segment's records are read until n + 1 of its entries are found, if they lie evenly.
fn asked(records: usize, n: usize, entries: usize) -> usize
    requires { (records ≤ 524280) × (n ≤ 468378645) }
    ensures { result ≤ 245561556524880 }
{
    if entries <= n {
        return records;
    }
    records * (n + 1) / entries
}

// Whether the records are likely to tell that a segment with n entries has fewest live blocks in less time than passes over the table, one for
// each 2,097,152 places. It is a guess by measure: a record takes as long as some entries.
pub fn is_quick(p: Params, used: &[usize], n: usize) -> bool
    requires p_value { in_range p ≡ true }
    requires z_in_bounds { (p.Z ≤ length used.now) × (n ≤ 468378645) }
{
    let records = p.N * p.S;
    let passes = call_reclaim_live::places(p) / 2097152 + 1;
    let mut t = 0;
    for g in 0..p.Z {
        t += asked(records, n, used[g]);
    }
    5 * t <= 2 * passes * p.L
}
