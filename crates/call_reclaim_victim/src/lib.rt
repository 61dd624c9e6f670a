// Live blocks and the segment that reclaim takes (01, Reclaim). The segments are gathered once, and go by their zone on drive 0 (02, item 4).
#![tactic(auto)]

ghost use Rattle.disk_drives.specs.Viewed.{viewed};
ghost use Rattle.std.specs.Prelude.{◌≡◌, true, false, cond, List, [], ℕ, ◌+◌, ◌-◌, ◌*◌, min, ◌≤◌, ◌<◌, length, get_or, IfSome, Some, None};
ghost use Rattle.std.specs.Option.{option_or};
ghost use Rattle.spec.specs.Drives.{view_of, mk_disk, zone_on};
ghost use Rattle.spec.specs.Lists.{cons_if, any, below};
ghost use Rattle.spec.specs.Memory.{state_len, state_of};
ghost use Rattle.spec.specs.Params.{in_range, capacity, addresses_len, place_of};
ghost use Rattle.spec.specs.Reclaim.{table_faults};
ghost use Rattle.mem_marks.specs.Marks.{Marks};
ghost use Rattle.disk_gather.specs.Flags.{FlagsRows, Keeps};
ghost use Rattle.call_reclaim_live.specs.Live.{in_seg};
ghost use Rattle.call_reclaim_live.specs.Owners.{Owns, Numbered, OwnersShown};
ghost use Rattle.call_reclaim_victim.specs.Looked.{Looked};
ghost use Rattle.call_reclaim_victim.specs.Vouched.{Vouched, Sees};
ghost use Rattle.call_reclaim_victim.specs.Waiting.{is_odd, place_number, flying_in, IdleStepped, IdleBelow};
ghost use Rattle.law_basic.specs.Segs.{ZonesLow};
ghost use Rattle.law_views.specs.Views.{Whole};

use disk_drives::Drives;
use spec::{Params, Place, Seg};

// ---- the first live block that is not in flight

// 01, Reclaim: the first live block that is not in flight, and the lowest zone with a live block that is no data block, where there is one.
#[derive(Clone, Copy)]
pub struct Idle {
    pub first: Option<Place>,
    pub odd: Option<usize>,
}

// A place that is no data block.
fn is_odd(p: Params, place: Place) -> bool
    requires { in_range p ≡ true }
    ensures { result ≡ is_odd p place.0 }
{
    let block = disk_shape::place_block(p, place);
    if block < 1 {
        return true;
    }
    p.S < block
}

// 01, Reclaim: a data block of a segment is in flight while a stripe in flight holds its address with its stamp.
fn is_flying(
    p: Params,
    image: &[u8],
    pointers: &[u8],
    segment: Seg,
    bytes: &[u8],
    place: Place,
) -> bool
    requires p_value { in_range p ≡ true }
    requires whole { Whole p (mk_disk image.now pointers.now) × ZonesLow p 0 segment }
    requires place_bound { (place.0 < p.N * p.Z * capacity p) × (is_odd p place.0 ≡ false) × (length bytes.now ≡ state_len) }
    ensures { (off : List ℕ) → result ≡ flying_in p (view_of p off image.now pointers.now) (state_of bytes.now) segment place.0 }
{
    let r = disk_stored::place_record(p, image, pointers, 0, segment, place);
    let address = r.address;
    let stamp = r.stamp;
    mem_state::holds(bytes, address, stamp)
}

// One live block more. A header or footer block is never in flight; it names its own zone.
fn idle_step(
    p: Params,
    image: &[u8],
    pointers: &[u8],
    segment: Seg,
    bytes: &[u8],
    idle: Idle,
    place: Place,
) -> Idle
    requires p_value { in_range p ≡ true }
    requires whole { Whole p (mk_disk image.now pointers.now) × ZonesLow p 0 segment }
    requires place_bound { (place.0 < p.N * p.Z * capacity p) × (length bytes.now ≡ state_len) }
    ensures { (off : List ℕ)
        → IdleStepped p (view_of p off image.now pointers.now) (state_of bytes.now) segment idle place.0 result }
{
    if is_odd(p, place) {
        let zone = disk_shape::place_zone(p, place);
        let odd = idle.odd.unwrap_or(zone).min(zone);
        return Idle {
            first: idle.first.or(Some(place)),
            odd: Some(odd),
        };
    }
    if idle.first.is_some() {
        return idle;
    }
    if is_flying(p, image, pointers, segment, bytes, place) {
        return idle;
    }
    Idle {
        first: Some(place),
        odd: idle.odd,
    }
}

// The marked places from lo up to hi, which lie in one zone; mine: in the segment looked at.
fn idle_run(
    p: Params,
    image: &[u8],
    pointers: &[u8],
    segment: Seg,
    marks: &[u8],
    bytes: &[u8],
    first: usize,
    lo: usize,
    hi: usize,
    mine: bool,
    idle: Idle,
) -> Idle
    requires p_value { in_range p ≡ true }
    requires whole { Whole p (mk_disk image.now pointers.now) × ZonesLow p 0 segment }
    requires first_le_lo { (first ≤ lo) × (lo ≤ hi) × (hi ≤ first + 8 * length marks.now) × (hi ≤ p.N * p.Z * capacity p) × (length bytes.now ≡ state_len) }
    ensures { (off tb : List ℕ)
        → Marks tb p.L marks.now first hi
        → ((q : ℕ) → lo ≤ q → q < hi → in_seg p segment q ≡ mine)
        → IdleBelow p (view_of p off image.now pointers.now) (state_of bytes.now) segment tb lo idle
        → IdleBelow p (view_of p off image.now pointers.now) (state_of bytes.now) segment tb hi result }
{
    if !mine {
        return idle;
    }
    let mut found = idle;
    let mut q = lo;
    // Stays: q goes on from mark to mark, not by one.
    while q < hi {
        let next = first + mem_marks::next_marked(marks, q - first, hi - first);
        if hi <= next {
            return found;
        }
        found = idle_step(
            p,
            image,
            pointers,
            segment,
            bytes,
            found,
            Place(next as u32),
        );
        q = next + 1;
    }
    found
}

// The marked places of a segment from first up to end, zone after zone; g: its number in the table of segments.
fn idle_zones(
    p: Params,
    image: &[u8],
    pointers: &[u8],
    segment: Seg,
    segments: &[u16],
    g: usize,
    marks: &[u8],
    bytes: &[u8],
    first: usize,
    end: usize,
    idle: Idle,
) -> Idle
    requires p_value { in_range p ≡ true }
    requires whole { Whole p (mk_disk image.now pointers.now) × ZonesLow p 0 segment × (p.N * p.Z ≤ length segments.now) × Owns p segments.now g segment }
    requires first_le_end { (first ≤ end) × (end ≤ first + 8 * length marks.now) × (end ≤ p.N * p.Z * capacity p) × (length bytes.now ≡ state_len) }
    ensures { (off tb : List ℕ)
        → Marks tb p.L marks.now first end
        → IdleBelow p (view_of p off image.now pointers.now) (state_of bytes.now) segment tb first idle
        → IdleBelow p (view_of p off image.now pointers.now) (state_of bytes.now) segment tb end result }
{
    let cap = disk_shape::capacity(p);
    let mut found = idle;
    let mut at = 0;
    let mut t = 0;
    let mut from = first;
    // Stays: at and t go on together, and `step_by` would give at alone, so t would be a count or a division in each turn.
    while at < end {
        let to = (at + cap).clamp(first, end);
        let owner = usize::from(segments[t]);
        found = idle_run(
            p,
            image,
            pointers,
            segment,
            marks,
            bytes,
            first,
            from,
            to,
            owner == g,
            found,
        );
        from = to;
        at += cap;
        t += 1;
    }
    found
}

// The same window after window, each marked first.
fn idle_windows(
    p: Params,
    image: &[u8],
    pointers: &[u8],
    segment: Seg,
    segments: &[u16],
    g: usize,
    addresses: &[u8],
    marks: &mut [u8],
    bytes: &[u8],
) -> Idle
    requires p_value { in_range p ≡ true }
    requires whole { Whole p (mk_disk image.now pointers.now) × ZonesLow p 0 segment × (p.N * p.Z ≤ length segments.now) × Owns p segments.now g segment }
    requires addresses_len { (length addresses.now ≡ addresses_len p) × (0 < length marks.old) × (length marks.old < 268435456) × (length bytes.now ≡ state_len) }
    ensures { (off : List ℕ)
        → IdleBelow p (view_of p off image.now pointers.now) (state_of bytes.now) segment addresses.now (p.N * p.Z * capacity p) result }
{
    let all = call_reclaim_live::places(p);
    let step = 8 * marks.len();
    let mut found = Idle {
        first: None,
        odd: None,
    };
    let mut first = 0;
    // Stays: a window ends where the next begins; by `step_by` that end is worked out twice, and the proof has two ends of the loop.
    while first < all {
        let end = all.min(first + step);
        mem_marks::mark_window(addresses, p.L, marks, first, end);
        found = idle_zones(
            p, image, pointers, segment, segments, g, marks, bytes, first, end, found,
        );
        first = end;
    }
    found
}

// In one go where the marks are those of all places.
fn idle_of(
    p: Params,
    image: &[u8],
    pointers: &[u8],
    segment: Seg,
    segments: &[u16],
    g: usize,
    addresses: &[u8],
    marks: &mut [u8],
    bytes: &[u8],
) -> Idle
    requires p_value { in_range p ≡ true }
    requires whole { Whole p (mk_disk image.now pointers.now) × ZonesLow p 0 segment × (p.N * p.Z ≤ length segments.now) × Owns p segments.now g segment }
    requires addresses_len { (length addresses.now ≡ addresses_len p) × (0 < length marks.old) × (length marks.old < 268435456) × (length bytes.now ≡ state_len) }
    requires marks { p.N * p.Z * capacity p ≤ 8 * length marks.old → Marks addresses.now p.L marks.old 0 (p.N * p.Z * capacity p) }
    ensures { (off : List ℕ)
        → IdleBelow p (view_of p off image.now pointers.now) (state_of bytes.now) segment addresses.now (p.N * p.Z * capacity p) result }
{
    let all = call_reclaim_live::places(p);
    if 8 * marks.len() < all {
        return idle_windows(
            p, image, pointers, segment, segments, g, addresses, marks, bytes,
        );
    }
    let none = Idle {
        first: None,
        odd: None,
    };
    idle_zones(
        p, image, pointers, segment, segments, g, marks, bytes, 0, all, none,
    )
}

// ---- the segment

// The segment that reclaim takes: its zone on drive 0, Z if there is none, and all its zones; how many live blocks it has; the first of them that
// is not in flight, and the lowest zone with a live block that is no data block, where there is one; whether some place of the table is no place
// of the image, where there is a segment.
#[derive(Clone, Copy)]
pub struct Chosen {
    pub zone: usize,
    pub segment: Seg,
    pub live: usize,
    pub first: Option<Place>,
    pub odd: Option<usize>,
    pub outside: bool,
}

// No segment.
fn nobody(p: Params) -> Chosen
    ensures { (result.zone ≡ p.Z) × (result.live ≡ 0) × (result.first ≡ None) × (result.odd ≡ None) }
{
    Chosen {
        zone: p.Z,
        segment: Seg { zones: [0; 8] },
        live: 0,
        first: None,
        odd: None,
        outside: false,
    }
}

// 01, Reclaim: the segment, with marks to work with. rows, segments, sealed: the zones of each segment, the segment of each zone, and which are sealed.
fn look_with(
    p: Params,
    image: &[u8],
    pointers: &[u8],
    rows: &[u32],
    segments: &[u16],
    sealed: &[bool],
    addresses: &[u8],
    marks: &mut [u8],
    bytes: &[u8],
) -> Chosen
    requires p_value { in_range p ≡ true }
    requires whole { Whole p (mk_disk image.now pointers.now) × Numbered p rows.now segments.now sealed.now }
    requires addresses_len { (length addresses.now ≡ addresses_len p) × (0 < length marks.old) × (length marks.old < 268435456) × (length bytes.now ≡ state_len) }
    ensures { (off : List ℕ)
        → OwnersShown p (view_of p off image.now pointers.now) rows.now segments.now sealed.now
        → Looked p (view_of p off image.now pointers.now) addresses.now (state_of bytes.now) result }
{
    let mut live = [0usize; 1025];
    let outside = call_reclaim_live::count_windows(p, segments, addresses, marks, &mut live);
    let Some(g) = call_reclaim_live::fewest(p, sealed, &live) else {
        return nobody(p);
    };
    let segment = disk_gather::row(rows, g);
    let idle = idle_of(
        p, image, pointers, segment, segments, g, addresses, marks, bytes,
    );
    let first = idle.first;
    let odd = idle.odd;
    Chosen {
        zone: g,
        segment,
        live: live[g],
        first,
        odd,
        outside: outside + live[1024] != 0,
    }
}

// ---- the segment by its records

// Live blocks of a segment that its records tell: how many, and the first of them that is not in flight, if there is one.
#[derive(Clone, Copy)]
pub struct Seen {
    pub live: usize,
    pub first: Option<Place>,
}

// The first data block that is not in flight, one more being at a place.
fn next_idle(
    p: Params,
    image: &[u8],
    pointers: &[u8],
    segment: Seg,
    bytes: &[u8],
    first: Option<Place>,
    place: Place,
) -> Option<Place>
    requires p_value { in_range p ≡ true }
    requires whole { Whole p (mk_disk image.now pointers.now) × ZonesLow p 0 segment }
    requires place_bound { (place.0 < p.N * p.Z * capacity p) × (is_odd p place.0 ≡ false) × (length bytes.now ≡ state_len) }
    ensures { (off : List ℕ)
        → place_number result
        ≡ option_or (place_number first) (cond (flying_in p (view_of p off image.now pointers.now) (state_of bytes.now) segment place.0) None (Some place.0)) }
{
    if first.is_some() {
        return first;
    }
    if is_flying(p, image, pointers, segment, bytes, place) {
        return None;
    }
    Some(place)
}

// The data block at offset o of a segment's zone, the place at + o, if the table has it at the address of its record.
fn see_block(
    p: Params,
    image: &[u8],
    pointers: &[u8],
    addresses: &[u8],
    bytes: &[u8],
    segment: Seg,
    drive: usize,
    zone: usize,
    at: usize,
    o: usize,
    seen: Seen,
) -> Seen
    requires p_value { in_range p ≡ true }
    requires whole { Whole p (mk_disk image.now pointers.now) × ZonesLow p 0 segment }
    requires addresses_len { (length addresses.now ≡ addresses_len p) × (drive < p.N) × (zone ≡ zone_on segment drive) × (at ≡ place_of p drive zone 1) × (o < p.S)
        × (seen.live < 4294967296) × (length bytes.now ≡ state_len) }
    ensures live_bound { result.live ≤ seen.live + 1 }
    ensures by_index { (off : List ℕ)
        → Sees p (view_of p off image.now pointers.now) (state_of bytes.now) segment addresses.now (at + o) (at + o + 1) seen result }
{
    let record = disk_stored::record_in(p, image, true, drive, zone, o);
    let address = record.address;
    let a = call_reclaim_records::clipped(address.0, p.L);
    let q = Place((at + o) as u32);
    let there = mem_tables::place_at(addresses, a);
    if there.0 != q.0 {
        return seen;
    }
    let first = next_idle(p, image, pointers, segment, bytes, seen.first, q);
    Seen {
        live: seen.live + 1,
        first,
    }
}

// The data blocks of a segment's zone.
fn see_zone(
    p: Params,
    image: &[u8],
    pointers: &[u8],
    addresses: &[u8],
    bytes: &[u8],
    segment: Seg,
    drive: usize,
    seen: Seen,
) -> Seen
    requires p_value { in_range p ≡ true }
    requires whole { Whole p (mk_disk image.now pointers.now) × ZonesLow p 0 segment }
    requires addresses_len { (length addresses.now ≡ addresses_len p) × (drive < p.N) × (seen.live ≤ 65535 * drive) × (length bytes.now ≡ state_len) }
    ensures live_bound { result.live ≤ 65535 * (drive + 1) }
    ensures by_index { (off : List ℕ)
        → Sees p (view_of p off image.now pointers.now) (state_of bytes.now) segment addresses.now
        (place_of p drive (zone_on segment drive) 1) (place_of p drive (zone_on segment drive) 1 + p.S) seen result }
{
    let zone = disk_shape::zone_on(p, segment, drive);
    let at = disk_shape::place_of(p, drive, zone, 1).0 as usize;
    let mut found = seen;
    for o in 0..p.S {
        found = see_block(
            p, image, pointers, addresses, bytes, segment, drive, zone, at, o, found,
        );
    }
    found
}

// The data blocks of a segment.
fn see_segment(
    p: Params,
    image: &[u8],
    pointers: &[u8],
    addresses: &[u8],
    bytes: &[u8],
    segment: Seg,
) -> Seen
    requires p_value { in_range p ≡ true }
    requires whole { Whole p (mk_disk image.now pointers.now) × ZonesLow p 0 segment }
    requires addresses_len { (length addresses.now ≡ addresses_len p) × (length bytes.now ≡ state_len) }
    ensures { (off : List ℕ)
        → Vouched p (view_of p off image.now pointers.now) (state_of bytes.now) segment addresses.now (p.N * p.Z * capacity p) result }
{
    let mut found = Seen {
        live: 0,
        first: None,
    };
    for d in 0..p.N {
        found = see_zone(p, image, pointers, addresses, bytes, segment, d, found);
    }
    found
}

// The sealed segment with fewest entries in the table, if each of its entries is a live block by its record, and the others have as many; none of
// them is a header or footer block. None where that is not sure. Where many records would have to be read it is not looked at.
fn look_by_records(
    p: Params,
    image: &[u8],
    pointers: &[u8],
    rows: &[u32],
    segments: &[u16],
    sealed: &[bool],
    addresses: &[u8],
    bytes: &[u8],
) -> Option<Chosen>
    requires p_value { in_range p ≡ true }
    requires whole { Whole p (mk_disk image.now pointers.now) × Numbered p rows.now segments.now sealed.now }
    requires addresses_len { (length addresses.now ≡ addresses_len p) × (length bytes.now ≡ state_len) }
    ensures { (off : List ℕ)
        → OwnersShown p (view_of p off image.now pointers.now) rows.now segments.now sealed.now
        → IfSome result (Looked p (view_of p off image.now pointers.now) addresses.now (state_of bytes.now)) }
{
    let mut used = [0usize; 1025];
    let beyond = call_reclaim_entries::count_entries(p, addresses, segments, &mut used);
    let outside = beyond + used[1024] != 0;
    let g = call_reclaim_live::fewest(p, sealed, &used)?;
    let n = used[g];
    let segment = disk_gather::row(rows, g);
    let told = Chosen {
        zone: g,
        segment,
        live: n,
        first: None,
        odd: None,
        outside,
    };
    if n == 0 {
        return Some(told);
    }
    if !call_reclaim_records::is_quick(p, &used, n) {
        return None;
    }
    let seen = see_segment(p, image, pointers, addresses, bytes, segment);
    if seen.live != n {
        return None;
    }
    if !call_reclaim_records::is_fewest(p, image, rows, sealed, addresses, g, n) {
        return None;
    }
    Some(Chosen {
        first: seen.first,
        ..told
    })
}

// With marks of ROOM bytes, for 8 places each.
fn look_within<const ROOM: usize>(
    p: Params,
    image: &[u8],
    pointers: &[u8],
    rows: &[u32],
    segments: &[u16],
    sealed: &[bool],
    addresses: &[u8],
    bytes: &[u8],
) -> Chosen
    requires p_value { in_range p ≡ true }
    requires whole { Whole p (mk_disk image.now pointers.now) × Numbered p rows.now segments.now sealed.now }
    requires addresses_len { (length addresses.now ≡ addresses_len p) × (length bytes.now ≡ state_len) }
    requires room { (0 < ROOM) × (ROOM ≤ 262144) }
    ensures { (off : List ℕ)
        → OwnersShown p (view_of p off image.now pointers.now) rows.now segments.now sealed.now
        → Looked p (view_of p off image.now pointers.now) addresses.now (state_of bytes.now) result }
{
    let mut marks = [0u8; ROOM];
    look_with(
        p, image, pointers, rows, segments, sealed, addresses, &mut marks, bytes,
    )
}

// With the segments at hand.
fn look_in(
    p: Params,
    image: &[u8],
    pointers: &[u8],
    rows: &[u32],
    segments: &[u16],
    sealed: &[bool],
    addresses: &[u8],
    bytes: &[u8],
) -> Chosen
    requires p_value { in_range p ≡ true }
    requires whole { Whole p (mk_disk image.now pointers.now) × Numbered p rows.now segments.now sealed.now }
    requires addresses_len { (length addresses.now ≡ addresses_len p) × (length bytes.now ≡ state_len) }
    ensures { (off : List ℕ)
        → OwnersShown p (view_of p off image.now pointers.now) rows.now segments.now sealed.now
        → Looked p (view_of p off image.now pointers.now) addresses.now (state_of bytes.now) result }
{
    let n = call_reclaim_live::places(p);
    if n <= 65536 {
        return look_within::<8192>(p, image, pointers, rows, segments, sealed, addresses, bytes);
    }
    if n <= 524288 {
        return look_within::<65536>(p, image, pointers, rows, segments, sealed, addresses, bytes);
    }
    if 2097152 < n {
        if let Some(told) = look_by_records(
            p, image, pointers, rows, segments, sealed, addresses, bytes,
        ) {
            return told;
        }
    }
    look_within::<262144>(p, image, pointers, rows, segments, sealed, addresses, bytes)
}

// Whether some segment is sealed.
fn any_sealed(p: Params, sealed: &[bool]) -> bool
    requires { p.Z ≤ length sealed.now }
    ensures { result ≡ any (λ g. get_or sealed.now g false) (below p.Z) }
{
    for g in 0..p.Z {
        if sealed[g] {
            return true;
        }
    }
    false
}

// 02, item 4: the zones of the segments, by zone on drive 0, and which remain.
fn find_kept(drives: &Drives<'_>, rows: &mut [u32], kept: &mut [bool])
    requires z_in_bounds { (8 * drives.now.p.Z ≤ length rows.old) × (drives.now.p.Z ≤ length kept.old) }
    ensures flags_rows { FlagsRows drives.now.p (viewed drives.now) 0 rows.new }
    ensures keeps { Keeps drives.now.p (viewed drives.now) 0 kept.new }
{
    let mut serials = [0u64; 1024];
    let mut left = [false; 1024];
    disk_gather::gather(drives, 0, rows, &mut serials, &mut left, kept);
}

// 01, Reclaim: the sealed segment with fewest live blocks, lowest zone on drive 0 on a tie, and its first live block not in flight. Where none is
// sealed the table is not looked at.
pub fn look(drives: &Drives<'_>, addresses: &[u8], bytes: &[u8]) -> Chosen
    requires addresses_len { (length addresses.now ≡ addresses_len drives.now.p) × (length bytes.now ≡ state_len) }
    ensures { Looked drives.now.p (viewed drives.now) addresses.now (state_of bytes.now) result }
{
    let mut rows = [0u32; 8192];
    let mut kept = [false; 1024];
    find_kept(drives, &mut rows, &mut kept);
    let mut sealed = [false; 1024];
    call_reclaim_live::find_sealed(drives.p, drives.pointers, &rows, &kept, &mut sealed);
    if !any_sealed(drives.p, &sealed) {
        return nobody(drives.p);
    }
    let mut segments = [1024u16; 8192];
    disk_gather::find_owners(drives.p, &rows, &kept, &mut segments);
    look_in(
        drives.p,
        drives.image,
        drives.pointers,
        &rows,
        &segments,
        &sealed,
        addresses,
        bytes,
    )
}

// 01, Refusals, 9; 02, item 4: some place of the table is no place of the image.
pub fn any_outside(drives: &Drives<'_>, addresses: &[u8]) -> bool
    requires addresses_len { length addresses.now ≡ addresses_len drives.now.p }
    ensures { table_faults drives.now.p (viewed drives.now) addresses.now ≡ cons_if result 0 [] }
{
    let mut rows = [0u32; 8192];
    let mut kept = [false; 1024];
    find_kept(drives, &mut rows, &mut kept);
    let mut segments = [1024u16; 8192];
    disk_gather::find_owners(drives.p, &rows, &kept, &mut segments);
    let mut used = [0usize; 1025];
    let beyond = call_reclaim_entries::count_entries(drives.p, addresses, &segments, &mut used);
    beyond + used[1024] != 0
}
