// How many live blocks each segment has, and the sealed segment with fewest (01, Reclaim; 02, item 4). A segment that remains goes by its zone on
// drive 0; 1024 stands for none.
#![tactic(auto)]

ghost use Rattle.std.specs.Prelude.{◌≡◌, true, false, cond, List, ℕ, ◌+◌, ◌*◌, min, ◌≤◌, ◌<◌, length, get_or, unwrap_or, IfSome};
ghost use Rattle.call_reclaim_live.specs.Fewest.{pick_of};
ghost use Rattle.call_reclaim_live.specs.Least.{Least};
ghost use Rattle.call_reclaim_live.specs.Live.{LiveCounted};
ghost use Rattle.call_reclaim_live.specs.Owners.{OwnersLow, sealed_at};
ghost use Rattle.disk_gather.specs.Owners.{OwnersRowsLow};
ghost use Rattle.spec.specs.Drives.{view_of};
ghost use Rattle.spec.specs.Params.{in_range, capacity, image_len, pointers_len, addresses_len};
ghost use Rattle.mem_marks.specs.Marks.{Marks};
ghost use Rattle.mem_tables.specs.Tables.{count_places};

use spec::Params;

// The places of the image.
pub fn places(p: Params) -> usize
    requires { in_range p ≡ true }
    ensures { (result ≡ p.N * p.Z * capacity p) × (result ≤ 715825152) }
{
    p.N * p.Z * disk_shape::capacity(p)
}

// ---- live blocks

// Counts the marked places from first up to end by segment, zone after zone.
fn count_zones(
    p: Params,
    segments: &[u16],
    marks: &[u8],
    live: &mut [usize],
    first: usize,
    end: usize,
)
    requires p_value { in_range p ≡ true }
    requires first_le_end { (first ≤ end) × (end ≤ p.N * p.Z * capacity p) × (end ≤ first + 8 * length marks.now) × (1024 < length live.old) × OwnersLow p segments.now }
    requires by_index { (g : ℕ) → g ≤ 1024 → get_or live.old g 0 ≤ first }
    ensures { (tb : List ℕ)
        → Marks tb p.L marks.now first end
        → LiveCounted p segments.now tb live.old first
        → LiveCounted p segments.now tb live.new end }
{
    let cap = disk_shape::capacity(p);
    let mut at = 0;
    let mut t = 0;
    let mut from = first;
    // Stays: at and t go on together, and `step_by` would give at alone, so t would be a count or a division in each turn.
    while at < end {
        let to = (at + cap).clamp(first, end);
        let n = mem_marks::count_marks(marks, from - first, to - first);
        let g = usize::from(segments[t]);
        live[g] = live[g] + n;
        from = to;
        at += cap;
        t += 1;
    }
}

// 01, Reclaim: the live blocks of each segment, and of the zones that none has, one pass over the table for each window of places that the
// marks stand for. Where they stand for all places, the marks are left as they are after that pass. How many entries lie beyond the last place.
pub fn count_windows(
    p: Params,
    segments: &[u16],
    addresses: &[u8],
    marks: &mut [u8],
    live: &mut [usize],
) -> usize
    requires p_value { in_range p ≡ true }
    requires addresses_len { (length addresses.now ≡ addresses_len p) × (0 < length marks.old) × (length marks.old < 268435456) × (1024 < length live.old) }
    requires owners_low { OwnersLow p segments.now × LiveCounted p segments.now addresses.now live.old 0 }
    ensures live_counted { LiveCounted p segments.now addresses.now live.new (p.N * p.Z * capacity p) }
    ensures marks { p.N * p.Z * capacity p ≤ 8 * length marks.old → Marks addresses.now p.L marks.new 0 (p.N * p.Z * capacity p) }
    ensures value { result ≡ count_places addresses.now p.L (p.N * p.Z * capacity p) 4294967295 }
{
    let all = places(p);
    let step = 8 * marks.len();
    let mut outside = 0;
    let mut first = 0;
    // Stays: a window ends where the next begins; by `step_by` that end is worked out twice, and the proof has two ends of the loop.
    while first < all {
        let end = all.min(first + step);
        outside = mem_marks::mark_window(addresses, p.L, marks, first, end);
        count_zones(p, segments, marks, live, first, end);
        first = end;
    }
    outside
}

// ---- the segment

// 01, Restart, 3: whether a segment remains at a zone of drive 0 and is sealed.
fn is_sealed_at(p: Params, pointers: &[u8], rows: &[u32], kept: &[bool], g: usize) -> bool
    requires p_value { in_range p ≡ true }
    requires pointers_len { (length pointers.now ≡ pointers_len p) × (8 * p.Z ≤ length rows.now) × (p.Z ≤ length kept.now) × OwnersRowsLow p rows.now kept.now × (g < p.Z) }
    ensures { (off im : List ℕ) → length im ≡ image_len p → result ≡ sealed_at p (view_of p off im pointers.now) rows.now kept.now g }
{
    if !kept[g] {
        return false;
    }
    let segment = disk_gather::row(rows, g);
    disk_zones::is_sealed(p, pointers, 0, segment)
}

// 01, Restart, 3: which of the segments that remain are sealed.
pub fn find_sealed(p: Params, pointers: &[u8], rows: &[u32], kept: &[bool], sealed: &mut [bool])
    requires p_value { in_range p ≡ true }
    requires pointers_len { (length pointers.now ≡ pointers_len p) × (8 * p.Z ≤ length rows.now) × (p.Z ≤ length kept.now) × OwnersRowsLow p rows.now kept.now }
    requires z_in_bounds { p.Z ≤ length sealed.old }
    ensures { (off im : List ℕ)
        → length im ≡ image_len p
        → (g : ℕ)
        → g < p.Z
        → get_or sealed.new g false ≡ sealed_at p (view_of p off im pointers.now) rows.now kept.now g }
{
    for g in 0..p.Z {
        sealed[g] = is_sealed_at(p, pointers, rows, kept, g);
    }
}

// Segment g in place of the best so far, if it is sealed and has fewer live blocks.
#[tactic(auto, unfolding(crate::specs::Fewest::pick_of))]
fn better(
    p: Params,
    sealed: &[bool],
    live: &[usize],
    best: Option<usize>,
    g: usize,
) -> Option<usize>
    requires { (g < p.Z) × (p.Z ≤ length sealed.now) × (p.Z ≤ length live.now) × IfSome best (λ b. b < p.Z) }
    ensures pick { unwrap_or result p.Z ≡ cond (get_or sealed.now g false) (pick_of p live.now (unwrap_or best p.Z) g) (unwrap_or best p.Z) }
    ensures low { IfSome result (λ b. b < p.Z) }
{
    if !sealed[g] {
        return best;
    }
    match best {
        Some(b) if live[b] <= live[g] => best,
        _ => Some(g),
    }
}

// 01, Reclaim: the sealed segment with fewest live blocks, if one is sealed; lowest zone on drive 0 on a tie.
pub fn fewest(p: Params, sealed: &[bool], live: &[usize]) -> Option<usize>
    requires { (p.Z ≤ length sealed.now) × (p.Z ≤ length live.now) }
    ensures least { Least p sealed.now live.now p.Z (unwrap_or result p.Z) }
    ensures low { IfSome result (λ g. g < p.Z) }
{
    let mut best = None;
    for g in 0..p.Z {
        best = better(p, sealed, live, best, g);
    }
    best
}
