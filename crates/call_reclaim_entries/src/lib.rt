// Entries of the address table, counted by segment (01, Reclaim): no segment has more live blocks than entries. A segment goes by its zone on
// drive 0, and 1024 stands for the zones that none has (02, item 4).
#![tactic(auto)]

ghost use Rattle.std.specs.Prelude.{◌≡◌, true, ◌+◌, ◌*◌, ◌/◌, ◌≤◌, ◌<◌, length, get_or};
ghost use mir.Val.{bool_byte};
ghost use Rattle.spec.specs.Params.{in_range, capacity, addresses_len};
ghost use Rattle.call_reclaim_entries.specs.Entries.{with_entry, TakenCounted};
ghost use Rattle.call_reclaim_entries.specs.Inverse.{inverse};
ghost use Rattle.call_reclaim_live.specs.Owners.{OwnersLow};
ghost use Rattle.mem_tables.specs.Tables.{is_within, count_places};

use spec::Params;

// The zone of place q, counted over all drives: q / cap, by a product.
fn zone_number(q: usize, cap: usize, m: usize) -> usize
    requires { (3 ≤ cap) × (cap ≤ 87381) × (q < 8192 * cap) × (m ≡ inverse cap) }
    ensures { result ≡ q / cap }
{
    q * m / 140737488355328
}

// One entry more, with place q; all: the places of the image. 1 where it lies outside and is not never written.
fn add_entry(
    segments: &[u16],
    used: &mut [usize],
    all: usize,
    cap: usize,
    m: usize,
    q: usize,
) -> usize
    requires le_cap { (3 ≤ cap) × (cap ≤ 87381) × (all ≤ 8192 * cap) × (m ≡ inverse cap) × (all ≤ length segments.now * cap) }
    requires cap_in_bounds { q < all → get_or segments.now (q / cap) 0 < length used.old }
    requires cap_bound { q < all → get_or used.old (get_or segments.now (q / cap) 0) 0 < 18446744073709551615 }
    ensures used_after { used.new ≡ with_entry segments.now used.old all cap q }
    ensures value { result ≡ bool_byte (is_within all 4294967295 q) }
{
    if all <= q {
        return (q < 4294967295) as usize;
    }
    let t = zone_number(q, cap, m);
    let g = usize::from(segments[t]);
    used[g] = used[g] + 1;
    0
}

// 01, Reclaim: the entries of each segment, in one pass over the table; how many lie beyond the last place. segments: that of each zone.
pub fn count_entries(p: Params, addresses: &[u8], segments: &[u16], used: &mut [usize]) -> usize
    requires p_value { in_range p ≡ true }
    requires addresses_len { (length addresses.now ≡ addresses_len p) × OwnersLow p segments.now × (1024 < length used.old) }
    requires taken_counted { TakenCounted p segments.now addresses.now 0 used.old }
    ensures taken_counted_2 { TakenCounted p segments.now addresses.now p.L used.new }
    ensures value { result ≡ count_places addresses.now p.L (p.N * p.Z * capacity p) 4294967295 }
{
    let all = call_reclaim_live::places(p);
    let cap = disk_shape::capacity(p);
    let m = 140737488355328 / cap + 1;
    let mut k = 0;
    for a in 0..p.L {
        let q = mem_tables::place_at(addresses, a).0 as usize;
        k += add_entry(segments, used, all, cap, m, q);
    }
    k
}
