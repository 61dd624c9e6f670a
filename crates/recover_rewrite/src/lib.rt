// The rewrite of a restart: the counted stripes of a segment in rising order, numbered from 0, into another (01, Restart, 4).
#![tactic(auto)]

ghost use Rattle.std.specs.Prelude.{◌≡◌, true, false, List, ℕ, ◌+◌, ◌%◌, ◌≤◌, ◌<◌, length};
ghost use Rattle.spec.specs.Drives.{view_of, mk_disk, pointer_of, sealed_in, zone_on};
ghost use Rattle.spec.specs.Params.{in_range};
ghost use Rattle.spec.specs.Restart.{moved_stripes, rewrite_stores};
ghost use Rattle.spec.specs.Segments.{segment_of, counted};
ghost use Rattle.recover_groups.specs.Groups.{group_len, recs_fault, segment_in, GroupReads};
ghost use Rattle.recover_move.specs.Moves.{OtherZones, MovesShown};
ghost use Rattle.recover_rewrite.specs.Due.{itself, counted_from, StepMoved};
ghost use Rattle.law_views.specs.Views.{Whole, AllFit};
ghost use Rattle.disk_zones.specs.Made.{Storing};
ghost use Rattle.law_basic.specs.Segs.{ZonesLow};

use disk_zones::TooFew;
use recover_groups::Group;
use spec::{Params, Seg, Serial};

// The number that the next stripe takes, and what is left of the store count.
#[derive(Clone, Copy)]
pub struct Moved {
    pub next: usize,
    pub left: u64,
}

// 01, Restart, 4: stripe k of the group, if it counts.
fn move_if(
    p: Params,
    image: &mut [u8],
    pointers: &mut [u8],
    w: Group,
    at: &[u16],
    k: usize,
    to: Seg,
    m: Moved,
) -> Result<Moved, TooFew>
    requires p_value { in_range p ≡ true }
    requires whole { Whole p (mk_disk image.old pointers.old) }
    requires moves_shown { MovesShown p w at.now k }
    requires by_index { (off : List ℕ) → GroupReads p off image.old pointers.old w at.now }
    requires zones_low { ZonesLow p 0 to × (m.next ≤ w.base + k) × OtherZones p to w.seg }
    requires by_index_2 { (off : List ℕ)
        → AllFit p (view_of p off image.old pointers.old)
        (moved_stripes p (segment_in p off image.old pointers.old w) to (itself p (segment_in p off image.old pointers.old w) (w.base + k)) m.next) }
    ensures { (off : List ℕ)
        → StepMoved p (segment_in p off image.old pointers.old w) to
        (itself p (segment_in p off image.old pointers.old w) (w.base + k)) m
        (mk_disk image.old pointers.old) result (mk_disk image.new pointers.new) }
{
    if !recover_groups::counts(p, w.gone, at, k) {
        return Ok(m);
    }
    let left = recover_move::move_stripe(p, image, pointers, w, at, k, to, m.next, m.left)?;
    Ok(Moved {
        next: m.next + 1,
        left,
    })
}

// 01, Restart, 4: the counted stripes of one group; at is room for its index.
fn move_group(
    p: Params,
    image: &mut [u8],
    pointers: &mut [u8],
    w: Group,
    at: &mut [u16],
    to: Seg,
    m: Moved,
) -> Result<Moved, TooFew>
    requires p_value { in_range p ≡ true }
    requires whole { Whole p (mk_disk image.old pointers.old) }
    requires at_len { (length at.old ≡ 2048) × ZonesLow p 0 w.seg × (w.base < p.S) × (w.base % p.G ≡ 0) × (w.gone ≡ 0) }
    requires by_index { (off : List ℕ)
        → (w.full ≡ sealed_in p (view_of p off image.old pointers.old) w.gone w.seg)
        × (recs_fault p w.gone (segment_in p off image.old pointers.old w) ≡ false) }
    requires zones_low { ZonesLow p 0 to × (m.next ≤ w.base) × OtherZones p to w.seg }
    requires by_index_2 { (off : List ℕ)
        → AllFit p (view_of p off image.old pointers.old)
        (moved_stripes p (segment_in p off image.old pointers.old w) to
        (counted_from p (segment_in p off image.old pointers.old w) w.base (group_len p w.base)) m.next) }
    ensures { (off : List ℕ)
        → StepMoved p (segment_in p off image.old pointers.old w) to
        (counted_from p (segment_in p off image.old pointers.old w) w.base (group_len p w.base)) m
        (mk_disk image.old pointers.old) result (mk_disk image.new pointers.new) }
{
    recover_groups::index_group(p, image, pointers, w, at);
    let len = recover_groups::group_len(p, w.base);
    let mut next = m;
    for k in 0..len {
        next = move_if(p, image, pointers, w, at, k, to, next)?;
    }
    Ok(next)
}

// 01, Restart, 4: the counted stripes of unsealed segment seg in rising order, numbered from 0, into segment to, under a store count.
fn move_stripes(
    p: Params,
    image: &mut [u8],
    pointers: &mut [u8],
    seg: Seg,
    to: Seg,
    count: u64,
) -> Result<u64, TooFew>
    requires p_value { in_range p ≡ true }
    requires whole { Whole p (mk_disk image.old pointers.old) }
    requires zones_low { ZonesLow p 0 seg × ZonesLow p 0 to × OtherZones p to seg }
    requires by_index { (off : List ℕ)
        → (sealed_in p (view_of p off image.old pointers.old) 0 seg ≡ false)
        × (recs_fault p 0 (segment_of p (view_of p off image.old pointers.old) 0 seg) ≡ false) }
    requires by_index_2 { (off : List ℕ)
        → AllFit p (view_of p off image.old pointers.old)
        (moved_stripes p (segment_of p (view_of p off image.old pointers.old) 0 seg) to
        (counted p 0 (segment_of p (view_of p off image.old pointers.old) 0 seg)) 0) }
    ensures { (off : List ℕ)
        → Storing p count (moved_stripes p (segment_of p (view_of p off image.old pointers.old) 0 seg) to
        (counted p 0 (segment_of p (view_of p off image.old pointers.old) 0 seg)) 0)
        (mk_disk image.old pointers.old) result (mk_disk image.new pointers.new) }
{
    let mut at = [0u16; 2048];
    let mut m = Moved {
        next: 0,
        left: count,
    };
    for base in (0..p.S).step_by(p.G) {
        let w = Group {
            gone: 0,
            seg,
            full: false,
            base,
        };
        m = move_group(p, image, pointers, w, &mut at, to, m)?;
    }
    Ok(m.left)
}

// 01, Restart, 4: headers naming the old serial as copied, the counted stripes, then the old zones reset, under a store count.
pub fn rewrite(
    p: Params,
    image: &mut [u8],
    pointers: &mut [u8],
    seg: Seg,
    to: Seg,
    serial: Serial,
    copied: Serial,
    count: u64,
) -> Result<u64, TooFew>
    requires p_value { in_range p ≡ true }
    requires whole { Whole p (mk_disk image.old pointers.old) }
    requires zones_low { ZonesLow p 0 seg × ZonesLow p 0 to × OtherZones p to seg }
    requires by_index { (off : List ℕ)
        → (sealed_in p (view_of p off image.old pointers.old) 0 seg ≡ false)
        × (recs_fault p 0 (segment_of p (view_of p off image.old pointers.old) 0 seg) ≡ false) }
    requires by_index_2 { ((off : List ℕ) → copied.0 ≡ (segment_of p (view_of p off image.old pointers.old) 0 seg).serial)
        × ((d : ℕ) → d < p.N → pointer_of p pointers.old d (zone_on to d) ≡ 0) }
    requires by_index_3 { (off : List ℕ) → AllFit p (view_of p off image.old pointers.old) (rewrite_stores p (segment_of p (view_of p off image.old pointers.old) 0 seg) to serial.0) }
    ensures { (off : List ℕ)
        → Storing p count (rewrite_stores p (segment_of p (view_of p off image.old pointers.old) 0 seg) to serial.0)
        (mk_disk image.old pointers.old) result (mk_disk image.new pointers.new) }
{
    let headed = disk_zones::header_stores(p, image, pointers, to, serial, copied, count)?;
    let moved = move_stripes(p, image, pointers, seg, to, headed)?;
    disk_zones::reset_stores(p, pointers, seg, moved)
}
