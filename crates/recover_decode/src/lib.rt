// The lost chunks of a drive, decoded and stored (01, Rebuild).
#![tactic(auto)]

ghost use Rattle.std.specs.Prelude.{◌≡◌, true, false, List, [], ◌∷◌, ℕ, ◌+◌, ◌%◌, ◌<◌, length};
ghost use Rattle.recover_decode.specs.Moving.{Lacks};
ghost use Rattle.spec.specs.Drives.{view_of, mk_disk, pointer_of, zone_on, sealed_in};
ghost use Rattle.spec.specs.Lists.{up_from, below};
ghost use Rattle.spec.specs.Params.{in_range, capacity};
ghost use Rattle.spec.specs.Segments.{segment_of, counts};
ghost use Rattle.law_basic.specs.Segs.{ZonesLow};
ghost use Rattle.recover_groups.specs.Groups.{group_len, recs_fault, segment_in, GroupReads};
ghost use Rattle.recover_reset.specs.Lost.{lost_store, lost_stores};
ghost use Rattle.law_views.specs.Views.{Whole, AllFit};
ghost use Rattle.disk_zones.specs.Made.{Storing};

use disk_zones::TooFew;
use recover_groups::Group;
use spec::{Params, Seg};

// 01, Rebuild: the chunk of counted stripe k of the group, under a store count; block is room for it.
fn put_lost_with(
    p: Params,
    image: &mut [u8],
    pointers: &mut [u8],
    block: &mut [u8],
    w: Group,
    at: &[u16],
    k: usize,
    drive: usize,
    count: u64,
) -> Result<u64, TooFew>
    requires p_value { in_range p ≡ true }
    requires whole { Whole p (mk_disk image.old pointers.old) }
    requires lacks { Lacks p w.gone drive }
    requires block_len { (length block.old ≡ p.B)
        × (length at.now ≡ 2048)
        × ZonesLow p w.gone w.seg
        × (w.base < p.S)
        × (k < group_len p w.base)
        × (pointer_of p pointers.old drive (zone_on w.seg drive) < capacity p)
        × (zone_on w.seg drive < p.Z) }
    requires by_index { (off : List ℕ) → GroupReads p off image.old pointers.old w at.now }
    requires by_index_2 { (off : List ℕ) → counts p w.gone (segment_in p off image.old pointers.old w) (w.base + k) ≡ true }
    ensures { (off : List ℕ)
        → Storing p count (lost_store p w.gone drive (segment_in p off image.old pointers.old w) (w.base + k) ∷ [])
        (mk_disk image.old pointers.old) result (mk_disk image.new pointers.new) }
{
    recover_groups::lost_block(p, image, w, at, drive, k, block);
    let q = recover_groups::lost_rec(p, image, w, at, drive, k);
    let mut spare = [0u8; disk_shape::SPARE];
    disk_records::write_record(&mut spare, q);
    let zone = disk_shape::zone_on(p, w.seg, drive);
    disk_zones::put_limited(p, image, pointers, drive, zone, block, &spare, count)
}

// The same.
fn put_lost(
    p: Params,
    image: &mut [u8],
    pointers: &mut [u8],
    w: Group,
    at: &[u16],
    k: usize,
    drive: usize,
    count: u64,
) -> Result<u64, TooFew>
    requires p_value { in_range p ≡ true }
    requires whole { Whole p (mk_disk image.old pointers.old) }
    requires lacks { Lacks p w.gone drive }
    requires at_len { (length at.now ≡ 2048) × ZonesLow p w.gone w.seg × (w.base < p.S) × (k < group_len p w.base)
        × (pointer_of p pointers.old drive (zone_on w.seg drive) < capacity p)
        × (zone_on w.seg drive < p.Z) }
    requires by_index { (off : List ℕ) → GroupReads p off image.old pointers.old w at.now }
    requires by_index_2 { (off : List ℕ) → counts p w.gone (segment_in p off image.old pointers.old w) (w.base + k) ≡ true }
    ensures { (off : List ℕ)
        → Storing p count (lost_store p w.gone drive (segment_in p off image.old pointers.old w) (w.base + k) ∷ [])
        (mk_disk image.old pointers.old) result (mk_disk image.new pointers.new) }
{
    let mut block = [0u8; 4096];
    let b = p.B;
    put_lost_with(p, image, pointers, &mut block[..b], w, at, k, drive, count)
}

// 01, Rebuild: the chunk of stripe k of the group, if it counts.
fn put_if(
    p: Params,
    image: &mut [u8],
    pointers: &mut [u8],
    w: Group,
    at: &[u16],
    k: usize,
    drive: usize,
    count: u64,
) -> Result<u64, TooFew>
    requires p_value { in_range p ≡ true }
    requires whole { Whole p (mk_disk image.old pointers.old) }
    requires lacks { Lacks p w.gone drive }
    requires at_len { (length at.now ≡ 2048) × ZonesLow p w.gone w.seg × (w.base < p.S) × (k < group_len p w.base)
        × (zone_on w.seg drive < p.Z) }
    requires by_index { (off : List ℕ) → GroupReads p off image.old pointers.old w at.now }
    requires by_index_2 { (off : List ℕ)
        → AllFit p (view_of p off image.old pointers.old) (lost_stores p w.gone drive (segment_in p off image.old pointers.old w) ((w.base + k) ∷ [])) }
    ensures { (off : List ℕ)
        → Storing p count (lost_stores p w.gone drive (segment_in p off image.old pointers.old w) ((w.base + k) ∷ []))
        (mk_disk image.old pointers.old) result (mk_disk image.new pointers.new) }
{
    if !recover_groups::counts(p, w.gone, at, k) {
        return Ok(count);
    }
    put_lost(p, image, pointers, w, at, k, drive, count)
}

// 01, Rebuild: the chunks of a group, in rising order of the stripes; at is room for its index.
fn put_group(
    p: Params,
    image: &mut [u8],
    pointers: &mut [u8],
    w: Group,
    at: &mut [u16],
    drive: usize,
    count: u64,
) -> Result<u64, TooFew>
    requires p_value { in_range p ≡ true }
    requires whole { Whole p (mk_disk image.old pointers.old) }
    requires lacks { Lacks p w.gone drive }
    requires at_len { (length at.old ≡ 2048) × ZonesLow p w.gone w.seg × (w.base < p.S) × (w.base % p.G ≡ 0) × (zone_on w.seg drive < p.Z) }
    requires by_index { (off : List ℕ) → w.full ≡ sealed_in p (view_of p off image.old pointers.old) w.gone w.seg }
    requires by_index_2 { (off : List ℕ) → recs_fault p w.gone (segment_in p off image.old pointers.old w) ≡ false }
    requires by_index_3 { (off : List ℕ)
        → AllFit p (view_of p off image.old pointers.old)
        (lost_stores p w.gone drive (segment_in p off image.old pointers.old w) (up_from w.base (group_len p w.base))) }
    ensures { (off : List ℕ)
        → Storing p count
        (lost_stores p w.gone drive (segment_in p off image.old pointers.old w) (up_from w.base (group_len p w.base)))
        (mk_disk image.old pointers.old) result (mk_disk image.new pointers.new) }
{
    recover_groups::index_group(p, image, pointers, w, at);
    let len = recover_groups::group_len(p, w.base);
    let mut left = count;
    for k in 0..len {
        left = put_if(p, image, pointers, w, at, k, drive, left)?;
    }
    Ok(left)
}

// 01, Rebuild: the chunk of each counted stripe of a segment, in rising order; at is room for an index.
fn put_groups_with(
    p: Params,
    image: &mut [u8],
    pointers: &mut [u8],
    at: &mut [u16],
    gone: u8,
    seg: Seg,
    full: bool,
    drive: usize,
    count: u64,
) -> Result<u64, TooFew>
    requires p_value { in_range p ≡ true }
    requires whole { Whole p (mk_disk image.old pointers.old) }
    requires lacks { Lacks p gone drive }
    requires at_len { (length at.old ≡ 2048) × ZonesLow p gone seg × (zone_on seg drive < p.Z) }
    requires by_index { (off : List ℕ) → full ≡ sealed_in p (view_of p off image.old pointers.old) gone seg }
    requires by_index_2 { (off : List ℕ) → recs_fault p gone (segment_of p (view_of p off image.old pointers.old) gone seg) ≡ false }
    requires by_index_3 { (off : List ℕ)
        → AllFit p (view_of p off image.old pointers.old) (lost_stores p gone drive (segment_of p (view_of p off image.old pointers.old) gone seg) (below p.S)) }
    ensures { (off : List ℕ)
        → Storing p count (lost_stores p gone drive (segment_of p (view_of p off image.old pointers.old) gone seg) (below p.S))
        (mk_disk image.old pointers.old) result (mk_disk image.new pointers.new) }
{
    let mut left = count;
    for base in (0..p.S).step_by(p.G) {
        let w = Group {
            gone,
            seg,
            full,
            base,
        };
        left = put_group(p, image, pointers, w, at, drive, left)?;
    }
    Ok(left)
}

// 01, Rebuild: the chunk of each counted stripe of a segment, in rising order, under a store count; full: the survivors' zones are full.
pub fn put_groups(
    p: Params,
    image: &mut [u8],
    pointers: &mut [u8],
    gone: u8,
    seg: Seg,
    full: bool,
    drive: usize,
    count: u64,
) -> Result<u64, TooFew>
    requires p_value { in_range p ≡ true }
    requires whole { Whole p (mk_disk image.old pointers.old) }
    requires lacks { Lacks p gone drive }
    requires zones_low { ZonesLow p gone seg × (zone_on seg drive < p.Z) }
    requires by_index { (off : List ℕ) → full ≡ sealed_in p (view_of p off image.old pointers.old) gone seg }
    requires by_index_2 { (off : List ℕ) → recs_fault p gone (segment_of p (view_of p off image.old pointers.old) gone seg) ≡ false }
    requires by_index_3 { (off : List ℕ)
        → AllFit p (view_of p off image.old pointers.old) (lost_stores p gone drive (segment_of p (view_of p off image.old pointers.old) gone seg) (below p.S)) }
    ensures { (off : List ℕ)
        → Storing p count (lost_stores p gone drive (segment_of p (view_of p off image.old pointers.old) gone seg) (below p.S))
        (mk_disk image.old pointers.old) result (mk_disk image.new pointers.new) }
{
    let mut at = [0u16; 2048];
    put_groups_with(p, image, pointers, &mut at, gone, seg, full, drive, count)
}
