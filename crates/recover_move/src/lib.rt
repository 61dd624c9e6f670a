// The chunks of a stripe that a restart moves, and their stores (01, Restart, 4).
#![tactic(auto)]

ghost use Rattle.std.specs.Prelude.{◌≡◌, true, List, [], ◌∷◌, ℕ, ◌+◌, ◌<◌, length};
ghost use Rattle.spec.specs.Drives.{view_of, mk_disk, pointer_of, zone_on};
ghost use Rattle.spec.specs.Layout.{data_drive};
ghost use Rattle.spec.specs.Params.{in_range, data_count, capacity, image_len};
ghost use Rattle.spec.specs.Parity.{mk_piece, parity_piece};
ghost use Rattle.spec.specs.Restart.{renumbered, moved_pieces, moved_on, moved_stripe};
ghost use Rattle.spec.specs.Segments.{stored_piece};
ghost use Rattle.disk_records.specs.Record.{rec_val};
ghost use Rattle.law_views.specs.Views.{Whole, AllFit};
ghost use Rattle.recover_groups.specs.Groups.{AllEntered, segment_in, GroupReads};
ghost use Rattle.recover_move.specs.Moves.{OtherZones, MovesShown, moved_to};
ghost use Rattle.disk_zones.specs.Made.{Storing};
ghost use Rattle.law_basic.specs.Segs.{ZonesLow};

use disk_records::Record;
use disk_zones::TooFew;
use recover_groups::Group;
use spec::{Address, Params, Seg, Stamp};

// 01, Restart, 4: position i of stripe k of the group, under stripe number s: the block in the lent one, and the record.
fn moved_data(
    p: Params,
    image: &[u8],
    w: Group,
    at: &[u16],
    k: usize,
    i: usize,
    s: usize,
    block: &mut [u8],
) -> Record
    requires p_value { in_range p ≡ true }
    requires moves_shown { MovesShown p w at.now k }
    requires all_entered { AllEntered p 0 w.base at.now k }
    requires image_len { (length image.now ≡ image_len p) × (length block.old ≡ p.B) × (i < data_count p) × (s < 65536) }
    ensures { (off : List ℕ) (ps : List ℕ)
        → GroupReads p off image.now ps w at.now
        → mk_piece block.new (rec_val result) ≡ renumbered s
        (stored_piece (segment_in p off image.now ps w) (w.base + k) (data_drive p (w.base + k) i)) }
{
    let from = disk_shape::data_drive(p, w.base + k, i);
    disk_blocks::copy(block, recover_groups::chunk_block(p, image, w, at, from, k));
    let r = recover_groups::stored_rec(p, image, w, at, from, k);
    Record {
        stripe: s as u32,
        ..r
    }
}

// 01, Restart, 4: its parity, worked out anew.
fn moved_parity(
    p: Params,
    image: &[u8],
    w: Group,
    at: &[u16],
    k: usize,
    s: usize,
    block: &mut [u8],
) -> Record
    requires p_value { in_range p ≡ true }
    requires moves_shown { MovesShown p w at.now k }
    requires all_entered { AllEntered p 0 w.base at.now k }
    requires image_len { (length image.now ≡ image_len p) × (length block.old ≡ p.B) × (s < 65536) }
    ensures { (off : List ℕ) (ps : List ℕ)
        → GroupReads p off image.now ps w at.now
        → mk_piece block.new (rec_val result) ≡ parity_piece p s (moved_pieces p (segment_in p off image.now ps w) (w.base + k) s) }
{
    disk_blocks::clear(block);
    let mut r = Record {
        address: Address(0),
        stamp: Stamp(0),
        stripe: s as u32,
    };
    for i in 0..p.N - 1 {
        let from = disk_shape::data_drive(p, w.base + k, i);
        disk_blocks::xor_into(block, recover_groups::chunk_block(p, image, w, at, from, k));
        r = recover_groups::xor_rec(r, recover_groups::stored_rec(p, image, w, at, from, k));
    }
    r
}

// 01, Restart, 4: what a drive gets of stripe k of the group, as stripe s.
fn moved_chunk(
    p: Params,
    image: &[u8],
    w: Group,
    at: &[u16],
    k: usize,
    s: usize,
    drive: usize,
    block: &mut [u8],
) -> Record
    requires p_value { in_range p ≡ true }
    requires moves_shown { MovesShown p w at.now k }
    requires all_entered { AllEntered p 0 w.base at.now k }
    requires image_len { (length image.now ≡ image_len p) × (length block.old ≡ p.B) × (drive < p.N) × (s < 65536) }
    ensures { (off : List ℕ) (ps : List ℕ)
        → GroupReads p off image.now ps w at.now
        → mk_piece block.new (rec_val result) ≡ moved_on p (moved_pieces p (segment_in p off image.now ps w) (w.base + k) s) s drive }
{
    if disk_shape::is_data(p, s, drive) {
        let i = disk_shape::data_position(p, s, drive);
        return moved_data(p, image, w, at, k, i, s, block);
    }
    moved_parity(p, image, w, at, k, s, block)
}

// 01, Restart, 4: its store in segment to, under a store count; block is room for its block.
fn move_with(
    p: Params,
    image: &mut [u8],
    pointers: &mut [u8],
    w: Group,
    at: &[u16],
    k: usize,
    to: Seg,
    s: usize,
    drive: usize,
    block: &mut [u8],
    count: u64,
) -> Result<u64, TooFew>
    requires p_value { in_range p ≡ true }
    requires whole { Whole p (mk_disk image.old pointers.old) }
    requires moves_shown { MovesShown p w at.now k }
    requires all_entered { AllEntered p 0 w.base at.now k }
    requires by_index { (off : List ℕ) → GroupReads p off image.old pointers.old w at.now }
    requires drive_lt_n { (drive < p.N) × (zone_on to drive < p.Z) × (s < 65536) × (length block.old ≡ p.B) × (pointer_of p pointers.old drive (zone_on to drive) < capacity p) }
    ensures { (off : List ℕ)
        → Storing p count (moved_to p (segment_in p off image.old pointers.old w) to (w.base + k) s drive ∷ [])
        (mk_disk image.old pointers.old) result (mk_disk image.new pointers.new) }
{
    let mut spare = [0u8; disk_shape::SPARE];
    let r = moved_chunk(p, image, w, at, k, s, drive, block);
    disk_records::write_record(&mut spare, r);
    let zone = disk_shape::zone_on(p, to, drive);
    disk_zones::put_limited(p, image, pointers, drive, zone, block, &spare, count)
}

// The same, with room of its own.
fn move_chunk(
    p: Params,
    image: &mut [u8],
    pointers: &mut [u8],
    w: Group,
    at: &[u16],
    k: usize,
    to: Seg,
    s: usize,
    drive: usize,
    count: u64,
) -> Result<u64, TooFew>
    requires p_value { in_range p ≡ true }
    requires whole { Whole p (mk_disk image.old pointers.old) }
    requires moves_shown { MovesShown p w at.now k }
    requires all_entered { AllEntered p 0 w.base at.now k }
    requires by_index { (off : List ℕ) → GroupReads p off image.old pointers.old w at.now }
    requires drive_lt_n { (drive < p.N) × (zone_on to drive < p.Z) × (s < 65536) × (pointer_of p pointers.old drive (zone_on to drive) < capacity p) }
    ensures { (off : List ℕ)
        → Storing p count (moved_to p (segment_in p off image.old pointers.old w) to (w.base + k) s drive ∷ [])
        (mk_disk image.old pointers.old) result (mk_disk image.new pointers.new) }
{
    let mut block = [0u8; 4096];
    let b = p.B;
    move_with(
        p,
        image,
        pointers,
        w,
        at,
        k,
        to,
        s,
        drive,
        &mut block[..b],
        count,
    )
}

// 01, Restart, 4: stripe k of the group as stripe s of segment to, by drive, under a store count.
pub fn move_stripe(
    p: Params,
    image: &mut [u8],
    pointers: &mut [u8],
    w: Group,
    at: &[u16],
    k: usize,
    to: Seg,
    s: usize,
    count: u64,
) -> Result<u64, TooFew>
    requires p_value { in_range p ≡ true }
    requires whole { Whole p (mk_disk image.old pointers.old) }
    requires moves_shown { MovesShown p w at.now k }
    requires all_entered { AllEntered p 0 w.base at.now k }
    requires by_index { (off : List ℕ) → GroupReads p off image.old pointers.old w at.now }
    requires zones_low { ZonesLow p 0 to × (s < 65536) × OtherZones p to w.seg }
    requires by_index_2 { (off : List ℕ) → AllFit p (view_of p off image.old pointers.old) (moved_stripe p (segment_in p off image.old pointers.old w) to (w.base + k) s) }
    ensures { (off : List ℕ)
        → Storing p count (moved_stripe p (segment_in p off image.old pointers.old w) to (w.base + k) s)
        (mk_disk image.old pointers.old) result (mk_disk image.new pointers.new) }
{
    let mut left = count;
    for d in 0..p.N {
        left = move_chunk(p, image, pointers, w, at, k, to, s, d, left)?;
    }
    Ok(left)
}
