// The rows of a segment in the compact table, as the drives say them (01, What a zone holds; Restart, 3).
#![tactic(auto)]

ghost use Rattle.std.specs.Prelude.{◌≡◌, true, cond, List, map, ℕ, ◌+◌, ◌%◌, ◌≤◌, ◌<◌, length};
ghost use Rattle.spec.specs.Bytes.{splice};
ghost use Rattle.spec.specs.Drives.{view_of, mk_disk, zone_at, zone_on};
ghost use Rattle.spec.specs.Layout.{compact_entry};
ghost use Rattle.spec.specs.Lists.{below, is_in};
ghost use Rattle.spec.specs.Memory.{compact_at};
ghost use Rattle.spec.specs.Params.{in_range, image_len, pointers_len, compact_len};
ghost use Rattle.spec.specs.Segments.{records_in, compact_row};
ghost use Rattle.law_basic.specs.Segs.{ZonesLow};
ghost use Rattle.law_views.specs.Views.{Whole};
ghost use Rattle.recover_compact.specs.Compacts.{entry_said, SegmentShown, Else};

use spec::{Params, Seg};

// The first stripe of a group at or behind base, still at or below offset o.
fn base_at(p: Params, base: usize, o: usize) -> usize
    requires p_value { in_range p ≡ true }
    requires base_le_o { (base ≤ o) × (o < p.S) × (base % p.G ≡ 0) }
    ensures { (result ≤ o) × (result % p.G ≡ 0) }
{
    if o - base < p.G {
        return base;
    }
    base + p.G
}

// What the table holds of a stripe, which mostly is of the group from base on: then nothing is divided.
fn entry_near(p: Params, base: usize, s: usize) -> u8
    requires p_value { in_range p ≡ true }
    requires g_value { base % p.G ≡ 0 }
    ensures { result ≡ compact_entry p s }
{
    if s < base {
        return disk_shape::compact_entry(p, s);
    }
    let k = s - base;
    if k < p.G {
        return k as u8;
    }
    disk_shape::compact_entry(p, s)
}

// The entries of the first n data blocks of a zone, from index row of the table on.
fn entries(
    p: Params,
    image: &[u8],
    compact: &mut [u8],
    full: bool,
    drive: usize,
    zone: usize,
    row: usize,
    n: usize,
)
    requires p_value { in_range p ≡ true }
    requires image_len { (length image.now ≡ image_len p) × (drive < p.N) × (zone < p.Z) × (n ≤ p.S) × (row + p.S ≤ length compact.old) }
    ensures { (off : List ℕ) (ps : List ℕ)
        → length ps ≡ pointers_len p
        → compact.new ≡ splice compact.old row
        (map (entry_said p full (zone_at (view_of p off image.now ps) drive zone)) (below n)) }
{
    let mut base = 0;
    for o in 0..n {
        let r = disk_stored::record_in(p, image, full, drive, zone, o);
        base = base_at(p, base, o);
        compact[row + o] = entry_near(p, base, r.stripe as usize);
    }
}

// 01, What a zone holds: the row of a segment's zone on a present drive; full: the segment is sealed.
fn row(
    p: Params,
    image: &[u8],
    pointers: &[u8],
    compact: &mut [u8],
    full: bool,
    drive: usize,
    zone: usize,
)
    requires p_value { in_range p ≡ true }
    requires whole { Whole p (mk_disk image.now pointers.now) }
    requires compact_len { (length compact.old ≡ compact_len p) × (drive < p.N) × (zone < p.Z) }
    ensures { (off : List ℕ)
        → compact.new
        ≡ splice compact.old (compact_at p drive zone 0)
        (compact_row p (records_in p full (zone_at (view_of p off image.now pointers.now) drive zone))) }
{
    let at = disk_shape::compact_at(p, drive, zone, 0);
    let n = disk_stored::data_stored(p, pointers, drive, zone);
    entries(p, image, compact, full, drive, zone, at, n);
    disk_blocks::clear_part(compact, at + n, p.S - n);
}

// The same of any drive; a missing one has no row.
fn row_any(
    p: Params,
    image: &[u8],
    pointers: &[u8],
    compact: &mut [u8],
    gone: u8,
    full: bool,
    drive: usize,
    segment: Seg,
)
    requires p_value { in_range p ≡ true }
    requires whole { Whole p (mk_disk image.now pointers.now) }
    requires compact_len { (length compact.old ≡ compact_len p) × (drive < p.N) × ZonesLow p gone segment }
    ensures { (off : List ℕ)
        → compact.new
        ≡ cond (is_in gone drive) compact.old
        (splice compact.old (compact_at p drive (zone_on segment drive) 0)
        (compact_row p (records_in p full (zone_at (view_of p off image.now pointers.now) drive (zone_on segment drive))))) }
{
    if bits_masks::has_drive(gone, drive) {
        return;
    }
    row(
        p,
        image,
        pointers,
        compact,
        full,
        drive,
        disk_shape::zone_on(p, segment, drive),
    );
}

// 01, What a zone holds: the rows of a segment, by drive, whatever they held; a missing drive's row stays as it is.
pub fn rows(p: Params, image: &[u8], pointers: &[u8], compact: &mut [u8], gone: u8, segment: Seg)
    requires p_value { in_range p ≡ true }
    requires whole { Whole p (mk_disk image.now pointers.now) }
    requires compact_len { (length compact.old ≡ compact_len p) × ZonesLow p gone segment }
    ensures by_index { (off : List ℕ)
        → SegmentShown p (view_of p off image.now pointers.now) gone segment compact.new }
    ensures fact { Else p gone segment compact.old compact.new }
{
    let full = disk_zones::is_sealed(p, pointers, gone, segment);
    for d in 0..p.N {
        row_any(p, image, pointers, compact, gone, full, d, segment);
    }
}
