// Footer blocks: made from a zone's spares, and stored (01, What a zone holds; Landing; Restart, 4).
#![tactic(auto)]

ghost use Rattle.std.specs.Prelude.{◌≡◌, true, List, map, ℕ, ◌+◌, ◌-◌, ◌*◌, min, ◌≤◌, ◌<◌, length, take, drop};
ghost use Rattle.spec.specs.Drives.{view_of, mk_disk, zone_at, pointer_of, store_disk, store_all, spares_of, footer_stores};
ghost use Rattle.spec.specs.Layout.{footer_block};
ghost use Rattle.spec.specs.Lists.{up_from};
ghost use Rattle.spec.specs.Params.{in_range, per_footer, footers, capacity, image_len, pointers_len};
ghost use Rattle.law_views.specs.Views.{Whole};
ghost use Rattle.disk_zones.specs.Made.{Storing};
ghost use Rattle.disk_footers.specs.Feet.{spares_by};
ghost use Rattle.disk_footers.specs.Laid.{laid, zero_spares};

use disk_zones::TooFew;
use spec::Params;

// How many records footer block i holds.
fn records_of(p: Params, i: usize) -> usize
    requires p_value { in_range p ≡ true }
    requires i_bound { i < footers p }
    ensures { (result ≡ min (per_footer p) (p.S - i * per_footer p)) × (i * per_footer p + result ≤ p.S) × (result ≤ 204) }
{
    let per = disk_shape::per_footer(p);
    let rest = p.S - i * per;
    per.min(rest)
}

// 01, What a zone holds: footer block i, made from the zone's spares. A spare is held apart from image and block, so that the compiler asks nothing
// before it moves it.
pub fn make_footer(p: Params, image: &[u8], drive: usize, zone: usize, i: usize, block: &mut [u8])
    requires p_value { in_range p ≡ true }
    requires image_len { (length image.now ≡ image_len p) × (drive < p.N) × (zone < p.Z) × (i < footers p) × (length block.old ≡ p.B) }
    ensures { (off : List ℕ) (ps : List ℕ)
        → length ps ≡ pointers_len p
        → block.new ≡ footer_block p (spares_of (take p.S (drop 1 (zone_at (view_of p off image.now ps) drive zone).blocks))) i }
{
    disk_blocks::clear(block);
    let n = records_of(p, i);
    let per = disk_shape::per_footer(p);
    let mut at = disk_stored::spare_byte(p, drive, zone, 1 + i * per);
    for j in 0..n {
        let end = at + disk_shape::SPARE;
        let mut spare = [0u8; disk_shape::SPARE];
        disk_blocks::copy(&mut spare, &image[at..end]);
        disk_blocks::copy_part(block, disk_shape::SPARE * j, &spare);
        at += p.B + disk_shape::SPARE;
    }
}

// The bytes of footer blocks first, first + 1, .., n of them, from block at of the zone on; block is room for one. Spares stay, so that each
// is made from the zone as it came.
fn write_with(
    p: Params,
    image: &mut [u8],
    block: &mut [u8],
    drive: usize,
    zone: usize,
    at: usize,
    first: usize,
    n: usize,
)
    requires p_value { in_range p ≡ true }
    requires image_len { (length image.old ≡ image_len p) × (length block.old ≡ p.B) × (drive < p.N) × (zone < p.Z) × (first + n ≤ footers p) × (at + n ≤ capacity p) }
    ensures { image.new ≡ laid p drive zone 0 at (map (footer_block p (spares_by p image.old drive zone)) (up_from first n)) image.old }
{
    for i in 0..n {
        make_footer(p, image, drive, zone, first + i, block);
        let byte = disk_shape::block_byte(p, drive, zone, at + i);
        disk_blocks::copy_part(image, byte, block);
    }
}

// The same.
fn write_footers(
    p: Params,
    image: &mut [u8],
    drive: usize,
    zone: usize,
    at: usize,
    first: usize,
    n: usize,
)
    requires p_value { in_range p ≡ true }
    requires image_len { (length image.old ≡ image_len p) × (drive < p.N) × (zone < p.Z) × (first + n ≤ footers p) × (at + n ≤ capacity p) }
    ensures { image.new ≡ laid p drive zone 0 at (map (footer_block p (spares_by p image.old drive zone)) (up_from first n)) image.old }
{
    let mut block = [0u8; 4096];
    let b = p.B;
    write_with(p, image, &mut block[..b], drive, zone, at, first, n);
}

// The spares of n blocks from block at of the zone on, all zero.
fn clear_spares(p: Params, image: &mut [u8], drive: usize, zone: usize, at: usize, n: usize)
    requires p_value { in_range p ≡ true }
    requires image_len { (length image.old ≡ image_len p) × (drive < p.N) × (zone < p.Z) × (at + n ≤ capacity p) }
    ensures { image.new ≡ laid p drive zone p.B at (zero_spares n) image.old }
{
    for i in 0..n {
        let byte = disk_stored::spare_byte(p, drive, zone, at + i);
        disk_blocks::clear_part(image, byte, disk_shape::SPARE);
    }
}

// Footer blocks first, first + 1, .., n of them, stored: blocks first, then spares, then the pointer.
fn store_footers(
    p: Params,
    image: &mut [u8],
    pointers: &mut [u8],
    drive: usize,
    zone: usize,
    first: usize,
    n: usize,
)
    requires p_value { in_range p ≡ true }
    requires whole { Whole p (mk_disk image.old pointers.old) }
    requires drive_lt_n { (drive < p.N) × (zone < p.Z) × (0 < n) × (first + n ≤ footers p) × (pointer_of p pointers.old drive zone + n ≤ capacity p) }
    ensures { (off : List ℕ)
        → mk_disk image.new pointers.new
        ≡ store_all (store_disk p) (footer_stores p drive zone (zone_at (view_of p off image.old pointers.old) drive zone) first n)
        (mk_disk image.old pointers.old) }
{
    let at = disk_zones::pointer(p, pointers, drive, zone) as usize;
    write_footers(p, image, drive, zone, at, first, n);
    clear_spares(p, image, drive, zone, at, n);
    let byte = disk_shape::pointer_byte(p, drive, zone);
    bits_be::write_be32(pointers, byte, (at + n) as u32);
}

// 01, Store count: footer blocks first, first + 1, .., n of them, stored under a count; all are made from the zone as it came, also where the
// pointer is not behind the data.
pub fn footer_stores(
    p: Params,
    image: &mut [u8],
    pointers: &mut [u8],
    drive: usize,
    zone: usize,
    first: usize,
    n: usize,
    count: u64,
) -> Result<u64, TooFew>
    requires p_value { in_range p ≡ true }
    requires whole { Whole p (mk_disk image.old pointers.old) }
    requires drive_lt_n { (drive < p.N) × (zone < p.Z) × (first + n ≤ footers p) × (pointer_of p pointers.old drive zone + n ≤ capacity p) }
    ensures { (off : List ℕ)
        → Storing p count (footer_stores p drive zone (zone_at (view_of p off image.old pointers.old) drive zone) first n)
        (mk_disk image.old pointers.old) result (mk_disk image.new pointers.new) }
{
    let left = count.checked_sub(n as u64).ok_or(TooFew);
    let m = count.min(n as u64) as usize;
    if m == 0 {
        return left;
    }
    store_footers(p, image, pointers, drive, zone, first, m);
    left
}
