// The index of the serials in the headers of all present drives, as a value to read.
ghost use Rattle.std.specs.Prelude.{◌≡◌, true, ◌+◌, ◌*◌, ◌≤◌, ◌<◌, length};
ghost use Rattle.spec.specs.Params.{in_range};
ghost use Rattle.spec.specs.Segments.{low_drive};

use spec::Params;

// low: the lowest present drive. heads: to each drive the serials by zone. links: to each drive its buckets, and behind them its zones.
#[derive(Clone, Copy)]
pub(crate) struct Index<'a> {
    pub(crate) p: Params,
    pub(crate) gone: u8,
    pub(crate) low: usize,
    pub(crate) mask: usize,
    pub(crate) heads: &'a [u64],
    pub(crate) links: &'a [u16],
    pub(crate) ghost sound: { in_range p ≡ true },
    pub(crate) ghost lowest: { (low ≡ low_drive p gone) × (low < p.N) },
    pub(crate) ghost room: { (mask ≤ 2047) × (p.N * p.Z ≤ length heads.now) × (p.N * (mask + 1 + p.Z) ≤ length links.now) },
}

// The part of one drive.
#[derive(Clone, Copy)]
pub(crate) struct Buckets<'a> {
    pub(crate) p: Params,
    pub(crate) mask: usize,
    pub(crate) heads: &'a [u64],
    pub(crate) links: &'a [u16],
    pub(crate) ghost sound: { in_range p ≡ true },
    pub(crate) ghost room: { (mask ≤ 2047) × (p.Z ≤ length heads.now) × (mask + 1 + p.Z ≤ length links.now) },
}
