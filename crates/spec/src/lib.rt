// The definitions of document 01 are in specs/. Here are the types that definitions and code share, and the worked examples as a contract.
#![tactic(auto)]

ghost use Rattle.std.specs.Prelude.{◌≡◌};
ghost use Rattle.spec.specs.Examples.{Examples};
ghost use Rattle.spec.specs.Counts.{padding_address, never_place, first_count, last_count};
ghost use Rattle.spec.specs.declared.Seg.{Seg};

// 01, The array: N drives, blocks of B bytes, Z zones a drive, S stripes a segment, groups of G stripes, L addresses.
#[derive(Clone, Copy)]
pub struct Params {
    pub N: usize,
    pub B: usize,
    pub Z: usize,
    pub S: usize,
    pub G: usize,
    pub L: usize,
}

// 01, The array: four counts that never meet in one sum.
#[derive(Clone, Copy)]
pub struct Address(pub u64);

#[derive(Clone, Copy)]
pub struct Place(pub u32);

#[derive(Clone, Copy)]
pub struct Stamp(pub u64);

#[derive(Clone, Copy)]
pub struct Serial(pub u64);

impl Address {
    pub const PADDING: Address = Address(0xffff_ffff_ffff_ffff);

    pub fn new(n: u64) -> Self
        ensures { result.0 ≡ n }
    {
        Address(n)
    }

    // The address of the blocks that closing adds.
    pub fn padding() -> Self
        ensures { result.0 ≡ padding_address }
    {
        Self::PADDING
    }
}

impl Place {
    pub const NEVER: Place = Place(0xffff_ffff);

    pub fn new(n: u32) -> Self
        ensures { result.0 ≡ n }
    {
        Place(n)
    }

    // The place of an address that was never written.
    pub fn never() -> Self
        ensures { result.0 ≡ never_place }
    {
        Self::NEVER
    }
}

impl Stamp {
    pub const FIRST: Stamp = Stamp(1);

    pub const LAST: Stamp = Stamp(0xffff_ffff_ffff_ffff);

    pub fn new(n: u64) -> Self
        ensures { result.0 ≡ n }
    {
        Stamp(n)
    }

    pub fn first() -> Self
        ensures { result.0 ≡ first_count }
    {
        Self::FIRST
    }

    pub fn last() -> Self
        ensures { result.0 ≡ last_count }
    {
        Self::LAST
    }
}

impl Serial {
    pub const FIRST: Serial = Serial(1);

    pub const LAST: Serial = Serial(0xffff_ffff_ffff_ffff);

    pub fn new(n: u64) -> Self
        ensures { result.0 ≡ n }
    {
        Serial(n)
    }

    pub fn first() -> Self
        ensures { result.0 ≡ first_count }
    {
        Self::FIRST
    }

    pub fn last() -> Self
        ensures { result.0 ≡ last_count }
    {
        Self::LAST
    }
}

// 01, What a zone holds: a segment, by the zone that it has on each drive; 0 where there is no such drive.
#[derive(Clone, Copy)]
pub struct Seg {
    pub zones: [u32; 8],
}

// 01, Write: the state between calls; all zeros is the state that a cut leaves. live: 1 after a finished restart; missing: a mask of
// drives; stamp, serial: the last given out; opened: the serial of the open segment, or 0; next: its next stripe number. For each of the eight stripes in flight: its number, how
// many data positions are filled
// (0: the eighth is free), which of them are writes (a mask), which drives have it (a mask), and, eight to a stripe, the addresses and
// stamps by data position and the offsets at which it landed by drive.
#[derive(Clone, Copy)]
pub struct State {
    pub live: u8,
    pub missing: u8,
    pub stamp: Stamp,
    pub serial: Serial,
    pub opened: u64,
    pub next: u32,
    pub numbers: [u32; 8],
    pub filled: [u8; 8],
    pub writes: [u8; 8],
    pub landed: [u8; 8],
    pub addresses: [u64; 64],
    pub stamps: [u64; 64],
    pub offsets: [u32; 64],
}

// 01, Restart: what a restart did; today the number of uncounted stripes.
#[derive(Clone, Copy)]
pub struct Report {
    pub uncounted: u64,
}

// 01, The calls: what a call answers. specs/Answers.antt gives 01's number and values for every case.
#[derive(Clone, Copy)]
pub enum Answer {
    Refused(u64),
    BadZone(u64),
    Cut,
    Sent(Stamp, u64, u64),
    Landed(u64),
    Closed(u64),
    Copied(Stamp, u64, u64),
    Reset(u64),
    Part(u64, Stamp),
    Never,
    Lost(Stamp),
    Filled(Stamp),
    Restarted(Report),
    Rebuilt,
    Nothing,
}

// 01, The small box: M1 to M8, of the definitions.
pub fn examples()
    ensures { Examples }
{}

// What a call leaves beside the lent buffers.
#[derive(Clone, Copy)]
pub struct Done {
    pub answer: Answer,
    pub state: State,
}

// An answer as numbers: its kind, and up to three values.
#[repr(C)]
#[derive(Clone, Copy)]
pub struct Told {
    pub kind: u64,
    pub first: u64,
    pub second: u64,
    pub third: u64,
}
