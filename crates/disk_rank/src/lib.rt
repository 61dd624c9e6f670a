// Which record of an address holds (01, The calls, last paragraph).
#![tactic(auto, unfolding(spec::specs::Rank::beats))]

ghost use Rattle.std.specs.Prelude.{◌≡◌};
ghost use Rattle.spec.specs.Rank.{beats, better, place_or};
ghost use Rattle.disk_rank.specs.Ranked.{ranked, ranked_best};

use spec::{Address, Place, Serial, Stamp};

// 01, The calls: a completed record of an address.
#[derive(Clone, Copy)]
pub struct Cand {
    pub address: Address,
    pub stamp: Stamp,
    pub serial: Serial,
    pub drive: usize,
    pub offset: usize,
    pub place: Place,
}

// 01, The calls: greater stamp, then greater serial, then lower drive, then lower offset.
pub fn beats(a: Cand, b: Cand) -> bool
    ensures { result ≡ beats (ranked a) (ranked b) }
{
    b.stamp.0 < a.stamp.0
        || (a.stamp.0 == b.stamp.0
            && (b.serial.0 < a.serial.0
                || (a.serial.0 == b.serial.0
                    && (a.drive < b.drive || (a.drive == b.drive && a.offset < b.offset)))))
}

// The better of what holds so far, if anything does, and one more.
#[tactic(auto, using(crate::specs::Ranked::better_first, crate::specs::Ranked::better_new, crate::specs::Ranked::better_old))]
pub fn better(b: Option<Cand>, c: Cand) -> Option<Cand>
    ensures { ranked_best result ≡ better (ranked_best b) (ranked c) }
{
    match b {
        Some(h) if !beats(c, h) => b,
        _ => Some(c),
    }
}

// 01, The array: its place, or never written.
#[tactic(auto, using(crate::specs::Ranked::place_none, crate::specs::Ranked::place_some))]
pub fn place_or(b: Option<Cand>) -> Place
    ensures { result.0 ≡ place_or (ranked_best b) }
{
    match b {
        Some(h) => h.place,
        None => Place::NEVER,
    }
}
