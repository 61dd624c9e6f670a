// What every public call shares: its result, its checks, its cut (01, Store count; Refusals).
#![tactic(auto)]

ghost use Rattle.std.specs.Prelude.{◌≡◌, true, not, ◌≤◌, length, replicate};
ghost use Rattle.spec.specs.declared.State.{State as StateOf};
ghost use Rattle.spec.specs.declared.Answer.TheVariants.{Cut};
ghost use Rattle.spec.specs.Calls.{ruled};
ghost use Rattle.spec.specs.Drives.{mk_disk};
ghost use Rattle.spec.specs.Engine.{lent_ok_of};
ghost use Rattle.spec.specs.Lists.Opt.{none};
ghost use Rattle.spec.specs.Memory.{mk_memory, zero_state};
ghost use Rattle.spec.specs.Params.{in_range, most_with, offline_len};
ghost use Rattle.mem_calls.specs.Left.{answer_of, checked};
ghost use Rattle.mem_calls.specs.Listed.{list_rule_of};

use spec::{Answer, Done, Params, State};

// 01, Refusals: what a call is refused for, by its number; 9 gives the lowest bad zone too. 02, item 4, adds 10.
#[derive(Clone, Copy, Debug, PartialEq, Eq)]
pub enum Refusal {
    Range,
    Lengths,
    Missing,
    Address,
    NotDue,
    NoCount,
    Wait,
    Full,
    BadZone(u64),
    FewZones,
}

impl From<Refusal> for Answer {
    ghost from_gives = { λ r a. a ≡ answer_of r };

    fn from(why: Refusal) -> Answer {
        match why {
            Refusal::Range => Answer::Refused(1),
            Refusal::Lengths => Answer::Refused(2),
            Refusal::Missing => Answer::Refused(3),
            Refusal::Address => Answer::Refused(4),
            Refusal::NotDue => Answer::Refused(5),
            Refusal::NoCount => Answer::Refused(6),
            Refusal::Wait => Answer::Refused(7),
            Refusal::Full => Answer::Refused(8),
            Refusal::BadZone(zone) => Answer::BadZone(zone),
            Refusal::FewZones => Answer::Refused(10),
        }
    }
}

// 01, Refusals, 2: the lent buffers' lengths; 02, item 4: the list's too.
pub fn lent_ok(
    p: Params,
    offline: &[u8],
    image: &[u8],
    pointers: &[u8],
    addresses: &[u8],
    compact: &[u8],
    inflight: &[u8],
) -> Result<(), Refusal>
    requires { in_range p ≡ true }
    ensures { (st : StateOf) → checked result ≡ ruled 2 (not (lent_ok_of p offline.now (mk_disk image.now pointers.now)
        (mk_memory st addresses.now compact.now inflight.now))) none }
{
    if offline.len() != disk_shape::offline_len(p)
        || image.len() != disk_shape::image_len(p)
        || pointers.len() != disk_shape::pointers_len(p)
    {
        return Err(Refusal::Lengths);
    }
    if addresses.len() != disk_shape::addresses_len(p)
        || compact.len() != disk_shape::compact_len(p)
        || inflight.len() != disk_shape::inflight_len(p)
    {
        return Err(Refusal::Lengths);
    }
    Ok(())
}

// 02, item 4: with so many good zones on each drive no call refuses the list. Where few bytes are to be looked at it is all of them.
fn enough(p: Params) -> usize
    requires { in_range p ≡ true }
    ensures { (4 ≤ result) × (result ≤ p.Z) × (p.L ≤ most_with p result) }
{
    if p.Z <= 224 {
        return p.Z;
    }
    let segment = p.S * disk_shape::data_count(p);
    4 + (p.L - 1) / segment
}

// 02, item 4: 10 where a drive has fewer than four good zones, else 1 where L is above the narrow bound.
pub fn list_rule(p: Params, offline: &[u8]) -> Result<(), Refusal>
    requires p_value { in_range p ≡ true }
    requires offline_len { length offline.now ≡ offline_len p }
    ensures { checked result ≡ list_rule_of p offline.now }
{
    let n = disk_zones::good_count(p, offline, enough(p));
    if n < 4 {
        return Err(Refusal::FewZones);
    }
    if disk_shape::most_with(p, n) < p.L {
        return Err(Refusal::Range);
    }
    Ok(())
}

// 01, Store count: tables and state are all zeros, other buffers as they came.
pub fn cut(addresses: &mut [u8], compact: &mut [u8]) -> Done
    ensures answer_value { (result.answer ≡ Cut) × (result.state ≡ zero_state) }
    ensures addresses_after { (addresses.new ≡ replicate (length addresses.old) 0) × (compact.new ≡ replicate (length compact.old) 0) }
{
    disk_blocks::clear(addresses);
    disk_blocks::clear(compact);
    let state = mem_state::zero_state();
    Done {
        answer: Answer::Cut,
        state,
    }
}
