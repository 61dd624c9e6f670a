// Reclaim (01, Reclaim).
#![tactic(auto)]

ghost use Rattle.std.specs.Prelude.{◌≡◌, true, cond, ◌&&◌, List, [], ◌∷◌, ◌++◌, ℕ, ◌<◌, length, IfOk};
ghost use Rattle.mem_calls.specs.Left.{checked};
ghost use Rattle.spec.specs.declared.Answer.TheVariants.{BadZone};
ghost use Rattle.spec.specs.declared.State.{State as StateOf};
ghost use Rattle.spec.specs.Calls.{first_refusal, outcome};
ghost use Rattle.spec.specs.Calls.Check.{zones};
ghost use Rattle.spec.specs.Calls.Verdict.{due};
ghost use Rattle.spec.specs.Drives.{View, view_of, mk_disk, store_disk};
ghost use Rattle.spec.specs.Engine.{call_disk};
ghost use Rattle.spec.specs.Engine.Call.{reclaim};
ghost use Rattle.spec.specs.Lists.Opt.{some};
ghost use Rattle.spec.specs.Memory.{mk_memory, state_faults, state_len, state_of};
ghost use Rattle.spec.specs.Params.{in_range, image_len, pointers_len, offline_len, addresses_len, compact_len, drives_of};
ghost use Rattle.spec.specs.Reclaim.{table_faults, victim, cleared, reset_plan};
ghost use Rattle.spec.specs.Write.{scarce};
ghost use Rattle.call_reclaim.specs.Choosing.{copy_rules, later_checks, Chose, CopyAt, reclaim_refusal};
ghost use Rattle.call_filling.specs.Aims.{aim_of};
ghost use Rattle.mem_rows.specs.Rows.{front_of, behind, after_change};
ghost use Rattle.call_reclaim_victim.specs.Looked.{Looked};
ghost use Rattle.call_reclaim_victim.specs.Outside.{is_outside};
ghost use Rattle.disk_drives.specs.Viewed.{viewed};
ghost use Rattle.law_basic.specs.Segs.{ZonesLow};

use call_filling::Aim;
use call_reclaim_victim::Chosen;
use disk_drives::Drives;
use mem_calls::Refusal;
use mem_rows::{Change, Front};
use spec::{Answer, Params, Place, Seg, State};

// ---- checks

// 01, Refusals, 8, of a copy: too few zones are empty.
fn copy_full(p: Params, pointers: &[u8], offline: &[u8], a: Aim) -> bool
    requires p_value { in_range p ≡ true }
    requires pointers_len { (length pointers.now ≡ pointers_len p) × (length offline.now ≡ offline_len p) }
    ensures { (im : List ℕ) → length im ≡ image_len p → result ≡ (a.opens && scarce p (view_of p offline.now im pointers.now) 1) }
{
    if !a.opens {
        return false;
    }
    call_filling::scarce(p, pointers, offline, 1)
}

// 01, Refusals, 6 to 8, of a copy; 02, item 3: full before waiting. f, a: the front of the state and where a block goes.
fn copy_rules(p: Params, pointers: &[u8], offline: &[u8], f: Front, a: Aim) -> Result<(), Refusal>
    requires p_value { in_range p ≡ true }
    requires pointers_len { (length pointers.now ≡ pointers_len p) × (length offline.now ≡ offline_len p) × (a ≡ aim_of p (behind f)) }
    ensures { (st : StateOf) (im : List ℕ)
        → f ≡ front_of st
        → length im ≡ image_len p
        → checked result ≡ first_refusal (copy_rules p (view_of p offline.now im pointers.now) st) }
{
    if call_filling::no_serial(f, a) {
        return Err(Refusal::NoCount);
    }
    let full = copy_full(p, pointers, offline, a);
    let wait = call_filling::must_wait(p, f, a);
    if full {
        return Err(Refusal::Full);
    }
    if wait {
        return Err(Refusal::Wait);
    }
    Ok(())
}

// 01, Refusals, 9: a state number out of range, or a place of the table that is no place of the image; both name zone 0.
fn has_fault(p: Params, bytes: &[u8], outside: bool) -> bool
    requires p_value { in_range p ≡ true }
    requires bytes_len { length bytes.now ≡ state_len }
    ensures { (v : View) (tb zs : List ℕ)
        → outside ≡ is_outside p v tb
        → first_refusal (zones (state_faults p (state_of bytes.now) ++ table_faults p v tb ++ zs) ∷ [])
        ≡ cond result (some (BadZone 0)) (first_refusal (zones zs ∷ [])) }
{
    if !mem_bounds::state_ok(p, bytes) {
        return true;
    }
    outside
}

// What reclaim does: reset a segment's zones, or copy the block at a place of a segment.
#[derive(Clone, Copy)]
pub enum Picked {
    Clear(Seg),
    Copy(Seg, Place),
}

// The checks from 5 on, of a segment with live blocks.
fn choose_copy(
    drives: &Drives<'_>,
    addresses: &[u8],
    bytes: &[u8],
    f: Front,
    a: Aim,
    seen: Chosen,
) -> Result<Place, Refusal>
    requires f_value { (f ≡ front_of (state_of bytes.now)) × (a ≡ aim_of drives.now.p (state_of bytes.now)) × (length bytes.now ≡ state_len) }
    requires looked { Looked drives.now.p (viewed drives.now) addresses.now (state_of bytes.now) seen × (seen.zone < drives.now.p.Z) × (0 < seen.live) }
    ensures check_value { checked result ≡ first_refusal (later_checks drives.now.p (viewed drives.now) (state_of bytes.now) addresses.now
        (victim drives.now.p (viewed drives.now) addresses.now)) }
    ensures copy_at { IfOk result (λ q. CopyAt drives.now.p (viewed drives.now) (state_of bytes.now)
        (victim drives.now.p (viewed drives.now) addresses.now) seen.segment q.0) }
{
    let Some(first) = seen.first else {
        return Err(Refusal::NotDue);
    };
    copy_rules(drives.p, drives.pointers, drives.offline, f, a)?;
    if has_fault(drives.p, bytes, seen.outside) {
        return Err(Refusal::BadZone(0));
    }
    if let Some(zone) = seen.odd {
        return Err(Refusal::BadZone(zone as u64));
    }
    Ok(first)
}

// 01, Refusals: the checks of reclaim in order, and which plan it is.
fn choose(
    p: Params,
    offline: &[u8],
    image: &[u8],
    pointers: &[u8],
    addresses: &[u8],
    compact: &[u8],
    inflight: &[u8],
    bytes: &[u8],
    missing: u8,
    f: Front,
    a: Aim,
) -> Result<Picked, Refusal>
    requires { (f ≡ front_of (state_of bytes.now)) × (a ≡ aim_of p (state_of bytes.now)) × (missing ≡ (state_of bytes.now).missing) × (length bytes.now ≡ state_len) }
    ensures check_value { checked result ≡ reclaim_refusal p offline.now (mk_disk image.now pointers.now)
        (mk_memory (state_of bytes.now) addresses.now compact.now inflight.now) }
    ensures chosen { IfOk result (λ x. Chose p (view_of p offline.now image.now pointers.now) (state_of bytes.now)
        (victim p (view_of p offline.now image.now pointers.now) addresses.now) x) }
{
    if !disk_shape::in_range(p) {
        return Err(Refusal::Range);
    }
    mem_calls::lent_ok(p, offline, image, pointers, addresses, compact, inflight)?;
    mem_calls::list_rule(p, offline)?;
    if missing != 0 {
        return Err(Refusal::Missing);
    }
    let drives = Drives {
        p,
        image,
        pointers,
        offline,
    };
    let seen = call_reclaim_victim::look(&drives, addresses, bytes);
    if p.Z <= seen.zone {
        return Err(Refusal::NotDue);
    }
    if 0 < seen.live {
        let q = choose_copy(&drives, addresses, bytes, f, a, seen)?;
        return Ok(Picked::Copy(seen.segment, q));
    }
    if has_fault(p, bytes, seen.outside) {
        return Err(Refusal::BadZone(0));
    }
    Ok(Picked::Clear(seen.segment))
}

// ---- with none live

// 01, What a zone holds: the compact table is 0 where no chunk is stored.
fn clear_rows(p: Params, compact: &mut [u8], segment: Seg)
    requires p_value { in_range p ≡ true }
    requires compact_len { (length compact.old ≡ compact_len p) × ZonesLow p 0 segment }
    ensures { compact.new ≡ cleared p segment (drives_of p) compact.old }
{
    for d in 0..p.N {
        let zone = disk_shape::zone_on(p, segment, d);
        let at = disk_shape::compact_at(p, d, zone, 0);
        disk_blocks::clear_part(compact, at, p.S);
    }
}

// 01, Reclaim: with none live it resets its zones; 02, item 4: the answer is its zone on drive 0.
fn reset_segment(
    p: Params,
    pointers: &mut [u8],
    addresses: &mut [u8],
    compact: &mut [u8],
    f: Front,
    segment: Seg,
    count: u64,
) -> Change
    requires p_value { in_range p ≡ true }
    requires pointers_len { (length pointers.old ≡ pointers_len p) × (length addresses.old ≡ addresses_len p) × (length compact.old ≡ compact_len p) × ZonesLow p 0 segment }
    ensures { (st : StateOf) (im fl : List ℕ)
        → f ≡ front_of st
        → after_change st result im pointers.new addresses.new compact.new fl [] ≡ outcome p (store_disk p) count
        (mk_disk im pointers.old) (mk_memory st addresses.old compact.old fl) []
        (due (reset_plan p (mk_memory st addresses.old compact.old fl) segment)) }
{
    let made = disk_zones::reset_stores(p, pointers, segment, count);
    if made.is_err() {
        return call_filling::cut(addresses, compact, f);
    }
    clear_rows(p, compact, segment);
    let zone = disk_shape::zone_on(p, segment, 0);
    mem_rows::kept(Answer::Reset(zone as u64), f)
}

// ---- the call

// A reclaim: refused, cut or done, it leaves what the definition says. The state goes by value, with the bytes that say it.
pub fn reclaim(
    p: Params,
    offline: &[u8],
    image: &mut [u8],
    pointers: &mut [u8],
    addresses: &mut [u8],
    compact: &mut [u8],
    inflight: &mut [u8],
    state: State,
    bytes: &[u8],
    count: u64,
) -> Change
    requires { (state ≡ state_of bytes.now) × (length bytes.now ≡ state_len) }
    ensures { after_change state result image.new pointers.new addresses.new compact.new inflight.new []
        ≡ call_disk p offline.now (mk_disk image.old pointers.old)
        (mk_memory state addresses.old compact.old inflight.old) (reclaim count) }
{
    let f = mem_rows::front_of(state);
    let a = call_filling::aim_of(p, f);
    let picked = match choose(
        p,
        offline,
        image,
        pointers,
        addresses,
        compact,
        inflight,
        bytes,
        state.missing,
        f,
        a,
    ) {
        Err(why) => return mem_rows::kept(Answer::from(why), f),
        Ok(picked) => picked,
    };
    match picked {
        Picked::Clear(segment) => {
            reset_segment(p, pointers, addresses, compact, f, segment, count)
        }
        Picked::Copy(segment, q) => call_copy::copy_block(
            p, image, pointers, offline, addresses, compact, inflight, bytes, f, a, segment, q,
            count,
        ),
    }
}
