// The restart call (01, Restart and rebuild; 02, item 4).
#![tactic(auto)]

ghost use Rattle.std.specs.Prelude.{◌≡◌, true, false, not, ◌||◌, List, [], ℕ, ◌*◌, ◌≤◌, length};
ghost use Rattle.mem_calls.specs.Left.{checked};
ghost use Rattle.spec.specs.Host.{after};
ghost use Rattle.spec.specs.Calls.{first_refusal};
ghost use Rattle.spec.specs.Drives.{view_of, mk_disk};
ghost use Rattle.spec.specs.Engine.{lent_ok_of, call_disk};
ghost use Rattle.spec.specs.Engine.Call.{restart};
ghost use Rattle.spec.specs.Faults.{pointer_faults};
ghost use Rattle.spec.specs.Memory.{mk_memory};
ghost use Rattle.spec.specs.Params.{in_range, offline_len, addresses_len, compact_len};
ghost use Rattle.spec.specs.Restart.{names_drive, restart_stores};
ghost use Rattle.spec.specs.Segments.{segments};
ghost use Rattle.spec.specs.declared.State.{State as StateOf};
ghost use Rattle.recover_stores.specs.Refit.{RefitReady};
ghost use Rattle.recover_segments.specs.Taken.{TakenOfTaken};
ghost use Rattle.disk_gather.specs.Flags.{Keeps, FlagsRows, Serials};
ghost use Rattle.call_restart.specs.Ends.{recovered, Settles};
ghost use Rattle.call_restart.specs.declared.Halt.TheVariants.{Check, Count};
ghost use Rattle.recover_check.specs.Faults.{Examined, ragged_by};
ghost use Rattle.call_restart.specs.Order.{front_checks, rest_checks};
ghost use Rattle.law_drives.specs.Segs.{Here};
ghost use Rattle.law_views.specs.Views.{Whole};
ghost use Rattle.disk_zones.specs.Made.{Storing};

use disk_drives::Drives;
use disk_zones::TooFew;
use mem_calls::Refusal;
use recover_check::Exam;
use spec::{Answer, Done, Params, Report, Serial, State};

// The most zones of all drives, and of one.
const ZONES: usize = 8 * 1024;

const OF_DRIVE: usize = 1024;

// Why a restart ends before the memory is loaded: a check holds, or the store count is too small.
#[derive(Clone, Copy, Debug, PartialEq, Eq)]
pub enum Halt {
    Check(Refusal),
    Count,
}

impl From<Refusal> for Halt {
    ghost from_gives = { λ r h. h ≡ Check r };

    fn from(why: Refusal) -> Halt {
        Halt::Check(why)
    }
}

impl From<TooFew> for Halt {
    ghost from_gives = { λ r h. h ≡ Count };

    fn from(_: TooFew) -> Halt {
        Halt::Count
    }
}

// 01, Refusals, 1: the parameters, and the missing drive below N or 255.
fn bad_numbers(p: Params, missing: usize) -> bool
    ensures { result ≡ (not (in_range p) || not (names_drive p missing)) }
{
    if !disk_shape::in_range(p) {
        return true;
    }
    if missing < p.N {
        return false;
    }
    missing != 255
}

// 01, Refusals: 1, 2, the list's of 02, item 4, and the write pointers of 9, in order.
fn checks(
    p: Params,
    offline: &[u8],
    image: &[u8],
    pointers: &[u8],
    addresses: &[u8],
    compact: &[u8],
    inflight: &[u8],
    missing: usize,
) -> Result<(), Refusal>
    ensures { (st : StateOf)
        → checked result ≡ first_refusal (front_checks p (lent_ok_of p offline.now (mk_disk image.now pointers.now)
        (mk_memory st addresses.now compact.now inflight.now))
        (view_of p offline.now image.now pointers.now) missing) }
{
    if bad_numbers(p, missing) {
        return Err(Refusal::Range);
    }
    mem_calls::lent_ok(p, offline, image, pointers, addresses, compact, inflight)?;
    mem_calls::list_rule(p, offline)?;
    let gone = bits_masks::only_drive(missing);
    if let Some(zone) = recover_headers::pointer_fault(p, pointers, offline, gone) {
        return Err(Refusal::BadZone(zone as u64));
    }
    Ok(())
}

// 01, Restart, 4: the unsealed segment's counted stripes aren't 0 to c - 1, or other chunks exist; false if there is none.
fn is_ragged(p: Params, e: Exam) -> bool
    ensures { result ≡ ragged_by p e }
{
    if e.counted == p.S {
        return false;
    }
    if e.top != e.counted {
        return true;
    }
    e.part != 0
}

// 01, Refusals: what of 9 is left, then 6 and 8, in order; marks: by drive and zone, which zones the remaining segments have.
fn rest_checks(
    p: Params,
    offline: &[u8],
    gone: u8,
    kept: &[bool],
    serials: &[u64],
    marks: &[bool],
    e: Exam,
) -> Result<(), Refusal>
    requires p_value { in_range p ≡ true }
    requires z_in_bounds { (p.Z ≤ length kept.now) × (p.Z ≤ length serials.now) × (p.N * p.Z ≤ length marks.now) × (length offline.now ≡ offline_len p) }
    ensures { (im ps : List ℕ)
        → Keeps p (view_of p offline.now im ps) gone kept.now
        → Serials p (view_of p offline.now im ps) gone serials.now
        → TakenOfTaken p (view_of p offline.now im ps) gone marks.now
        → Examined p (view_of p offline.now im ps) gone (segments p (view_of p offline.now im ps) gone) e
        → checked result ≡ first_refusal (rest_checks p (view_of p offline.now im ps) gone (segments p (view_of p offline.now im ps) gone)) }
{
    if e.zone < p.Z {
        return Err(Refusal::BadZone(e.zone as u64));
    }
    if gone != 0 {
        return Ok(());
    }
    if !is_ragged(p, e) {
        return Ok(());
    }
    let most = recover_segments::greatest_serial(p, kept, serials);
    if most.0 == Serial::LAST.0 {
        return Err(Refusal::NoCount);
    }
    if recover_segments::none_free(p, offline, marks) {
        return Err(Refusal::Full);
    }
    Ok(())
}

// 01, Restart, 4 and 5: the stores of a restart, under a store count.
fn stores(
    p: Params,
    offline: &[u8],
    image: &mut [u8],
    pointers: &mut [u8],
    gone: u8,
    kept: &[bool],
    rows: &[u32],
    serials: &[u64],
    marks: &[bool],
    e: Exam,
    count: u64,
) -> Result<u64, TooFew>
    requires p_value { in_range p ≡ true }
    requires whole { Whole p (mk_disk image.old pointers.old) × (length offline.now ≡ offline_len p) }
    requires keeps { Keeps p (view_of p offline.now image.old pointers.old) gone kept.now × FlagsRows p (view_of p offline.now image.old pointers.old) gone rows.now }
    requires serials { Serials p (view_of p offline.now image.old pointers.old) gone serials.now × TakenOfTaken p (view_of p offline.now image.old pointers.old) gone marks.now }
    requires examined { Examined p (view_of p offline.now image.old pointers.old) gone (segments p (view_of p offline.now image.old pointers.old) gone) e
        × (e.zone ≡ p.Z)
        × (gone ≡ 0 → RefitReady p (view_of p offline.now image.old pointers.old)) }
    ensures { Storing p count (restart_stores p (view_of p offline.now image.old pointers.old) gone
        (segments p (view_of p offline.now image.old pointers.old) gone))
        (mk_disk image.old pointers.old) result (mk_disk image.new pointers.new) }
{
    if gone != 0 {
        return Ok(count);
    }
    let whole = e.counted == p.S;
    let ragged = is_ragged(p, e);
    recover_stores::healthy_stores(
        p, image, pointers, offline, kept, rows, serials, marks, whole, ragged, count,
    )
}

// 01, Restart: the checks behind the pointers of 9, then the stores; the answer is the number of uncounted stripes, as found before them. marks is room for the zones that the remaining segments have.
fn settle(
    p: Params,
    offline: &[u8],
    image: &mut [u8],
    pointers: &mut [u8],
    gone: u8,
    kept: &[bool],
    rows: &[u32],
    serials: &[u64],
    marks: &mut [bool],
    count: u64,
) -> Result<u64, Halt>
    requires p_value { in_range p ≡ true }
    requires whole { Whole p (mk_disk image.old pointers.old) × (length offline.now ≡ offline_len p) × Here p gone }
    requires gone_value { pointer_faults p (view_of p offline.now image.old pointers.old) gone ≡ [] }
    requires keeps { Keeps p (view_of p offline.now image.old pointers.old) gone kept.now × FlagsRows p (view_of p offline.now image.old pointers.old) gone rows.now }
    requires serials { Serials p (view_of p offline.now image.old pointers.old) gone serials.now × (p.N * p.Z ≤ length marks.old) }
    ensures { Settles p offline.now gone count (mk_disk image.old pointers.old) result (mk_disk image.new pointers.new) }
{
    let drives = Drives {
        p,
        image,
        pointers,
        offline,
    };
    let e = recover_check::examine(&drives, gone, kept, serials, rows);
    recover_segments::taken(p, kept, rows, marks);
    rest_checks(p, offline, gone, kept, serials, marks, e)?;
    stores(
        p, offline, image, pointers, gone, kept, rows, serials, marks, e, count,
    )?;
    Ok(e.loose)
}

// 01, Restart: checks and stores, then the memory that the drives say behind them; the arrays are room for the segments.
fn recover_in(
    p: Params,
    offline: &[u8],
    image: &mut [u8],
    pointers: &mut [u8],
    addresses: &mut [u8],
    compact: &mut [u8],
    state: State,
    gone: u8,
    count: u64,
    rows: &mut [u32],
    serials: &mut [u64],
    flags: &mut [bool],
    kept: &mut [bool],
    marks: &mut [bool],
) -> Done
    requires p_value { in_range p ≡ true }
    requires whole { Whole p (mk_disk image.old pointers.old) × (length offline.now ≡ offline_len p) × Here p gone }
    requires gone_value { pointer_faults p (view_of p offline.now image.old pointers.old) gone ≡ [] }
    requires addresses_len { (length addresses.old ≡ addresses_len p) × (length compact.old ≡ compact_len p) }
    requires z_in_bounds { (8 * p.Z ≤ length rows.old) × (p.Z ≤ length serials.old) × (p.Z ≤ length flags.old) × (p.Z ≤ length kept.old) × (p.N * p.Z ≤ length marks.old) }
    ensures { (fl : List ℕ) → after result image.new pointers.new addresses.new compact.new fl []
        ≡ recovered p offline.now (mk_disk image.old pointers.old) (mk_memory state addresses.old compact.old fl) gone count }
{
    let drives = Drives {
        p,
        image,
        pointers,
        offline,
    };
    disk_gather::gather(&drives, gone, rows, serials, flags, kept);
    let uncounted = match settle(
        p, offline, image, pointers, gone, kept, rows, serials, marks, count,
    ) {
        Err(Halt::Check(why)) => {
            return Done {
                answer: Answer::from(why),
                state,
            };
        }
        Err(Halt::Count) => return mem_calls::cut(addresses, compact),
        Ok(n) => n,
    };
    let report = Report { uncounted };
    let drives = Drives {
        p,
        image,
        pointers,
        offline,
    };
    disk_gather::gather(&drives, gone, rows, serials, flags, kept);
    let next = recover_tables::load(
        p, image, pointers, offline, addresses, compact, gone, rows, serials, kept,
    );
    Done {
        answer: Answer::Restarted(report),
        state: next,
    }
}

// The same, with room for any number of zones.
fn recover(
    p: Params,
    offline: &[u8],
    image: &mut [u8],
    pointers: &mut [u8],
    addresses: &mut [u8],
    compact: &mut [u8],
    state: State,
    gone: u8,
    count: u64,
) -> Done
    requires p_value { in_range p ≡ true }
    requires whole { Whole p (mk_disk image.old pointers.old) × (length offline.now ≡ offline_len p) × Here p gone }
    requires gone_value { pointer_faults p (view_of p offline.now image.old pointers.old) gone ≡ [] }
    requires addresses_len { (length addresses.old ≡ addresses_len p) × (length compact.old ≡ compact_len p) }
    ensures { (fl : List ℕ) → after result image.new pointers.new addresses.new compact.new fl []
        ≡ recovered p offline.now (mk_disk image.old pointers.old) (mk_memory state addresses.old compact.old fl) gone count }
{
    let mut rows = [0u32; ZONES];
    let mut serials = [0u64; OF_DRIVE];
    let mut flags = [false; OF_DRIVE];
    let mut kept = [false; OF_DRIVE];
    let mut marks = [false; ZONES];
    recover_in(
        p,
        offline,
        image,
        pointers,
        addresses,
        compact,
        state,
        gone,
        count,
        &mut rows,
        &mut serials,
        &mut flags,
        &mut kept,
        &mut marks,
    )
}

// A restart: refused, cut or done, it leaves what the definition says; the in-flight buffer stays.
pub fn restart(
    p: Params,
    offline: &[u8],
    image: &mut [u8],
    pointers: &mut [u8],
    addresses: &mut [u8],
    compact: &mut [u8],
    inflight: &[u8],
    state: State,
    missing: usize,
    count: u64,
) -> Done
    ensures { after result image.new pointers.new addresses.new compact.new inflight.now []
        ≡ call_disk p offline.now (mk_disk image.old pointers.old)
        (mk_memory state addresses.old compact.old inflight.now) (restart missing count) }
{
    if let Err(why) = checks(
        p, offline, image, pointers, addresses, compact, inflight, missing,
    ) {
        return Done {
            answer: Answer::from(why),
            state,
        };
    }
    let gone = bits_masks::only_drive(missing);
    recover(
        p, offline, image, pointers, addresses, compact, state, gone, count,
    )
}
