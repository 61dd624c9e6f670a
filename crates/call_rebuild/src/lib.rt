// The rebuild call (01, Rebuild).
#![tactic(auto)]

ghost use Rattle.std.specs.Prelude.{◌≡◌, true, ◌&&◌, [], ltb, eqb};
ghost use Rattle.mem_calls.specs.Left.{checked};
ghost use Rattle.spec.specs.Host.{after};
ghost use Rattle.spec.specs.Drives.{view_of, mk_disk};
ghost use Rattle.spec.specs.Engine.{call_disk};
ghost use Rattle.spec.specs.Engine.Call.{rebuild as rebuildCall};
ghost use Rattle.spec.specs.Faults.{segment_faults};
ghost use Rattle.spec.specs.Lists.Opt.{none};
ghost use Rattle.spec.specs.Memory.{mk_memory};
ghost use Rattle.spec.specs.Params.{named};
ghost use Rattle.spec.specs.Segments.{segments};
ghost use Rattle.call_rebuild.specs.Ends.{EndsGathered};
ghost use Rattle.call_rebuild.specs.Order.{bad_numbers, rebuild_front};

use disk_drives::Drives;
use mem_calls::Refusal;
use spec::{Answer, Done, Params, State};

// 01, Refusals, 1: the drive that the last restart named missing.
fn names_missing(p: Params, missing: u8, drive: usize) -> bool
    ensures { result ≡ (ltb drive p.N && eqb missing (named drive)) }
{
    if p.N <= drive {
        return false;
    }
    missing == bits_masks::only_drive(drive)
}

// 01, Refusals, 1: the parameters, and the drive.
pub fn bad_numbers(p: Params, missing: u8, drive: usize) -> bool
    ensures { result ≡ bad_numbers p missing drive }
{
    if !disk_shape::in_range(p) {
        return true;
    }
    !names_missing(p, missing, drive)
}

// 01, Refusals: the checks of a rebuild up to the pointers of 9; 02, item 4: 10 and the narrow bound of L behind 2.
fn checks(
    p: Params,
    offline: &[u8],
    image: &[u8],
    pointers: &[u8],
    addresses: &[u8],
    compact: &[u8],
    inflight: &[u8],
    state: State,
    drive: usize,
) -> Result<(), Refusal>
    ensures { checked result
        ≡ rebuild_front p offline.now (mk_disk image.now pointers.now)
        (mk_memory state addresses.now compact.now inflight.now) drive }
{
    if bad_numbers(p, state.missing, drive) {
        return Err(Refusal::Range);
    }
    mem_calls::lent_ok(p, offline, image, pointers, addresses, compact, inflight)?;
    mem_calls::list_rule(p, offline)?;
    let gone = bits_masks::only_drive(drive);
    if let Some(zone) = recover_headers::pointer_fault(p, pointers, offline, gone) {
        return Err(Refusal::BadZone(zone as u64));
    }
    Ok(())
}

// 01, Rebuild: the stores, once no check holds; by zone of the lowest present drive, kept flags the segments that remain, with their serials and rows.
fn restore(
    p: Params,
    offline: &[u8],
    image: &mut [u8],
    pointers: &mut [u8],
    addresses: &mut [u8],
    compact: &mut [u8],
    inflight: &[u8],
    kept: &[bool],
    serials: &[u64],
    rows: &[u32],
    state: State,
    drive: usize,
    count: u64,
) -> Done
    requires drive_value { rebuild_front p offline.now (mk_disk image.old pointers.old) (mk_memory state addresses.old compact.old inflight.now) drive ≡ none }
    requires drive_value_2 { segment_faults p (view_of p offline.now image.old pointers.old) (named drive) (segments p (view_of p offline.now image.old pointers.old) (named drive))
        ≡ [] }
    requires ends_gathered { EndsGathered p (view_of p offline.now image.old pointers.old) (named drive) kept.now serials.now rows.now }
    ensures { after result image.new pointers.new addresses.new compact.new inflight.now []
        ≡ call_disk p offline.now (mk_disk image.old pointers.old)
        (mk_memory state addresses.old compact.old inflight.now) (rebuildCall drive count) }
{
    let gone = bits_masks::only_drive(drive);
    let made = recover_rebuild::rebuild_stores(
        p, image, pointers, offline, gone, kept, serials, rows, drive, count,
    );
    if made.is_err() {
        return mem_calls::cut(addresses, compact);
    }
    Done {
        answer: Answer::Rebuilt,
        state,
    }
}

// 01, Refusals, 9: the segments, once the checks up to the pointers of 9 have passed; then the stores.
fn examined(
    p: Params,
    offline: &[u8],
    image: &mut [u8],
    pointers: &mut [u8],
    addresses: &mut [u8],
    compact: &mut [u8],
    inflight: &[u8],
    state: State,
    drive: usize,
    count: u64,
) -> Done
    requires { rebuild_front p offline.now (mk_disk image.old pointers.old) (mk_memory state addresses.old compact.old inflight.now) drive ≡ none }
    ensures { after result image.new pointers.new addresses.new compact.new inflight.now []
        ≡ call_disk p offline.now (mk_disk image.old pointers.old)
        (mk_memory state addresses.old compact.old inflight.now) (rebuildCall drive count) }
{
    let gone = bits_masks::only_drive(drive);
    let mut rows = [0u32; 8192];
    let mut serials = [0u64; 1024];
    let mut flags = [false; 1024];
    let mut kept = [false; 1024];
    let drives = Drives {
        p,
        image,
        pointers,
        offline,
    };
    disk_gather::gather(
        &drives,
        gone,
        &mut rows,
        &mut serials,
        &mut flags,
        &mut kept,
    );
    let e = recover_check::examine(&drives, gone, &kept, &serials, &rows);
    if e.zone < p.Z {
        return Done {
            answer: Answer::BadZone(e.zone as u64),
            state,
        };
    }
    restore(
        p, offline, image, pointers, addresses, compact, inflight, &kept, &serials, &rows, state,
        drive, count,
    )
}

// A rebuild: refused, cut or done, it leaves what the definition says.
pub fn rebuild(
    p: Params,
    offline: &[u8],
    image: &mut [u8],
    pointers: &mut [u8],
    addresses: &mut [u8],
    compact: &mut [u8],
    inflight: &[u8],
    state: State,
    drive: usize,
    count: u64,
) -> Done
    ensures { after result image.new pointers.new addresses.new compact.new inflight.now []
        ≡ call_disk p offline.now (mk_disk image.old pointers.old)
        (mk_memory state addresses.old compact.old inflight.now) (rebuildCall drive count) }
{
    if let Err(why) = checks(
        p, offline, image, pointers, addresses, compact, inflight, state, drive,
    ) {
        return Done {
            answer: Answer::from(why),
            state,
        };
    }
    examined(
        p, offline, image, pointers, addresses, compact, inflight, state, drive, count,
    )
}
