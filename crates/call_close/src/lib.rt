// Closing (01, Closing). It makes no store, so it is never cut.
#![tactic(auto)]

ghost use Rattle.std.specs.Prelude.{◌≡◌, true, not, [], ℕ, ◌-◌, ◌≤◌, ◌<◌, ltb, length};
ghost use Rattle.mem_calls.specs.Left.{checked};
ghost use Rattle.call_close.specs.Order.{close_refusal, lasts};
ghost use Rattle.call_close.specs.Pads.{pad_one, padded_row};
ghost use Rattle.disk_drives.specs.Viewed.{viewed};
ghost use Rattle.spec.specs.Drives.{mk_disk};
ghost use Rattle.spec.specs.Engine.{call_disk};
ghost use Rattle.spec.specs.Engine.Call.{close};
ghost use Rattle.spec.specs.Lists.{cons_if, is_nil};
ghost use Rattle.spec.specs.Memory.{mk_memory, filling_slot, state_len, state_of};
ghost use Rattle.spec.specs.Params.{in_range, data_count, addresses_len, inflight_len};
ghost use Rattle.spec.specs.Reclaim.{table_faults, victim, idle};
ghost use Rattle.mem_rows.specs.Rows.{after_change};

use call_reclaim_victim::Chosen;
use disk_drives::Drives;
use mem_calls::Refusal;
use mem_rows::{Change, Row};
use spec::{Address, Answer, Params, Stamp, State};

// 01, Refusals, 9; 02, item 4: whether some place of the table is no place of the image. Where a segment is sealed, the look at the table has told it.
fn is_outside(drives: &Drives<'_>, addresses: &[u8], seen: Chosen) -> bool
    requires addresses_len { length addresses.now ≡ addresses_len drives.now.p }
    requires addresses_value { seen.zone < drives.now.p.Z → table_faults drives.now.p (viewed drives.now) addresses.now ≡ cons_if seen.outside 0 [] }
    ensures { table_faults drives.now.p (viewed drives.now) addresses.now ≡ cons_if result 0 [] }
{
    if seen.zone < drives.p.Z {
        return seen.outside;
    }
    call_reclaim_victim::any_outside(drives, addresses)
}

// 01, Refusals, 5 and 9: the last checks where 1 or fewer zones are empty. The table is looked at once.
fn scarce_checks(drives: &Drives<'_>, addresses: &[u8], bytes: &[u8]) -> Result<(), Refusal>
    requires addresses_len { (length addresses.now ≡ addresses_len drives.now.p) × (length bytes.now ≡ state_len) }
    ensures { checked result
        ≡ lasts drives.now.p (viewed drives.now) (state_of bytes.now) addresses.now
        (not (is_nil (idle drives.now.p (viewed drives.now) (state_of bytes.now)
        (victim drives.now.p (viewed drives.now) addresses.now)))) }
{
    let seen = call_reclaim_victim::look(drives, addresses, bytes);
    if seen.first.is_some() {
        return Err(Refusal::NotDue);
    }
    if !mem_bounds::state_ok(drives.p, bytes) {
        return Err(Refusal::BadZone(0));
    }
    if is_outside(drives, addresses, seen) {
        return Err(Refusal::BadZone(0));
    }
    Ok(())
}

fn is_slot(slot: usize) -> bool
    ensures { result ≡ ltb slot 8 }
{
    slot < 8
}

// 01, Refusals: the checks of a closing, in order; slot: the filling stripe's eighth. The ranges of the state are looked at in its bytes.
fn checks(
    p: Params,
    offline: &[u8],
    image: &[u8],
    pointers: &[u8],
    addresses: &[u8],
    compact: &[u8],
    inflight: &[u8],
    bytes: &[u8],
    missing: u8,
    slot: usize,
) -> Result<(), Refusal>
    requires { (slot ≡ filling_slot p (state_of bytes.now)) × (missing ≡ (state_of bytes.now).missing) × (length bytes.now ≡ state_len) }
    ensures { checked result
        ≡ close_refusal p offline.now (mk_disk image.now pointers.now)
        (mk_memory (state_of bytes.now) addresses.now compact.now inflight.now) }
{
    if !disk_shape::in_range(p) {
        return Err(Refusal::Range);
    }
    mem_calls::lent_ok(p, offline, image, pointers, addresses, compact, inflight)?;
    mem_calls::list_rule(p, offline)?;
    if missing != 0 {
        return Err(Refusal::Missing);
    }
    if !is_slot(slot) {
        return Err(Refusal::NotDue);
    }
    if call_filling::scarce(p, pointers, offline, 1) {
        return scarce_checks(
            &Drives {
                p,
                image,
                pointers,
                offline,
            },
            addresses,
            bytes,
        );
    }
    if !mem_bounds::state_ok(p, bytes) {
        return Err(Refusal::BadZone(0));
    }
    Ok(())
}

// 01, Closing: the next open position filled with a zero block at the padding address, stamp 0.
fn pad(p: Params, inflight: &mut [u8], row: Row, i: usize) -> Row
    requires p_value { in_range p ≡ true }
    requires i_bound { (i < 8) × (row.filled < data_count p) × (length inflight.old ≡ inflight_len p) }
    ensures value { result ≡ (pad_one p i row inflight.old).row }
    ensures inflight_after { inflight.new ≡ (pad_one p i row inflight.old).inflight }
{
    let drive = call_filling::next_drive(p, row);
    let at = disk_shape::slot_byte(p, i, drive);
    disk_blocks::clear_part(inflight, at, p.B);
    call_filling::enter(p, inflight, row, i, Address::PADDING, Stamp(0), false)
}

// 01, Closing: all open positions of an eighth.
fn pad_all(p: Params, inflight: &mut [u8], row: Row, i: usize) -> Row
    requires p_value { in_range p ≡ true }
    requires i_bound { (i < 8) × (row.filled ≤ data_count p) × (length inflight.old ≡ inflight_len p) }
    ensures value { result ≡ (padded_row p i (data_count p - row.filled) row inflight.old).row }
    ensures inflight_after { inflight.new ≡ (padded_row p i (data_count p - row.filled) row inflight.old).inflight }
{
    let n = disk_shape::data_count(p);
    let mut next = row;
    for _k in usize::from(row.filled)..n {
        next = pad(p, inflight, next, i);
    }
    next
}

// A closing: refused or done, it leaves what the definition says, whatever the store count. The state goes by value, with the bytes that say it.
pub fn close(
    p: Params,
    offline: &[u8],
    image: &[u8],
    pointers: &[u8],
    addresses: &[u8],
    compact: &[u8],
    inflight: &mut [u8],
    state: State,
    bytes: &[u8],
) -> Change
    requires { (state ≡ state_of bytes.now) × (length bytes.now ≡ state_len) }
    ensures { (n : ℕ)
        → after_change state result image.now pointers.now addresses.now compact.now inflight.new
        [] ≡ call_disk p offline.now (mk_disk image.now pointers.now)
        (mk_memory state addresses.now compact.now inflight.old) (close n) }
{
    let f = mem_rows::front_of(state);
    let i = call_filling::filling_slot(p, f);
    if let Err(why) = checks(
        p,
        offline,
        image,
        pointers,
        addresses,
        compact,
        inflight,
        bytes,
        state.missing,
        i,
    ) {
        return mem_rows::kept(Answer::from(why), f);
    }
    let row = mem_codec::row_at(bytes, i);
    let next = pad_all(p, inflight, row, i);
    let stamp = f.stamp;
    let serial = f.serial;
    Change {
        answer: Answer::Closed(row.number as u64),
        stamp,
        serial,
        opened: f.opened,
        next: f.next,
        slot: i,
        row: next,
    }
}
