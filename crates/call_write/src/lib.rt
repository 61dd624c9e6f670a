// The write call (01, Write).
#![tactic(auto)]

ghost use Rattle.std.specs.Prelude.{◌≡◌, true, false, cond, List, ℕ, ◌<◌, length};
ghost use Rattle.mem_calls.specs.Left.{checked};
ghost use Rattle.spec.specs.Counts.{last_count};
ghost use Rattle.spec.specs.Drives.{mk_disk};
ghost use Rattle.spec.specs.Engine.{call_disk};
ghost use Rattle.spec.specs.Engine.Call.{write};
ghost use Rattle.spec.specs.Memory.{mk_memory, state_len, state_of};
ghost use Rattle.spec.specs.Params.{in_range, data_count, image_len, pointers_len, offline_len, inflight_len};
ghost use Rattle.call_filling.specs.Aims.{aim_of};
ghost use Rattle.mem_rows.specs.Rows.{front_of, after_change};
ghost use Rattle.call_write.specs.Order.{write_from};
ghost use Rattle.call_write.specs.Ready.{write_refusal, planned, planned_row};
ghost use Rattle.spec.specs.Lists.{is_nil};

use call_filling::{Aim, Opened};
use mem_calls::Refusal;
use mem_rows::{Change, Front, Row};
use spec::{Address, Answer, Params, Stamp, State};

// 01, Refusals, 8: the zones that must be more than empty.
fn reserve(a: Aim) -> usize
    ensures { (result ≡ cond a.opens 2 1) × (result < 8) }
{
    if a.opens {
        return 2;
    }
    1
}

// 01, Refusals, 6 to 9, of a write; 02, item 3: full before waiting. The ranges of the state are looked at in its bytes.
fn room_checks(
    p: Params,
    pointers: &[u8],
    offline: &[u8],
    bytes: &[u8],
    f: Front,
    a: Aim,
) -> Result<(), Refusal>
    requires p_value { in_range p ≡ true }
    requires pointers_len { (length pointers.now ≡ pointers_len p) × (length offline.now ≡ offline_len p) }
    requires f_value { (f ≡ front_of (state_of bytes.now)) × (a ≡ aim_of p (state_of bytes.now)) × (length bytes.now ≡ state_len) }
    ensures { (im ad co fl b : List ℕ) (x : ℕ)
        → length im ≡ image_len p
        → checked result ≡ write_from p offline.now (mk_disk im pointers.now) (mk_memory (state_of bytes.now) ad co fl) x b 6 }
{
    if call_filling::no_stamp(f) {
        return Err(Refusal::NoCount);
    }
    if call_filling::no_serial(f, a) {
        return Err(Refusal::NoCount);
    }
    let n = reserve(a);
    let full = call_filling::scarce(p, pointers, offline, n);
    let wait = call_filling::must_wait(p, f, a);
    if full {
        return Err(Refusal::Full);
    }
    if wait {
        return Err(Refusal::Wait);
    }
    if !mem_bounds::state_ok(p, bytes) {
        return Err(Refusal::BadZone(0));
    }
    Ok(())
}

// 01, Refusals: the checks of a write, in order.
fn checks(
    p: Params,
    offline: &[u8],
    image: &[u8],
    pointers: &[u8],
    addresses: &[u8],
    compact: &[u8],
    inflight: &[u8],
    bytes: &[u8],
    missing: u8,
    f: Front,
    a: Aim,
    address: Address,
    block: &[u8],
) -> Result<(), Refusal>
    requires { (f ≡ front_of (state_of bytes.now)) × (a ≡ aim_of p (state_of bytes.now)) × (missing ≡ (state_of bytes.now).missing) × (length bytes.now ≡ state_len) }
    ensures { checked result
        ≡ write_refusal p offline.now (mk_disk image.now pointers.now)
        (mk_memory (state_of bytes.now) addresses.now compact.now inflight.now) address.0
        block.now }
{
    if !disk_shape::in_range(p) {
        return Err(Refusal::Range);
    }
    mem_calls::lent_ok(p, offline, image, pointers, addresses, compact, inflight)?;
    if block.len() != p.B {
        return Err(Refusal::Lengths);
    }
    mem_calls::list_rule(p, offline)?;
    if missing != 0 {
        return Err(Refusal::Missing);
    }
    if p.L as u64 <= address.0 {
        return Err(Refusal::Address);
    }
    room_checks(p, pointers, offline, bytes, f, a)
}

// 01, Write: the block takes the next stamp; a segment is open for it.
fn plan(
    p: Params,
    inflight: &mut [u8],
    row: Row,
    f: Front,
    a: Aim,
    o: Opened,
    address: Address,
    block: &[u8],
) -> Change
    requires p_value { in_range p ≡ true }
    requires slot_bound { (a.slot < 8) × (a.begins ≡ false → row.filled < data_count p) × (o.next < 4294967295) × (f.stamp.0 < last_count) }
    requires inflight_len { (length inflight.old ≡ inflight_len p) × (length block.now ≡ p.B) }
    ensures value { result ≡ planned f a o (planned_row p row inflight.old f a o address.0 block.now) }
    ensures inflight_after { inflight.new ≡ (planned_row p row inflight.old f a o address.0 block.now).inflight }
{
    let stamp = Stamp(f.stamp.0 + 1);
    let q = call_filling::send(p, inflight, row, a, o.next, address, stamp, true, block);
    let last = q.row;
    let serial = o.serial;
    Change {
        answer: Answer::Sent(stamp, last.number as u64, q.drive as u64),
        stamp,
        serial,
        opened: o.opened,
        next: q.next,
        slot: a.slot,
        row: last,
    }
}

// A write of some bytes: refused, cut or done, it leaves what the definition says. The state goes by value, with the bytes that say it.
pub fn write(
    p: Params,
    offline: &[u8],
    image: &mut [u8],
    pointers: &mut [u8],
    addresses: &mut [u8],
    compact: &mut [u8],
    inflight: &mut [u8],
    state: State,
    bytes: &[u8],
    address: Address,
    block: &[u8],
    count: u64,
) -> Change
    requires { (state ≡ state_of bytes.now) × (length bytes.now ≡ state_len) × (is_nil block.now ≡ false) }
    ensures { after_change state result image.new pointers.new addresses.new compact.new inflight.new
        block.now
        ≡ call_disk p offline.now (mk_disk image.old pointers.old)
        (mk_memory state addresses.old compact.old inflight.old) (write address.0 block.now count) }
{
    let f = mem_rows::front_of(state);
    let a = call_filling::aim_of(p, f);
    if let Err(why) = checks(
        p,
        offline,
        image,
        pointers,
        addresses,
        compact,
        inflight,
        bytes,
        state.missing,
        f,
        a,
        address,
        block,
    ) {
        return mem_rows::kept(Answer::from(why), f);
    }
    let Ok(o) = call_filling::open(p, image, pointers, offline, f, a, count) else {
        return call_filling::cut(addresses, compact, f);
    };
    let row = mem_codec::row_at(bytes, a.slot);
    plan(p, inflight, row, f, a, o, address, block)
}
