// The write call with the write of no bytes, which ends a scan (02, item 1). A write of no bytes makes no store, so it is never cut.
#![tactic(auto)]

ghost use Rattle.std.specs.Prelude.{◌≡◌, [], ℕ, length};
ghost use Rattle.mem_calls.specs.Left.{checked};
ghost use Rattle.spec.specs.Drives.{mk_disk};
ghost use Rattle.spec.specs.Engine.{call_disk};
ghost use Rattle.spec.specs.Engine.Call.{write};
ghost use Rattle.spec.specs.Memory.{mk_memory, state_len, state_of};
ghost use Rattle.spec.specs.declared.Answer.TheVariants.{Nothing};
ghost use Rattle.spec.specs.declared.State.{State as StateOf};
ghost use Rattle.mem_rows.specs.Rows.{after_change, kept_as};
ghost use Rattle.call_empty.specs.Order.{empty_first, empty_third_holds};

use mem_calls::Refusal;
use mem_rows::{Change, Front};
use spec::{Address, Answer, Params, State};

// 01, Refusals, 3 and 4: a drive is missing; the address is out of range.
fn later_checks(missing: u8, bound: u64, address: u64) -> Result<(), Refusal>
    ensures { checked result ≡ empty_third_holds missing bound address }
{
    if missing != 0 {
        return Err(Refusal::Missing);
    }
    if bound <= address {
        return Err(Refusal::Address);
    }
    Ok(())
}

// 02, item 1: the checks that come before the filling stripe is looked for, in order.
fn checks(
    p: Params,
    offline: &[u8],
    image: &[u8],
    pointers: &[u8],
    addresses: &[u8],
    compact: &[u8],
    inflight: &[u8],
    missing: u8,
    address: Address,
) -> Result<(), Refusal>
    ensures { (st : StateOf) → st.missing ≡ missing
        → checked result ≡ empty_first p offline.now (mk_disk image.now pointers.now)
        (mk_memory st addresses.now compact.now inflight.now) address.0 0 }
{
    if !disk_shape::in_range(p) {
        return Err(Refusal::Range);
    }
    mem_calls::lent_ok(p, offline, image, pointers, addresses, compact, inflight)?;
    mem_calls::list_rule(p, offline)?;
    later_checks(missing, p.L as u64, address.0)
}

// 02, item 1: no stripe is filling, and the state stays.
fn nothing(f: Front) -> Change
    ensures { result ≡ kept_as Nothing f }
{
    mem_rows::kept(Answer::Nothing, f)
}

// A write of no bytes: refused, as a closing, or with nothing done, it leaves what the definition says, whatever the store count. The state goes by
// value, with the bytes that say it.
pub fn end(
    p: Params,
    offline: &[u8],
    image: &[u8],
    pointers: &[u8],
    addresses: &[u8],
    compact: &[u8],
    inflight: &mut [u8],
    state: State,
    bytes: &[u8],
    address: Address,
) -> Change
    requires { (state ≡ state_of bytes.now) × (length bytes.now ≡ state_len) }
    ensures { (n : ℕ)
        → after_change state result image.now pointers.now addresses.now compact.now inflight.new
        [] ≡ call_disk p offline.now (mk_disk image.now pointers.now)
        (mk_memory state addresses.now compact.now inflight.old) (write address.0 [] n) }
{
    let f = mem_rows::front_of(state);
    if let Err(why) = checks(
        p,
        offline,
        image,
        pointers,
        addresses,
        compact,
        inflight,
        state.missing,
        address,
    ) {
        return mem_rows::kept(Answer::from(why), f);
    }
    if call_filling::filling_slot(p, f) < 8 {
        return call_close::close(
            p, offline, image, pointers, addresses, compact, inflight, state, bytes,
        );
    }
    if !mem_bounds::state_ok(p, bytes) {
        return mem_rows::kept(Answer::BadZone(0), f);
    }
    nothing(f)
}

// A write of any bytes: refused, cut or done, it leaves what the definition says. The state goes by value, with the bytes that say it.
pub fn write(
    p: Params,
    offline: &[u8],
    image: &mut [u8],
    pointers: &mut [u8],
    addresses: &mut [u8],
    compact: &mut [u8],
    inflight: &mut [u8],
    state: State,
    bytes: &[u8],
    address: Address,
    block: &[u8],
    count: u64,
) -> Change
    requires { (state ≡ state_of bytes.now) × (length bytes.now ≡ state_len) }
    ensures { after_change state result image.new pointers.new addresses.new compact.new inflight.new
        block.now
        ≡ call_disk p offline.now (mk_disk image.old pointers.old)
        (mk_memory state addresses.old compact.old inflight.old) (write address.0 block.now count) }
{
    if block.len() == 0 {
        return end(
            p, offline, image, pointers, addresses, compact, inflight, state, bytes, address,
        );
    }
    call_write::write(
        p, offline, image, pointers, addresses, compact, inflight, state, bytes, address, block,
        count,
    )
}
