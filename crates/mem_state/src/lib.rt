// The state between calls: questions to it and to its bytes, and states with nothing in flight (01, Write; Landing; Reclaim). Each function
// equals the definition that its contract names.
#![tactic(auto)]

ghost use Rattle.std.specs.Prelude.{◌≡◌, not, ◌&&◌, ◌<◌, eqb, length};
ghost use Rattle.mem_state.specs.Flights.{has_at, held_in_of};
ghost use Rattle.spec.specs.Memory.{stripe_in, is_free, in_flight, holds, idle_state, zero_state, state_len, state_of};
ghost use Rattle.spec.specs.Landing.{slot_of};

use spec::{Address, Serial, Stamp, State};

// ---- questions about eighth i

pub fn stripe_in(state: State, i: usize) -> usize
    requires { i < 8 }
    ensures { result ≡ stripe_in state i }
{
    state.numbers[i] as usize
}

// Eighth i holds no stripe.
pub fn is_free(state: State, i: usize) -> bool
    requires { i < 8 }
    ensures { result ≡ is_free state i }
{
    mem_rows::is_free(state.filled, i)
}

// ---- questions about all eighths

// How many stripes are in flight.
pub fn in_flight(state: State) -> usize
    ensures { result ≡ length (in_flight state) }
{
    mem_rows::in_flight(state.filled)
}

// Eighth i holds the stripe.
fn is_stripe(state: State, i: usize, stripe: usize) -> bool
    requires { i < 8 }
    ensures { result ≡ (not (is_free state i) && eqb (stripe_in state i) stripe) }
{
    !mem_rows::is_free(state.filled, i) & (stripe_in(state, i) == stripe)
}

// 01, Landing: the eighth of a stripe in flight; 8 if it is not.
pub fn slot_of(state: State, stripe: usize) -> usize
    ensures { result ≡ slot_of state stripe }
{
    for i in 0..8 {
        if is_stripe(state, i, stripe) {
            return i;
        }
    }
    8
}

// ---- questions to the state's bytes

// Cell j has the address with the stamp.
#[tactic(auto, using(mem_codec::specs::Codec::state_len_lem))]
fn is_cell(bytes: &[u8], j: usize, address: Address, stamp: Stamp) -> bool
    requires { (length bytes.now ≡ state_len) × (j < 64) }
    ensures { result ≡ has_at (state_of bytes.now) address.0 stamp.0 j }
{
    let a = bits_le::read_le64(bytes, mem_codec::ADDRESSES_AT + 8 * j);
    if a != address.0 {
        return false;
    }
    let t = bits_le::read_le64(bytes, mem_codec::STAMPS_AT + 8 * j);
    t == stamp.0
}

// Eighth i holds the address with the stamp.
#[tactic(auto, using(mem_codec::specs::Codec::state_len_lem))]
fn is_held(bytes: &[u8], i: usize, address: Address, stamp: Stamp) -> bool
    requires { (length bytes.now ≡ state_len) × (i < 8) }
    ensures { result ≡ held_in_of (state_of bytes.now) address.0 stamp.0 i }
{
    let f = bytes[mem_codec::FILLED_AT + i] as usize;
    for k in 0..8 {
        if f <= k {
            return false;
        }
        if is_cell(bytes, 8 * i + k, address, stamp) {
            return true;
        }
    }
    false
}

// 01, Reclaim: a stripe in flight holds the address with the stamp. Of an eighth only the positions filled are looked at.
pub fn holds(bytes: &[u8], address: Address, stamp: Stamp) -> bool
    requires { length bytes.now ≡ state_len }
    ensures { result ≡ holds (state_of bytes.now) address.0 stamp.0 }
{
    for i in 0..8 {
        if is_held(bytes, i, address, stamp) {
            return true;
        }
    }
    false
}

// ---- a state with nothing in flight

// Nothing in flight.
pub fn idle_state(
    live: u8,
    missing: u8,
    stamp: Stamp,
    serial: Serial,
    opened: u64,
    next: u32,
) -> State
    ensures { result ≡ idle_state live missing stamp.0 serial.0 opened next }
{
    State {
        live,
        missing,
        stamp,
        serial,
        opened,
        next,
        numbers: [0u32; 8],
        filled: [0u8; 8],
        writes: [0u8; 8],
        landed: [0u8; 8],
        addresses: [0u64; 64],
        stamps: [0u64; 64],
        offsets: [0u32; 64],
    }
}

// 01, Store count: the state that a cut leaves.
pub fn zero_state() -> State
    ensures { result ≡ zero_state }
{
    idle_state(0, 0, Stamp(0), Serial(0), 0, 0)
}
