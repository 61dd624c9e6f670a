// The ranges of the state's numbers, looked at in its bytes (01, Refusals, 9): numbers out of range are counted section by section, with no
// early end, and none is out of range where the sum is 0.
#![tactic(auto)]

ghost use Rattle.std.specs.Prelude.{◌≡◌, ℕ, true, ◌+◌, ◌*◌, ◌^◌, ◌≤◌, length};
ghost use Rattle.spec.specs.Memory.{state_len, state_of, state_ok};
ghost use Rattle.spec.specs.Params.{in_range};
ghost use Rattle.mem_bounds.specs.Bounds.{other, past, bounds_above, past_in, front_past, slots_past};

use mem_codec::Number;
use spec::Params;

// 1 where the number is not 1.
#[tactic(auto, unfolding(crate::specs::Bounds::other))]
fn other(x: u8) -> u32
    ensures { (result ≡ other x) × (result ≤ 1) }
{
    u32::from(x != 1)
}

// 1 where the number is not below the limit.
#[tactic(auto, unfolding(crate::specs::Bounds::past))]
fn past(x: u32, limit: u32) -> u32
    ensures { (result ≡ past limit x) × (result ≤ 1) }
{
    u32::from(limit <= x)
}

// 1 where the number is above the most that it may be.
#[tactic(auto, unfolding(crate::specs::Bounds::bounds_above))]
fn above(x: u64, most: u64) -> u32
    ensures { (result ≡ bounds_above most x) × (result ≤ 1) }
{
    u32::from(most < x)
}

// How many of n numbers are not below the limit.
fn numbers_past<T: Number + Into<u32>>(bytes: &[u8], at: usize, n: usize, limit: u32) -> u32
    requires into_value { (x : T) (k : ℕ) → T.converts x k → k ≡ T.value x }
    requires room { (at + T.WIDTH * n ≤ length bytes.now) × (n ≤ 64) }
    ensures { (result ≡ past_in T.WIDTH n at limit bytes.now) × (result ≤ n) }
{
    let mut bad: u32 = 0;
    for i in 0..n {
        let x = T::read(bytes, at + T::WIDTH * i);
        bad += past(x.into(), limit);
    }
    bad
}

// The masks of k bits lie below it.
fn power(k: usize) -> u32
    requires { k ≤ 8 }
    ensures { result ≡ 2 ^ k }
{
    1u32 << k
}

// How many of the numbers in front of the arrays are out of range.
#[tactic(auto, using(mem_codec::specs::Codec::state_len_lem))]
fn front_past(p: Params, bytes: &[u8]) -> u32
    requires p_value { in_range p ≡ true }
    requires bytes_len { length bytes.now ≡ state_len }
    ensures { (result ≡ front_past p bytes.now) × (result ≤ 5) }
{
    let live = other(bytes[mem_codec::LIVE_AT]);
    let gone = past(u32::from(bytes[mem_codec::MISSING_AT]), power(p.N));
    let lost = past(bits_masks::count(bytes[mem_codec::MISSING_AT]) as u32, 2);
    let serial = bits_le::read_le64(bytes, mem_codec::SERIAL_AT);
    let opened = above(bits_le::read_le64(bytes, mem_codec::OPENED_AT), serial);
    let next = past(
        bits_le::read_le32(bytes, mem_codec::NEXT_AT),
        p.S as u32 + 1,
    );
    live + gone + lost + opened + next
}

// How many numbers of the eighths are out of range: stripe numbers, positions filled, writes, landed drives.
#[tactic(auto, using(mem_codec::specs::Codec::state_len_lem))]
fn slots_past(p: Params, bytes: &[u8]) -> u32
    requires p_value { in_range p ≡ true }
    requires bytes_len { length bytes.now ≡ state_len }
    ensures { (result ≡ slots_past p bytes.now) × (result ≤ 88) }
{
    let numbers = numbers_past::<u32>(bytes, mem_codec::NUMBERS_AT, 8, p.S as u32);
    let filled = numbers_past::<u8>(bytes, mem_codec::FILLED_AT, 8, p.N as u32);
    let writes = numbers_past::<u8>(bytes, mem_codec::WRITES_AT, 8, power(p.N - 1));
    let landed = numbers_past::<u8>(bytes, mem_codec::LANDED_AT, 8, power(p.N));
    numbers + filled + writes + landed
}

// Each number of the state is in its range.
#[tactic(auto, using(mem_codec::specs::Codec::state_len_lem))]
pub fn state_ok(p: Params, bytes: &[u8]) -> bool
    requires p_value { in_range p ≡ true }
    requires bytes_len { length bytes.now ≡ state_len }
    ensures { result ≡ state_ok p (state_of bytes.now) }
{
    let front = front_past(p, bytes);
    let slots = slots_past(p, bytes);
    let offsets = numbers_past::<u32>(bytes, mem_codec::OFFSETS_AT, 64, p.S as u32);
    front + slots + offsets == 0
}

// The mask of missing drives.
pub fn missing(bytes: &[u8]) -> u8
    requires { length bytes.now ≡ state_len }
    ensures { result ≡ (state_of bytes.now).missing }
{
    bytes[mem_codec::MISSING_AT]
}
