// The state as bytes (01, The array): sections of numbers of one width, in the order of the fields.
#![tactic(auto)]

ghost use Rattle.std.specs.Prelude.{◌≡◌, ℕ, map, ◌+◌, ◌*◌, ◌≤◌, ◌<◌, length, take};
ghost use Rattle.spec.specs.Bytes.{le_of, to_le, part, splice};
ghost use Rattle.spec.specs.Lists.{flat};
ghost use Rattle.spec.specs.Memory.{state_sections, numbers_at, state_len, state_of, state_bytes};
ghost use Rattle.mem_codec.specs.Changes.{count_edits, mark_edits, cell_edits};
ghost use Rattle.mem_codec.specs.Codec.{put_sections, front_numbers};
ghost use Rattle.mem_codec.specs.Edits.{written_all_of};
ghost use Rattle.mem_rows.specs.Rows.{slot_row, changed};

use mem_rows::{Change, Row};
use spec::{Serial, Stamp, State};

// Where the sections begin, and their length in all.
pub const LIVE_AT: usize = 0;

pub const MISSING_AT: usize = LIVE_AT + 1;

pub const STAMP_AT: usize = MISSING_AT + 1;

pub const SERIAL_AT: usize = STAMP_AT + 8;

pub const OPENED_AT: usize = SERIAL_AT + 8;

pub const NEXT_AT: usize = OPENED_AT + 8;

pub const NUMBERS_AT: usize = NEXT_AT + 4;

pub const FILLED_AT: usize = NUMBERS_AT + 4 * 8;

pub const WRITES_AT: usize = FILLED_AT + 8;

pub const LANDED_AT: usize = WRITES_AT + 8;

pub const ADDRESSES_AT: usize = LANDED_AT + 8;

pub const STAMPS_AT: usize = ADDRESSES_AT + 8 * 64;

pub const OFFSETS_AT: usize = STAMPS_AT + 8 * 64;

const STATE_LEN: usize = OFFSETS_AT + 4 * 64;

// ---- a section of numbers

// A number of the state: how many bytes it has, and how it stands in them.
pub trait Number: Copy + Default {
    ghost WIDTH: { ℕ };

    ghost value: { Self → ℕ };

    const WIDTH: usize;

    // The number that the bytes from index at say.
    fn read(src: &[u8], at: usize) -> Self
        requires { at + WIDTH ≤ length src.now }
        ensures { value result ≡ le_of (part at WIDTH src.now) };

    // Writes its bytes from index at.
    fn write(self, dst: &mut [u8], at: usize)
        requires { at + WIDTH ≤ length dst.old }
        ensures { dst.new ≡ splice dst.old at (to_le WIDTH (value self)) };
}

impl Number for u8 {
    ghost WIDTH = { 1 };

    ghost value = { λ n. n };

    const WIDTH: usize = 1;

    fn read(src: &[u8], at: usize) -> u8 {
        src[at]
    }

    fn write(self, dst: &mut [u8], at: usize) {
        dst[at] = self;
    }
}

impl Number for u32 {
    ghost WIDTH = { 4 };

    ghost value = { λ n. n };

    const WIDTH: usize = 4;

    fn read(src: &[u8], at: usize) -> u32 {
        bits_le::read_le32(src, at)
    }

    fn write(self, dst: &mut [u8], at: usize) {
        bits_le::write_le32(dst, at, self);
    }
}

impl Number for u64 {
    ghost WIDTH = { 8 };

    ghost value = { λ n. n };

    const WIDTH: usize = 8;

    fn read(src: &[u8], at: usize) -> u64 {
        bits_le::read_le64(src, at)
    }

    fn write(self, dst: &mut [u8], at: usize) {
        bits_le::write_le64(dst, at, self);
    }
}

// N numbers read from index at on.
fn numbers_at<T: Number, const N: usize>(src: &[u8], at: usize) -> [T; N]
    requires { at + T.WIDTH * N ≤ length src.now }
    ensures { map T.value result ≡ numbers_at T.WIDTH N at src.now }
{
    let mut out = [T::default(); N];
    for i in 0..N {
        out[i] = T::read(src, at + T::WIDTH * i);
    }
    out
}

// Numbers written from index at on.
fn put_numbers<T: Number>(dst: &mut [u8], at: usize, ns: &[T])
    requires { at + T.WIDTH * length ns.now ≤ length dst.old }
    ensures { dst.new ≡ splice dst.old at (flat (to_le T.WIDTH) (map T.value ns.now)) }
{
    for i in 0..ns.len() {
        ns[i].write(dst, at + T::WIDTH * i);
    }
}

// The six numbers in front of the arrays.
fn put_front(dst: &mut [u8], live: u8, missing: u8, stamp: u64, serial: u64, opened: u64, next: u32)
    requires { 30 ≤ length dst.old }
    ensures { dst.new ≡ put_sections dst.old 0 (take 6 state_sections) (front_numbers live missing stamp serial opened next) }
{
    dst[LIVE_AT] = live;
    dst[MISSING_AT] = missing;
    bits_le::write_le64(dst, STAMP_AT, stamp);
    bits_le::write_le64(dst, SERIAL_AT, serial);
    bits_le::write_le64(dst, OPENED_AT, opened);
    bits_le::write_le32(dst, NEXT_AT, next);
}

// ---- the state

// How many bytes a state has.
pub fn state_len() -> usize
    ensures { result ≡ state_len }
{
    STATE_LEN
}

// The state that the bytes say.
#[tactic(auto, using(crate::specs::Codec::state_len_lem))]
pub fn decode(bytes: &[u8]) -> State
    requires { length bytes.now ≡ state_len }
    ensures { result ≡ state_of bytes.now }
{
    let numbers: [u32; 8] = numbers_at(bytes, NUMBERS_AT);
    let filled: [u8; 8] = numbers_at(bytes, FILLED_AT);
    let writes: [u8; 8] = numbers_at(bytes, WRITES_AT);
    let landed: [u8; 8] = numbers_at(bytes, LANDED_AT);
    let addresses: [u64; 64] = numbers_at(bytes, ADDRESSES_AT);
    let stamps: [u64; 64] = numbers_at(bytes, STAMPS_AT);
    let offsets: [u32; 64] = numbers_at(bytes, OFFSETS_AT);
    State {
        live: bytes[LIVE_AT],
        missing: bytes[MISSING_AT],
        stamp: Stamp(bits_le::read_le64(bytes, STAMP_AT)),
        serial: Serial(bits_le::read_le64(bytes, SERIAL_AT)),
        opened: bits_le::read_le64(bytes, OPENED_AT),
        next: bits_le::read_le32(bytes, NEXT_AT),
        numbers,
        filled,
        writes,
        landed,
        addresses,
        stamps,
        offsets,
    }
}

// Eighth i of the state that the bytes say.
#[tactic(auto, using(crate::specs::Codec::state_len_lem))]
pub fn row_at(bytes: &[u8], i: usize) -> Row
    requires { (length bytes.now ≡ state_len) × (i < 8) }
    ensures { result ≡ slot_row (state_of bytes.now) i }
{
    let addresses: [u64; 8] = numbers_at(bytes, ADDRESSES_AT + 64 * i);
    let stamps: [u64; 8] = numbers_at(bytes, STAMPS_AT + 64 * i);
    let offsets: [u32; 8] = numbers_at(bytes, OFFSETS_AT + 32 * i);
    let number = bits_le::read_le32(bytes, NUMBERS_AT + 4 * i);
    Row {
        number,
        filled: bytes[FILLED_AT + i],
        writes: bytes[WRITES_AT + i],
        landed: bytes[LANDED_AT + i],
        addresses,
        stamps,
        offsets,
    }
}

// The bytes of the state.
#[tactic(auto, using(crate::specs::Codec::state_len_lem))]
pub fn encode(dst: &mut [u8], st: State)
    requires { length dst.old ≡ state_len }
    ensures { dst.new ≡ state_bytes st }
{
    let numbers = st.numbers;
    let filled = st.filled;
    let writes = st.writes;
    let landed = st.landed;
    let addresses = st.addresses;
    let stamps = st.stamps;
    let offsets = st.offsets;
    put_front(
        dst,
        st.live,
        st.missing,
        st.stamp.0,
        st.serial.0,
        st.opened,
        st.next,
    );
    put_numbers(dst, NUMBERS_AT, &numbers);
    put_numbers(dst, FILLED_AT, &filled);
    put_numbers(dst, WRITES_AT, &writes);
    put_numbers(dst, LANDED_AT, &landed);
    put_numbers(dst, ADDRESSES_AT, &addresses);
    put_numbers(dst, STAMPS_AT, &stamps);
    put_numbers(dst, OFFSETS_AT, &offsets);
}

// ---- a change of the state

// The four numbers in front that a call changes.
fn put_counts(dst: &mut [u8], stamp: u64, serial: u64, opened: u64, next: u32)
    requires { 30 ≤ length dst.old }
    ensures { dst.new ≡ written_all_of state_sections dst.old (count_edits stamp serial opened next) }
{
    bits_le::write_le64(dst, STAMP_AT, stamp);
    bits_le::write_le64(dst, SERIAL_AT, serial);
    bits_le::write_le64(dst, OPENED_AT, opened);
    bits_le::write_le32(dst, NEXT_AT, next);
}

// Of eighth i the stripe's number, how many are filled, which are writes, which drives have it.
fn put_marks(dst: &mut [u8], i: usize, number: u32, filled: u8, writes: u8, landed: u8)
    requires { (i < 8) × (86 ≤ length dst.old) }
    ensures { dst.new ≡ written_all_of state_sections dst.old (mark_edits i number filled writes landed) }
{
    bits_le::write_le32(dst, NUMBERS_AT + 4 * i, number);
    dst[FILLED_AT + i] = filled;
    dst[WRITES_AT + i] = writes;
    dst[LANDED_AT + i] = landed;
}

// Of eighth i the addresses, stamps and offsets.
fn put_cells(dst: &mut [u8], i: usize, addresses: &[u64; 8], stamps: &[u64; 8], offsets: &[u32; 8])
    requires { (i < 8) × (1366 ≤ length dst.old) }
    ensures { dst.new ≡ written_all_of state_sections dst.old (cell_edits i addresses.now stamps.now offsets.now) }
{
    let at = 8 * i;
    put_numbers(dst, ADDRESSES_AT + 8 * at, addresses);
    put_numbers(dst, STAMPS_AT + 8 * at, stamps);
    put_numbers(dst, OFFSETS_AT + 4 * at, offsets);
}

// The change made in the state's bytes: only what it names is written.
#[tactic(auto, using(crate::specs::Codec::state_len_lem))]
pub fn put_change(dst: &mut [u8], c: Change)
    requires { length dst.old ≡ state_len }
    ensures { dst.new ≡ state_bytes (changed (state_of dst.old) c) }
{
    put_counts(dst, c.stamp.0, c.serial.0, c.opened, c.next);
    let i = c.slot;
    if 8 <= i {
        return;
    }
    let row = c.row;
    let addresses = row.addresses;
    let stamps = row.stamps;
    let offsets = row.offsets;
    put_marks(dst, i, row.number, row.filled, row.writes, row.landed);
    put_cells(dst, i, &addresses, &stamps, &offsets);
}
