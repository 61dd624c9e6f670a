// The leaves for bench/leaves: exports for C that test the lengths which the leaves require, and change nothing where they differ.
#![tactic(auto)]

ghost use Rattle.std.specs.Prelude.{◌≡◌, cond, ◌&&◌, ◌+◌, ◌*◌, ◌/◌, ◌≤◌, leb, eqb, length, replicate};
ghost use Rattle.spec.specs.Bytes.{to_be, part, splice, xors, xor_all};
ghost use Rattle.spec.specs.Lists.{up_from, flat};
ghost use Rattle.mem_tables.specs.Tables.{count_places, find_place};
ghost use Rattle.bench_leaves.specs.Bench.{longs_in, bench_changed};

use spec::Place;

// ---- parity, copy, clear

#[unsafe(no_mangle)]
pub extern "C" fn leaf_xor(dst: &mut [u8], src: &[u8])
    ensures { dst.new ≡ cond (eqb (length src.now) (length dst.old)) (xors dst.old src.now) dst.old }
{
    if src.len() != dst.len() {
        return;
    }
    disk_blocks::xor_into(dst, src);
}

#[unsafe(no_mangle)]
pub extern "C" fn leaf_xor_part(dst: &mut [u8], at: usize, src: &[u8])
    ensures { dst.new ≡ cond (leb (at + length src.now) (length dst.old))
        (splice dst.old at (xors (part at (length src.now) dst.old) src.now)) dst.old }
{
    if dst.len() < at {
        return;
    }
    if dst.len() - at < src.len() {
        return;
    }
    disk_blocks::xor_part(dst, at, src);
}

// The n bytes from b into those from a, which end before them.
#[unsafe(no_mangle)]
pub extern "C" fn leaf_xor_within(buf: &mut [u8], a: usize, b: usize, n: usize)
    ensures { buf.new ≡ cond (leb (b + n) (length buf.old) && leb (a + n) b)
        (splice buf.old a (xors (part a n buf.old) (part b n buf.old))) buf.old }
{
    if buf.len() < b {
        return;
    }
    if buf.len() - b < n {
        return;
    }
    if b < a {
        return;
    }
    if b - a < n {
        return;
    }
    disk_blocks::xor_within(buf, a, b, n);
}

#[unsafe(no_mangle)]
pub extern "C" fn leaf_copy(dst: &mut [u8], src: &[u8])
    ensures { dst.new ≡ cond (eqb (length src.now) (length dst.old)) src.now dst.old }
{
    if src.len() != dst.len() {
        return;
    }
    disk_blocks::copy(dst, src);
}

#[unsafe(no_mangle)]
pub extern "C" fn leaf_clear(dst: &mut [u8])
    ensures { dst.new ≡ replicate (length dst.old) 0 }
{
    disk_blocks::clear(dst);
}

// ---- the address table

#[unsafe(no_mangle)]
pub extern "C" fn leaf_count(table: &[u8], lo: u32, hi: u32) -> usize
    ensures { result ≡ count_places table.now (length table.now / 4) lo hi }
{
    let n = table.len() / 4;
    mem_tables::count_places(table, n, Place(lo), Place(hi))
}

#[unsafe(no_mangle)]
pub extern "C" fn leaf_find(table: &[u8], q: u32) -> usize
    ensures { result ≡ find_place table.now (length table.now / 4) q }
{
    let n = table.len() / 4;
    mem_tables::find_place(table, n, Place(q))
}

// ---- big-endian numbers of 8 bytes

// The exclusive or of the first n.
fn fold_longs(src: &[u8], n: usize) -> u64
    requires { 8 * n ≤ length src.now }
    ensures { result ≡ xor_all (longs_in n src.now) }
{
    let mut x: u64 = 0;
    for i in 0..n {
        x = x ^ bits_be::read_be64(src, 8 * i);
    }
    x
}

// The same through the loop over the width.
fn fold_width(src: &[u8], n: usize) -> u64
    requires { 8 * n ≤ length src.now }
    ensures { result ≡ xor_all (longs_in n src.now) }
{
    let mut x: u64 = 0;
    for i in 0..n {
        x = x ^ bits_be::read_be(src, 8 * i, 8);
    }
    x
}

// Writes n numbers, first and up.
fn run_longs(dst: &mut [u8], n: usize, first: u32)
    requires { 8 * n ≤ length dst.old }
    ensures { dst.new ≡ splice dst.old 0 (flat (to_be 8) (up_from first n)) }
{
    let low = first as u64;
    for i in 0..n {
        bits_be::write_be64(dst, 8 * i, low + i as u64);
    }
}

// The same through the loop over the width.
fn run_width(dst: &mut [u8], n: usize, first: u32)
    requires { 8 * n ≤ length dst.old }
    ensures { dst.new ≡ splice dst.old 0 (flat (to_be 8) (up_from first n)) }
{
    let low = first as u64;
    for i in 0..n {
        bits_be::write_be(dst, 8 * i, 8, low + i as u64);
    }
}

#[unsafe(no_mangle)]
pub extern "C" fn leaf_read(src: &[u8]) -> u64
    ensures { result ≡ xor_all (longs_in (length src.now / 8) src.now) }
{
    let n = src.len() / 8;
    fold_longs(src, n)
}

#[unsafe(no_mangle)]
pub extern "C" fn leaf_read_width(src: &[u8]) -> u64
    ensures { result ≡ xor_all (longs_in (length src.now / 8) src.now) }
{
    let n = src.len() / 8;
    fold_width(src, n)
}

#[unsafe(no_mangle)]
pub extern "C" fn leaf_write(dst: &mut [u8], first: u32)
    ensures { dst.new ≡ splice dst.old 0 (flat (to_be 8) (up_from first (length dst.old / 8))) }
{
    let n = dst.len() / 8;
    run_longs(dst, n, first);
}

#[unsafe(no_mangle)]
pub extern "C" fn leaf_write_width(dst: &mut [u8], first: u32)
    ensures { dst.new ≡ splice dst.old 0 (flat (to_be 8) (up_from first (length dst.old / 8))) }
{
    let n = dst.len() / 8;
    run_width(dst, n, first);
}

// ---- the state

// A state decoded, changed in cell k of its arrays, and encoded into another buffer.
#[unsafe(no_mangle)]
pub extern "C" fn leaf_state(dst: &mut [u8], src: &[u8], k: usize, v: u32)
    ensures { dst.new ≡ bench_changed dst.old src.now k v }
{
    if src.len() != mem_codec::state_len() {
        return;
    }
    if dst.len() != mem_codec::state_len() {
        return;
    }
    if 64 <= k {
        return;
    }
    let mut st = mem_codec::decode(src);
    st.addresses[k] = v as u64;
    st.stamps[k] = v as u64;
    st.offsets[k] = v;
    mem_codec::encode(dst, st);
}
