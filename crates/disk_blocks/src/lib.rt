// Blocks of bytes and parts of buffers: copied, cleared, compared, exclusive-ored (01, What a zone holds).
#![tactic(auto)]

ghost use Rattle.std.specs.Prelude.{◌≡◌, ◌+◌, ◌≤◌, length, replicate};
ghost use Rattle.spec.specs.Bytes.{part, splice, xors};
ghost use Rattle.spec.specs.Lists.{same_list};
ghost use Rattle.law_basic.specs.Turns.{Apart};

// ---- exclusive or through a local array: it is apart from what is read and written, so that the compiler asks nothing before the loop

// The bytes that an exclusive or holds: those of the smallest block.
const PIECE: usize = 64;

// Exclusive-ors the 64 bytes of src from index from into those of dst from index at.
fn xor_piece(dst: &mut [u8], at: usize, src: &[u8], from: usize)
    requires { (at + 64 ≤ length dst.old) × (from + 64 ≤ length src.now) }
    ensures { dst.new ≡ splice dst.old at (xors (part at 64 dst.old) (part from 64 src.now)) }
{
    let mut held = [0u8; PIECE];
    for i in 0..PIECE {
        held[i] = dst[at + i] ^ src[from + i];
    }
    dst[at..at + PIECE].copy_from_slice(&held);
}

// ---- any length

// Puts src into dst from index at.
pub fn copy_part(dst: &mut [u8], at: usize, src: &[u8])
    requires { at + length src.now ≤ length dst.old }
    ensures { dst.new ≡ splice dst.old at src.now }
{
    dst[at..at + src.len()].copy_from_slice(src);
}

// Puts n zeros into dst from index at.
pub fn clear_part(dst: &mut [u8], at: usize, n: usize)
    requires { at + n ≤ length dst.old }
    ensures { dst.new ≡ splice dst.old at (replicate n 0) }
{
    // Stays: `fill` stores the last byte apart from the others, and takes half as long again for 64 bytes.
    for i in 0..n {
        dst[at + i] = 0;
    }
}

// Exclusive-ors src into dst from index at, byte by byte.
fn xor_bytes(dst: &mut [u8], at: usize, src: &[u8])
    requires { at + length src.now ≤ length dst.old }
    ensures { dst.new ≡ splice dst.old at (xors (part at (length src.now) dst.old) src.now) }
{
    for i in 0..src.len() {
        dst[at + i] ^= src[i];
    }
}

// Exclusive-ors src into dst from index at.
pub fn xor_part(dst: &mut [u8], at: usize, src: &[u8])
    requires { at + length src.now ≤ length dst.old }
    ensures { dst.new ≡ splice dst.old at (xors (part at (length src.now) dst.old) src.now) }
{
    let mut i = 0;
    // Stays: the bytes past the last piece begin where this loop ends, which a `for` would compute once more.
    while PIECE <= src.len() - i {
        xor_piece(dst, at + i, src, i);
        i += PIECE;
    }
    xor_bytes(dst, at + i, &src[i..]);
}

// Copies the n bytes from index b to index a of the same buffer.
pub fn copy_within(buf: &mut [u8], a: usize, b: usize, n: usize)
    requires { (a + n ≤ length buf.old) × (b + n ≤ length buf.old) × Apart a b n }
    ensures { buf.new ≡ splice buf.old a (part b n buf.old) }
{
    if a <= b {
        let (low, high) = buf.split_at_mut(b);
        copy_part(low, a, &high[..n]);
    } else {
        let (low, high) = buf.split_at_mut(a);
        copy_part(high, 0, &low[b..b + n]);
    }
}

// Exclusive-ors the n bytes from index b into those from index a of the same buffer.
pub fn xor_within(buf: &mut [u8], a: usize, b: usize, n: usize)
    requires { (a + n ≤ length buf.old) × (b + n ≤ length buf.old) × Apart a b n }
    ensures { buf.new ≡ splice buf.old a (xors (part a n buf.old) (part b n buf.old)) }
{
    if a <= b {
        let (low, high) = buf.split_at_mut(b);
        xor_part(low, a, &high[..n]);
    } else {
        let (low, high) = buf.split_at_mut(a);
        xor_part(high, 0, &low[b..b + n]);
    }
}

// The bytes of src in dst.
pub fn copy(dst: &mut [u8], src: &[u8])
    requires { length src.now ≡ length dst.old }
    ensures { dst.new ≡ src.now }
{
    dst.copy_from_slice(src);
}

// Zeros in dst.
pub fn clear(dst: &mut [u8])
    ensures { dst.new ≡ replicate (length dst.old) 0 }
{
    let n = dst.len();
    clear_part(dst, 0, n);
}

// The exclusive or of dst and src in dst.
pub fn xor_into(dst: &mut [u8], src: &[u8])
    requires { length src.now ≡ length dst.old }
    ensures { dst.new ≡ xors dst.old src.now }
{
    xor_part(dst, 0, src);
}

// Whether a and b are equal. All bytes are looked at, without a branch, so that many are compared at once.
pub fn same(a: &[u8], b: &[u8]) -> bool
    ensures { result ≡ same_list a.now b.now }
{
    if a.len() != b.len() {
        return false;
    }
    let mut off = 0u8;
    for i in 0..a.len() {
        off |= a[i] ^ b[i];
    }
    off == 0
}
