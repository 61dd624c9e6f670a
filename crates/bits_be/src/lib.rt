// Big-endian numbers in bytes (01, The array).
#![tactic(auto)]

ghost use Rattle.std.specs.Prelude.{◌≡◌, ◌+◌, ◌≤◌, length};
ghost use Rattle.spec.specs.Bytes.{be_of, to_be, part, splice};

// The number that width bytes from index at say.
pub fn read_be(src: &[u8], at: usize, width: usize) -> u64
    requires { (at + width ≤ length src.now) × (width ≤ 8) }
    ensures { result ≡ be_of (part at width src.now) }
{
    let mut n: u64 = 0;
    for i in 0..width {
        n = n * 256 + u64::from(src[at + i]);
    }
    n
}

// The number that 4 bytes from index at say.
pub fn read_be32(src: &[u8], at: usize) -> u32
    requires { at + 4 ≤ length src.now }
    ensures { result ≡ be_of (part at 4 src.now) }
{
    u32::from_be_bytes([src[at], src[at + 1], src[at + 2], src[at + 3]])
}

// The number that 8 bytes from index at say.
pub fn read_be64(src: &[u8], at: usize) -> u64
    requires { at + 8 ≤ length src.now }
    ensures { result ≡ be_of (part at 8 src.now) }
{
    u64::from_be_bytes([
        src[at],
        src[at + 1],
        src[at + 2],
        src[at + 3],
        src[at + 4],
        src[at + 5],
        src[at + 6],
        src[at + 7],
    ])
}

// Writes the width lowest bytes of n from index at.
pub fn write_be(dst: &mut [u8], at: usize, width: usize, n: u64)
    requires { at + width ≤ length dst.old }
    ensures { dst.new ≡ splice dst.old at (to_be width n) }
{
    let mut rest = n;
    for i in (0..width).rev() {
        dst[at + i] = (rest % 256) as u8;
        rest /= 256;
    }
}

// Writes the 4 bytes of n from index at.
pub fn write_be32(dst: &mut [u8], at: usize, n: u32)
    requires { at + 4 ≤ length dst.old }
    ensures { dst.new ≡ splice dst.old at (to_be 4 n) }
{
    dst[at..at + 4].copy_from_slice(&n.to_be_bytes());
}

// Writes the 8 bytes of n from index at.
pub fn write_be64(dst: &mut [u8], at: usize, n: u64)
    requires { at + 8 ≤ length dst.old }
    ensures { dst.new ≡ splice dst.old at (to_be 8 n) }
{
    dst[at..at + 8].copy_from_slice(&n.to_be_bytes());
}
