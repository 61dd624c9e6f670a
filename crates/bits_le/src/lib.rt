// Little-endian numbers in bytes (01, The array: the state).
#![tactic(auto)]

ghost use Rattle.std.specs.Prelude.{◌≡◌, ◌+◌, ◌≤◌, length};
ghost use Rattle.spec.specs.Bytes.{le_of, to_le, part, splice};

// The number that 4 bytes from index at say.
pub fn read_le32(src: &[u8], at: usize) -> u32
    requires { at + 4 ≤ length src.now }
    ensures { result ≡ le_of (part at 4 src.now) }
{
    u32::from_le_bytes([src[at], src[at + 1], src[at + 2], src[at + 3]])
}

// The number that 8 bytes from index at say.
pub fn read_le64(src: &[u8], at: usize) -> u64
    requires { at + 8 ≤ length src.now }
    ensures { result ≡ le_of (part at 8 src.now) }
{
    u64::from_le_bytes([
        src[at],
        src[at + 1],
        src[at + 2],
        src[at + 3],
        src[at + 4],
        src[at + 5],
        src[at + 6],
        src[at + 7],
    ])
}

// Writes the 4 bytes of n from index at.
pub fn write_le32(dst: &mut [u8], at: usize, n: u32)
    requires { at + 4 ≤ length dst.old }
    ensures { dst.new ≡ splice dst.old at (to_le 4 n) }
{
    dst[at..at + 4].copy_from_slice(&n.to_le_bytes());
}

// Writes the 8 bytes of n from index at.
pub fn write_le64(dst: &mut [u8], at: usize, n: u64)
    requires { at + 8 ≤ length dst.old }
    ensures { dst.new ≡ splice dst.old at (to_le 8 n) }
{
    dst[at..at + 8].copy_from_slice(&n.to_le_bytes());
}
