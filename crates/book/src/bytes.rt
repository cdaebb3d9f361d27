// Unsigned little-endian numbers in a slice of bytes.
ghost use Rattle.std.specs.Prelude.{◌+◌, ◌≤◌, ◌<◌, ◌≡◌, length};
ghost use Rattle.book.specs.Bytes.{byte_at, two_at_lem, four_at_lem, two_bytes, four_bytes};
ghost use Rattle.book.specs.Private.{stored};

pub fn byte_at(b: &[u8], i: usize) -> usize
    requires { i < length b.now }
    ensures { (result ≡ byte_at b.now i) × (result < 256) }
{
    b[i] as usize
}

// The number in the 2 bytes from i on.
pub fn two_at(b: &[u8], i: usize) -> usize
    requires { i + 2 ≤ length b.now }
    ensures { (result ≡ two_at_lem b.now i) × (result < 65536) }
{
    u16::from_le_bytes([b[i], b[i + 1]]) as usize
}

// The number in the 4 bytes from i on.
pub fn four_at(b: &[u8], i: usize) -> u32
    requires { i + 4 ≤ length b.now }
    ensures { result ≡ four_at_lem b.now i }
{
    u32::from_le_bytes([b[i], b[i + 1], b[i + 2], b[i + 3]])
}

// Stores the 2 bytes of a number from `at` on.
pub fn put_two(b: &mut [u8], at: usize, n: usize)
    requires { at + 2 ≤ length b.old }
    ensures { b.new ≡ stored b.old at (two_bytes n) }
{
    b[at..at + 2].copy_from_slice(&n.to_le_bytes()[..2]);
}

// Stores the 4 bytes of a number from `at` on.
pub fn put_four(b: &mut [u8], at: usize, n: u32)
    requires { at + 4 ≤ length b.old }
    ensures { b.new ≡ stored b.old at (four_bytes n) }
{
    b[at..at + 4].copy_from_slice(&n.to_le_bytes());
}
