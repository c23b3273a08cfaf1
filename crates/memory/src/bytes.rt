// Little-endian reads and writes of 1, 2, 4 and 8 bytes. The width is a constant of each copy, so that the compiler makes one move of it. (Copies of
// `n` bytes, with no constant and no match, were proved and measured: the guest program `sieve` took 156.6 instructions a step, and takes 151.0 with
// these; the bar is the 153.8 of the loops that this was written as first.)
ghost use Rattle.std.specs.Prelude.{◌≡◌, ◌+◌, ◌*◌, ◌^◌, ◌<◌, ◌≤◌, length};
ghost use Rattle.model.specs.Bytes.{value, written};
ghost use Rattle.memory.specs.Width.{IsWidth};

fn read_bytes<const N: usize>(mem: &[u8], a: usize) -> u64
    requires { (a + N ≤ length mem.now) × (N ≤ 8) }
    ensures { (result ≡ value mem.now a 0 N) × (result < 2 ^ (8 * N)) }
{
    let mut bytes = [0; 8];
    bytes[..N].copy_from_slice(&mem[a..a + N]);
    u64::from_le_bytes(bytes)
}

// The number that `n` bytes from `a` on make. Each arm gives the copy its width as a constant. (A width is a number: `width` says why.)
pub fn read(mem: &[u8], a: u64, n: u64) -> u64
    requires { IsWidth n × (a + n ≤ length mem.now) }
    ensures { (result ≡ value mem.now a 0 n) × (result < 2 ^ (8 * n)) }
{
    let at = a as usize;
    match n {
        1 => read_bytes::<1>(mem, at),
        2 => read_bytes::<2>(mem, at),
        4 => read_bytes::<4>(mem, at),
        _ => read_bytes::<8>(mem, at),
    }
}

fn write_bytes<const N: usize>(mem: &mut [u8], a: usize, v: u64)
    requires { (a + N ≤ length mem.old) × (N ≤ 8) }
    ensures { mem.new ≡ written mem.old a 0 N v }
{
    mem[a..a + N].copy_from_slice(&v.to_le_bytes()[..N]);
}

// The low `n` bytes of `v` put from `a` on.
pub fn write(mem: &mut [u8], a: u64, n: u64, v: u64)
    requires { IsWidth n × (a + n ≤ length mem.old) }
    ensures { mem.new ≡ written mem.old a 0 n v }
{
    let at = a as usize;
    match n {
        1 => write_bytes::<1>(mem, at, v),
        2 => write_bytes::<2>(mem, at, v),
        4 => write_bytes::<4>(mem, at, v),
        _ => write_bytes::<8>(mem, at, v),
    }
}
