// The protection of a TPS block (EN 300 744, clause 4.6.2.11): bits in, that of the highest power first, the remainder by h(x) out.
ghost use Rattle.std.specs.Prelude.{◌≡◌, ◌<◌};
ghost use Rattle.std.specs.List.{AllByRecursion};
ghost use Rattle.tps.specs.Protection.{reduced as reduced_of, remainder_from};

// h(x) = x^14 + x^9 + x^8 + x^6 + x^5 + x^4 + x^2 + x + 1.
const GENERATOR: u32 = 0b100_0011_0111_0111;

fn reduced(n: u32) -> u32
    ensures { result ≡ reduced_of n }
{
    if n >= 1 << 14 { n ^ GENERATOR } else { n }
}

// Long division: bit by bit is brought down, and h taken off where it goes.
pub(crate) fn remainder(bits: &[u8]) -> u32
    requires { AllByRecursion (λ b. b < 2) bits.now }
    ensures { result ≡ remainder_from 0 bits.now }
{
    let mut r: u32 = 0;
    for bit in bits {
        r = reduced(2 * r + u32::from(*bit));
    }
    r
}
