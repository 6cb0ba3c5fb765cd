// Packets for comparison: 47 hex, then 187 bytes of a generator of numbers of 32 bits.
ghost use Rattle.std.specs.Prelude.{◌≡◌, ◌+◌, ◌<◌, ℕ, suc, length, slice_index};
ghost use Rattle.samples.specs.Generator.{stepped, shown, after, byte_at, packet_from};

#[derive(Clone, Copy)]
pub struct Generator {
    pub state: u32,
}

fn step(state: u32) -> u32
    ensures { result ≡ stepped state }
{
    state.wrapping_mul(1_103_515_245).wrapping_add(12_345)
}

// Bits 16 to 23.
fn show(state: u32) -> u8
    ensures { result ≡ shown state }
{
    ((state >> 16) % 256) as u8
}

// A byte for each step from a state on; answers the last state.
fn fill(mut state: u32, bytes: &mut [u8]) -> u32
    ensures bytes { (k : ℕ) → k < length bytes.old → slice_index bytes.new k ≡ byte_at state (suc k) }
    ensures onward { result ≡ after (length bytes.old) state }
{
    for byte in bytes.iter_mut() {
        state = step(state);
        *byte = show(state);
    }
    state
}

impl Generator {
    pub fn new(seed: u32) -> Generator
        ensures { result.state ≡ seed }
    {
        Generator { state: seed }
    }

    // The next packet.
    pub fn packet(&mut self) -> [u8; 188]
        ensures bytes { result ≡ packet_from self.old.state }
        ensures onward { self.new.state ≡ after 187 self.old.state }
    {
        let mut packet = [0x47; 188];
        self.state = fill(self.state, &mut packet[1..]);
        packet
    }
}
