// What the bytes of a group are combined with (EN 300 744, clause 4.3.1): the place in a group of 1504 bytes, and the register.
// Input: a byte. Output: the byte combined with what belongs to its place.
ghost use Rattle.std.specs.Prelude.{◌≡◌, ◌+◌, ◌%◌, ◌<◌, bit_xor};
ghost use Rattle.dispersal.specs.Noise.{mask, masked, moved_on, before};

use crate::register::Register;

#[derive(Clone, Copy)]
pub struct Noise {
    place: u16,
    register: Register,
    ghost within: { place < 1504 },
    ghost runs: { register.bits ≡ before place },
}

// What the byte at a place is combined with, where the next eight outputs are `out`.
fn mask_at(place: u16, out: u8) -> u8
    ensures { result ≡ masked place out }
{
    match place {
        0 => 0xff,
        p if p % 188 == 0 => 0,
        _ => out,
    }
}

// The register before the byte after a place: it runs on over every byte but byte 0.
fn moved(place: u16, register: Register) -> Register
    ensures { result.bits ≡ moved_on place register.bits }
{
    if place > 0 {
        register.run_on()
    } else {
        register
    }
}

fn next_place(place: u16) -> u16
    requires { place < 1504 }
    ensures { result ≡ (place + 1) % 1504 }
{
    if place == 1503 { 0 } else { place + 1 }
}

impl Noise {
    pub(crate) fn new() -> Noise
        ensures { result.place ≡ 0 }
    {
        Noise {
            place: 0,
            register: Register::loaded(),
        }
    }

    // Combines one byte, and goes on to the next place.
    pub(crate) fn pass(&mut self, byte: u8) -> u8
        ensures out { result ≡ bit_xor byte (mask self.old.place) }
        ensures on { self.new.place ≡ (self.old.place + 1) % 1504 }
    {
        let mask = mask_at(self.place, self.register.outputs());
        let place = next_place(self.place);
        let register = if place == 0 {
            Register::loaded()
        } else {
            moved(self.place, self.register)
        };
        *self = Noise { place, register };
        byte ^ mask
    }
}
