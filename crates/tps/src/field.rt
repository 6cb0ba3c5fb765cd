// Fields of a TPS block: numbers, each sent in so many bits, the highest first, one bit to a byte.
ghost use Rattle.std.specs.Prelude.{◌≡◌, ◌+◌, ◌≤◌, ◌++◌, length};
ghost use Rattle.std.specs.List.{AllByRecursion};
ghost use Rattle.arrayvec.specs.ArrayVec.{array_vec_len};
ghost use Rattle.tps.specs.Field.{bits, field as field_of, sent};

use arrayvec::ArrayVec;

pub(crate) const BLOCK_BITS: usize = 67;

// The bits of a block, as far as they were sent.
pub(crate) type Bits = ArrayVec<u8, BLOCK_BITS>;

#[derive(Clone, Copy)]
pub struct Field {
    pub width: usize,
    pub value: u32,
}

impl Field {
    pub(crate) fn new(width: usize, value: u32) -> Field
        ensures { result ≡ field_of width value }
    {
        Field { width, value }
    }

    // The last bits of the value, behind those that were sent.
    pub(crate) fn send(self, sent: &mut Bits)
        requires narrow { self.width ≤ 32 }
        requires room { array_vec_len sent.old + self.width ≤ 67 }
        ensures { sent.new.items ≡ sent.old.items ++ bits self.width self.value }
    {
        for place in (0..self.width).rev() {
            sent.push(((self.value >> place) % 2) as u8);
        }
    }
}

// Fields one after another.
pub(crate) fn send_all(fields: &[Field]) -> Bits
    requires narrow { AllByRecursion (λ field. field.width ≤ 32) fields.now }
    requires room { length (sent fields.now) ≤ 67 }
    ensures { result.items ≡ sent fields.now }
{
    let mut bits = ArrayVec::new();
    for field in fields {
        field.send(&mut bits);
    }
    bits
}
