// The bit interleaver (EN 300 744, clause 4.3.4.1) keeps the stage rule.
// Input: bits, in blocks of 126 × v. Output: 126 words of v bits for each block.
ghost use Rattle.std.specs.Prelude.{◌≡◌, ◌*◌};
ghost use Rattle.settings.specs.Constellation.{constellation_read, word_bits};
ghost use Rattle.stage.specs.Optional.{known_model, known_sending, known_receiving};
ghost use Rattle.stage.specs.Model.{new_sending, new_receiving};
ghost use Rattle.inner_interleaver.specs.BitInterleaver.{bit_interleaving, bit_interleaver, sending_of, receiving_of, same, encode, decode};
ghost use Rattle.inner_interleaver.specs.BitBlocks.{bit_rule};
ghost use Rattle.stage.proofs.Blocks.{blocks_sends, blocks_hears};

use super::super::limits::limit;
use super::super::words::{WORDS, bit, block, word};
use super::BitInterleaver;
use holds::stopped;
use refusal::Refusal;
use settings::Constellation;
use stage::{Fault, Passed, Stage};

// The most bits that a block can have.
const BITS: usize = 756;

impl BitInterleaver {
    // For the code of a constellation, known or not, as the outside gives it; `of` takes the constellation.
    pub fn new(constellation: u8) -> Option<BitInterleaver>
        ensures model { known_model (λ s. bit_interleaving s.constellation) result ≡ bit_interleaver (constellation_read constellation) }
        ensures sends { known_sending sending_of result ≡ new_sending (bit_interleaver (constellation_read constellation)) }
        ensures hears { known_receiving receiving_of result ≡ new_receiving (bit_interleaver (constellation_read constellation)) }
    {
        let constellation = Constellation::try_from(constellation).ok()?;
        Some(BitInterleaver::of(constellation))
    }

    pub fn of(constellation: Constellation) -> BitInterleaver
        ensures model { result.constellation ≡ constellation }
        ensures sends { sending_of result ≡ new_sending (bit_interleaving constellation) }
        ensures hears { receiving_of result ≡ new_receiving (bit_interleaving constellation) }
    {
        BitInterleaver {
            constellation,
            bits: [0; BITS],
            have: 0,
            at: WORDS,
            words: [0; WORDS],
            got: 0,
            next: BITS,
        }
    }
}

impl Stage for BitInterleaver {
    ghost model = { λ s. bit_interleaving s.constellation };

    ghost sending = { sending_of };

    ghost receiving = { receiving_of };

    ghost rule = { λ s. bit_rule s.constellation };

    ghost sends = { λ s. blocks_sends same (encode s.constellation) (126 * word_bits s.constellation) tt _ };

    ghost hears = { λ s. blocks_hears same (decode s.constellation) 126 tt _ };

    fn taken(&self) -> u16 {
        2
    }

    fn given(&self) -> u16 {
        limit(self.constellation)
    }

    fn size(&self) -> u32 {
        1
    }

    fn hold(&self, m: u32) -> u32 {
        let width = u64::from(self.constellation.word_bits());
        stopped(m, width * u64::from(m) + 251 * width - 1)
    }

    fn send_waits(&mut self) -> bool {
        self.at < WORDS
    }

    fn receive_waits(&mut self) -> bool {
        self.next < block(self.constellation)
    }

    fn renew(&mut self) {
        self.have = 0;
        self.at = WORDS;
        self.got = 0;
        self.next = BITS;
    }

    fn send_offer(&mut self, unit: u8) -> Result<(), Refusal> {
        if unit >= 2 {
            return Err(Refusal::UnitTooLarge);
        }
        if self.at < WORDS {
            return Err(Refusal::SomethingWaits);
        }
        self.bits[self.have] = unit;
        if self.have + 1 < block(self.constellation) {
            self.have += 1;
        } else {
            self.have = 0;
            self.at = 0;
        }
        Ok(())
    }

    fn send_take(&mut self) -> Option<u8> {
        if self.at >= WORDS {
            return None;
        }
        let unit = word(self.constellation, &self.bits, self.at);
        self.at += 1;
        Some(unit)
    }

    fn send_drain(&mut self, output: &mut [u8]) -> usize {
        let first = self.at;
        for (made, place) in output.iter_mut().enumerate() {
            if WORDS <= first + made {
                self.at = WORDS;
                return made;
            }
            *place = word(self.constellation, &self.bits, first + made);
        }
        self.at = first + output.len();
        output.len()
    }

    // The words of a block go out before bits of the next one are gathered. How far a step comes in both slices it answers itself, so no iterator goes over them.
    fn send_pass(&mut self, input: &[u8], output: &mut [u8]) -> Passed {
        let mut used = 0;
        let mut made = 0;
        loop {
            made += self.send_drain(&mut output[made..]);
            if self.at < WORDS {
                return Passed {
                    used,
                    made,
                    waits: true,
                };
            }
            used += self.gather(&input[used..]);
            if self.at >= WORDS {
                return Passed {
                    used,
                    made,
                    waits: false,
                };
            }
        }
    }

    fn receive_offer(&mut self, unit: u8) -> Result<(), Refusal> {
        if u16::from(unit) >= limit(self.constellation) {
            return Err(Refusal::UnitTooLarge);
        }
        if self.next < block(self.constellation) {
            return Err(Refusal::SomethingWaits);
        }
        self.words[self.got] = unit;
        if self.got + 1 < WORDS {
            self.got += 1;
        } else {
            self.got = 0;
            self.next = 0;
        }
        Ok(())
    }

    fn receive_take(&mut self) -> Result<Option<u8>, Fault> {
        if self.next >= block(self.constellation) {
            return Ok(None);
        }
        let unit = bit(self.constellation, &self.words, self.next);
        self.next += 1;
        Ok(Some(unit))
    }
}
