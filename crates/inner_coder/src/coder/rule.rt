// The inner coder keeps the stage rule: each bit is back with its first unit, and a second one that disagrees is cause 4.
ghost use Rattle.std.specs.Prelude.{◌≡◌};
ghost use Rattle.settings.specs.Rate.{rate_read};
ghost use Rattle.stage.specs.Optional.{known_model, known_sending, known_receiving};
ghost use Rattle.stage.specs.Model.{new_sending, new_receiving};
ghost use Rattle.inner_coder.specs.Coder.{inner_code, inner_coder, model_of, sending_of, receiving_of, arrival};
ghost use Rattle.inner_coder.specs.Coding.{coder_rule};
ghost use Rattle.stage.proofs.Machine.{gives_sends, hears_from_hears};
ghost use Rattle.inner_coder.specs.Convolution.{sends_one, walked, hears_one, hearing_after};
ghost use Rattle.stage.proofs.Hearing.{hushed_hears};

use super::super::convolution::{Walk, first_unit, output_x, output_y};
use super::super::encoding::encode;
use super::super::puncturing::{Left, Sent};
use super::InnerCoder;
use refusal::Refusal;
use settings::Rate;
use stage::{Fault, Passed, Stage};

// The second unit of a bit disagreed with its first.
const DISAGREES: Fault = Fault { stage: 1, cause: 4 };

impl InnerCoder {
    // For the code of a rate, known or not, as the outside gives it; `of` takes the rate.
    pub fn new(rate: u8) -> Option<InnerCoder>
        ensures model { known_model model_of result ≡ inner_coder (rate_read rate) }
        ensures sends { known_sending sending_of result ≡ new_sending (inner_coder (rate_read rate)) }
        ensures hears { known_receiving receiving_of result ≡ new_receiving (inner_coder (rate_read rate)) }
    {
        let rate = Rate::try_from(rate).ok()?;
        Some(InnerCoder::of(rate))
    }

    pub fn of(rate: Rate) -> InnerCoder
        ensures rate { result.sending.rate ≡ rate }
        ensures model { model_of result ≡ inner_code rate }
        ensures sends { sending_of result ≡ new_sending (inner_code rate) }
        ensures hears { receiving_of result ≡ new_receiving (inner_code rate) }
    {
        InnerCoder {
            sending: Walk::new(rate),
            waits: Left::Nothing,
            hearing: Walk::new(rate),
            second: false,
            arrived: Ok(None),
        }
    }
}

impl Stage for InnerCoder {
    ghost model = { model_of };

    ghost sending = { sending_of };

    ghost receiving = { receiving_of };

    ghost rule = { λ s. coder_rule s.sending.rate };

    ghost sends = { λ s. gives_sends (sends_one s.sending.rate) (walked s.sending.rate) _ };

    ghost hears = { λ s. hushed_hears (arrival s.arrived).fault (hears_from_hears (hears_one s.hearing.rate) (hearing_after s.hearing.rate) _) };

    fn taken(&self) -> u16 {
        2
    }

    fn given(&self) -> u16 {
        2
    }

    fn size(&self) -> u32 {
        1
    }

    fn hold(&self, m: u32) -> u32 {
        m
    }

    fn send_waits(&mut self) -> bool {
        self.waits != Left::Nothing
    }

    fn receive_waits(&mut self) -> bool {
        self.arrived != Ok(None)
    }

    fn renew(&mut self) {
        *self = InnerCoder::of(self.sending.rate);
    }

    fn send_offer(&mut self, unit: u8) -> Result<(), Refusal> {
        if unit >= 2 {
            return Err(Refusal::UnitTooLarge);
        }
        if self.waits != Left::Nothing {
            return Err(Refusal::SomethingWaits);
        }
        self.waits = Left::from(self.sending.sent());
        self.sending.shift(unit);
        Ok(())
    }

    fn send_take(&mut self) -> Option<u8> {
        let (left, unit) = match self.waits {
            Left::Nothing => return None,
            Left::Both => (Left::Y, output_x(self.sending.register)),
            Left::X => (Left::Nothing, output_x(self.sending.register)),
            Left::Y => (Left::Nothing, output_y(self.sending.register)),
        };
        self.waits = left;
        Some(unit)
    }

    // Bits are coded straight into the output, behind what is left of the last one, and those at its end unit by unit.
    fn send_pass(&mut self, input: &[u8], output: &mut [u8]) -> Passed {
        let left = self.send_drain(output);
        if self.waits != Left::Nothing {
            return Passed {
                used: 0,
                made: left,
                waits: true,
            };
        }
        let coded = encode(self.sending, input, &mut output[left..]);
        self.sending = coded.walk;
        let used = coded.used;
        let made = left + coded.made;
        let rest = self.send_units(&input[used..], &mut output[made..]);
        Passed {
            used: used + rest.used,
            made: made + rest.made,
            waits: rest.waits,
        }
    }

    fn receive_offer(&mut self, unit: u8) -> Result<(), Refusal> {
        if unit >= 2 {
            return Err(Refusal::UnitTooLarge);
        }
        if self.arrived != Ok(None) {
            return Err(Refusal::SomethingWaits);
        }
        if self.second {
            self.second = false;
            if unit != output_y(self.hearing.register) {
                self.arrived = Err(DISAGREES);
            }
            return Ok(());
        }
        let sent = self.hearing.sent();
        // Both outputs tap the input: a one turns what a zero would have sent.
        let zero = first_unit(sent, self.hearing.register / 2);
        let bit = u8::from(unit != zero);
        self.hearing.shift(bit);
        self.second = sent == Sent::Both;
        self.arrived = Ok(Some(bit));
        Ok(())
    }

    fn receive_take(&mut self) -> Result<Option<u8>, Fault> {
        let unit = self.arrived?;
        self.arrived = Ok(None);
        Ok(unit)
    }
}
