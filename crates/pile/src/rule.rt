// A pile keeps the stage rule.
ghost use Rattle.std.specs.Prelude.{◌≡◌, Some};
ghost use Rattle.stage.specs.Piled.{lifted, piled, piled_sending, piled_receiving};
ghost use Rattle.pile.specs.Queued.{queueing};
ghost use Rattle.stage.proofs.PilingRule.{piled_rule};
ghost use Rattle.stage.proofs.PilingDown.{piled_sends};
ghost use Rattle.stage.proofs.PilingUp.{piled_hears};

use super::Pile;
use super::queue::Queue;
use refusal::Refusal;
use stage::{Fault, Passed, Stage};

// The cause of the fault that a unit handed up makes which isn't below the upper part's given.
const MISFIT: u8 = 1;

// A lower part's fault, seen from above `size` stages.
fn beyond(fault: Fault, size: u32) -> Fault
    ensures { Some result ≡ lifted size (Some fault) }
{
    Fault {
        stage: fault.stage.saturating_add(size),
        ..fault
    }
}

impl<U: Stage, L: Stage> Stage for Pile<U, L> {
    ghost model = { λ p. piled (U.Stage.model p.upper) (L.Stage.model p.lower) };

    ghost sending = { λ p. piled_sending (U.Stage.model p.upper) (L.Stage.model p.lower) (queueing (L.Stage.model p.lower) p.down (U.Stage.sending p.upper)) (L.Stage.sending p.lower) };

    ghost receiving = { λ p. piled_receiving p.misfit (U.Stage.model p.upper) (L.Stage.model p.lower) (U.Stage.receiving p.upper) (L.Stage.receiving p.lower) };

    ghost rule = { λ s. piled_rule (U.Stage.rule s.upper) (L.Stage.rule s.lower) };

    ghost sends = { λ s.
        let u = U.Stage in
        let l = L.Stage in
        piled_sends (U.Stage.model s.upper) (L.Stage.model s.lower) (queueing (L.Stage.model s.lower) s.down (U.Stage.sending s.upper)) (L.Stage.sending s.lower)
        (u.rule s.upper).sends_grow (l.rule s.lower).sends_grow (u.sends s.upper) (l.sends s.lower) };

    ghost hears = { λ s.
        let u = U.Stage in
        let l = L.Stage in
        piled_hears s.misfit (U.Stage.model s.upper) (L.Stage.model s.lower) (U.Stage.receiving s.upper) (L.Stage.receiving s.lower)
        (u.rule s.upper).hears_grow (l.rule s.lower).hears_grow (u.hears s.upper) (l.hears s.lower) };

    fn taken(&self) -> u16 {
        if self.parts_fit() {
            self.upper.taken()
        } else {
            0
        }
    }

    fn given(&self) -> u16 {
        if self.parts_fit() {
            self.lower.given()
        } else {
            0
        }
    }

    fn size(&self) -> u32 {
        self.upper.size().saturating_add(self.lower.size())
    }

    fn hold(&self, m: u32) -> u32 {
        self.upper.hold(self.lower.hold(m))
    }

    fn send_waits(&mut self) -> bool {
        self.settle_down()
    }

    fn receive_waits(&mut self) -> bool {
        self.settle_up()
    }

    fn renew(&mut self) {
        self.upper.renew();
        self.lower.renew();
        self.down = Queue::new();
        self.misfit = false;
    }

    fn send_offer(&mut self, unit: u8) -> Result<(), Refusal> {
        if u16::from(unit) >= self.taken() {
            return Err(Refusal::UnitTooLarge);
        }
        if self.settle_down() {
            return Err(Refusal::SomethingWaits);
        }
        self.upper.send_offer(unit)
    }

    fn send_take(&mut self) -> Option<u8> {
        if !self.settle_down() {
            return None;
        }
        self.lower.send_take()
    }

    fn send_drain(&mut self, output: &mut [u8]) -> usize {
        self.send_pass(&[], output).made
    }

    fn send_pass(&mut self, input: &[u8], output: &mut [u8]) -> Passed {
        if !self.parts_fit() {
            return Passed::default();
        }
        self.pass_down(input, output)
    }

    fn receive_offer(&mut self, unit: u8) -> Result<(), Refusal> {
        if u16::from(unit) >= self.given() {
            return Err(Refusal::UnitTooLarge);
        }
        if self.settle_up() {
            return Err(Refusal::SomethingWaits);
        }
        self.lower.receive_offer(unit)
    }

    fn receive_take(&mut self) -> Result<Option<u8>, Fault> {
        if !self.settle_up() {
            return Ok(None);
        }
        if let Some(unit) = self.upper.receive_take()? {
            return Ok(Some(unit));
        }
        if self.misfit {
            return Err(Fault {
                stage: self.upper.size(),
                cause: MISFIT,
            });
        }
        let size = self.upper.size();
        self.lower
            .receive_take()
            .map_err(|fault| beyond(fault, size))
    }
}
