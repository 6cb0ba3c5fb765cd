// A stage made for a code that may be unknown: for an unknown one it takes and gives nothing.
ghost use Rattle.std.specs.Prelude.{Some, None};
ghost use Rattle.stage.specs.Optional.{known_model, known_sending, known_receiving};
ghost use Rattle.stage.specs.Unknown.{unknown_rule, unknown_sends, unknown_hears};

use super::{Fault, Stage};
use refusal::Refusal;

impl<S: Stage> Stage for Option<S> {
    ghost model = { known_model S.Stage.model };

    ghost sending = { known_sending S.Stage.sending };

    ghost receiving = { known_receiving S.Stage.receiving };

    ghost rule = { elim [ Some s ↦ S.Stage.rule s | None ↦ unknown_rule ] };

    ghost sends = { elim [ Some s ↦ S.Stage.sends s | None ↦ unknown_sends ] };

    ghost hears = { elim [ Some s ↦ S.Stage.hears s | None ↦ unknown_hears ] };

    fn taken(&self) -> u16 {
        self.as_ref().map_or(0, S::taken)
    }

    fn given(&self) -> u16 {
        self.as_ref().map_or(0, S::given)
    }

    fn size(&self) -> u32 {
        self.as_ref().map_or(1, S::size)
    }

    fn hold(&self, m: u32) -> u32 {
        self.as_ref().map_or(m, |s| s.hold(m))
    }

    fn send_waits(&mut self) -> bool {
        match self {
            Some(s) => s.send_waits(),
            None => false,
        }
    }

    fn receive_waits(&mut self) -> bool {
        match self {
            Some(s) => s.receive_waits(),
            None => false,
        }
    }

    fn renew(&mut self) {
        if let Some(s) = self {
            s.renew();
        }
    }

    fn send_offer(&mut self, unit: u8) -> Result<(), Refusal> {
        self.as_mut().ok_or(Refusal::UnitTooLarge)?.send_offer(unit)
    }

    fn send_take(&mut self) -> Option<u8> {
        self.as_mut()?.send_take()
    }

    fn receive_offer(&mut self, unit: u8) -> Result<(), Refusal> {
        self.as_mut()
            .ok_or(Refusal::UnitTooLarge)?
            .receive_offer(unit)
    }

    fn receive_take(&mut self) -> Result<Option<u8>, Fault> {
        match self {
            Some(s) => s.receive_take(),
            None => Ok(None),
        }
    }
}
