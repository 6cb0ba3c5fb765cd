// Moving the units that wait in one part of a pile on to the other, where the parts fit. The answer is whether something waits in the pile.
ghost use Rattle.std.specs.Prelude.{◌≡◌, ◌&&◌, true, false, []};
ghost use Rattle.stage.specs.Model.{silence, some, some_heard};
ghost use Rattle.stage.specs.Piled.{fits, joined_sending, joined_waits, joined_receiving};
ghost use Rattle.pile.specs.Queued.{queueing};

use super::Pile;
use stage::Stage;

impl<U: Stage, L: Stage> Pile<U, L> {
    // Down, until a unit waits in the lower part or none is left above it.
    pub(crate) fn settle_down(&mut self) -> bool
        ensures upper_fixed { U.Stage.model self.new.upper ≡ U.Stage.model self.old.upper }
        ensures lower_fixed { L.Stage.model self.new.lower ≡ L.Stage.model self.old.lower }
        ensures upper_other { U.Stage.receiving self.new.upper ≡ U.Stage.receiving self.old.upper }
        ensures lower_other { L.Stage.receiving self.new.lower ≡ L.Stage.receiving self.old.lower }
        ensures misfit { self.new.misfit ≡ self.old.misfit }
        ensures side { joined_sending (queueing (L.Stage.model self.old.lower) self.new.down (U.Stage.sending self.new.upper)) (L.Stage.sending self.new.lower) ≡ joined_sending (queueing (L.Stage.model self.old.lower) self.old.down (U.Stage.sending self.old.upper)) (L.Stage.sending self.old.lower) }
        ensures settled { fits (U.Stage.model self.old.upper) (L.Stage.model self.old.lower) ≡ true → (L.Stage.sending self.new.lower).waits ≡ [] → (queueing (L.Stage.model self.old.lower) self.new.down (U.Stage.sending self.new.upper)).waits ≡ [] }
        ensures answers { result ≡ (fits (U.Stage.model self.old.upper) (L.Stage.model self.old.lower) && some (L.Stage.sending self.new.lower).waits) }
    {
        self.parts_fit() && self.pass_down(&[], &mut []).waits
    }

    // Up, until something waits in the upper part, or a unit doesn't fit there, or no unit is left in the lower part.
    pub(crate) fn settle_up(&mut self) -> bool
        ensures upper_fixed { U.Stage.model self.new.upper ≡ U.Stage.model self.old.upper }
        ensures lower_fixed { L.Stage.model self.new.lower ≡ L.Stage.model self.old.lower }
        ensures upper_other { U.Stage.sending self.new.upper ≡ U.Stage.sending self.old.upper }
        ensures lower_other { L.Stage.sending self.new.lower ≡ L.Stage.sending self.old.lower }
        ensures down { self.new.down ≡ self.old.down }
        ensures side { joined_receiving self.new.misfit (U.Stage.model self.old.upper) (U.Stage.receiving self.new.upper) (L.Stage.receiving self.new.lower) ≡ joined_receiving self.old.misfit (U.Stage.model self.old.upper) (U.Stage.receiving self.old.upper) (L.Stage.receiving self.old.lower) }
        ensures settled { fits (U.Stage.model self.old.upper) (L.Stage.model self.old.lower) ≡ true → (U.Stage.receiving self.new.upper).waits ≡ silence → self.new.misfit ≡ false → (L.Stage.receiving self.new.lower).waits.units ≡ [] }
        ensures answers { result ≡ (fits (U.Stage.model self.old.upper) (L.Stage.model self.old.lower) && some_heard (joined_waits self.new.misfit (U.Stage.model self.old.upper) (U.Stage.receiving self.new.upper) (L.Stage.receiving self.new.lower))) }
    {
        if !self.parts_fit() {
            return false;
        }
        while !self.misfit && !self.upper.receive_waits() {
            match self.lower.receive_take() {
                // A fault stays in the lower part.
                Err(_) => return true,
                Ok(None) => return false,
                // Nothing waits above, so only a unit that is too large is refused.
                Ok(Some(unit)) => self.misfit = self.upper.receive_offer(unit).is_err(),
            }
        }
        true
    }
}
