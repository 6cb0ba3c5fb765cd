// A pile: an upper stage over a lower one, which is a stage again. Sending, units go from upper to lower; receiving, from lower to upper.
//
// The parts are any stages, so nothing ties the state of one to that of the other: each call settles first, which is to say
// that it moves the units that wait in one part on to the other as far as they go. Neither side of the pile alters by that.
// Units go down by a queue, many at once.

#![tactic(auto)]

ghost use Rattle.std.specs.Prelude.{◌≡◌, false, []};
ghost use Rattle.stage.specs.Model.{new_sending, new_receiving};
ghost use Rattle.stage.specs.Piled.{fits, piled, piled_sending, piled_receiving};
ghost use Rattle.pile.specs.Queued.{queueing};

use queue::Queue;
use stage::Stage;

mod down;
mod queue;
mod rule;
mod settle;

#[derive(Drop)]
pub struct Pile<U, L> {
    upper: U,
    lower: L,
    // What the upper part has given, and the lower part has yet to be handed.
    down: Queue,
    // A unit was handed up that isn't below the upper part's given. The parts alone tell its fault, so no value stands beside the flag.
    misfit: bool,
}

impl<U: Stage, L: Stage> Pile<U, L> {
    // A pile of new parts is new.
    pub fn new(upper: U, lower: L) -> Pile<U, L>
        ensures holds { result ≡ record { upper = upper; lower = lower; down = result.down; misfit = false } }
        ensures empty { result.down ≡ [] }
        ensures sends { U.Stage.sending upper ≡ new_sending (U.Stage.model upper) → L.Stage.sending lower ≡ new_sending (L.Stage.model lower) → piled_sending (U.Stage.model upper) (L.Stage.model lower) (U.Stage.sending upper) (L.Stage.sending lower) ≡ new_sending (piled (U.Stage.model upper) (L.Stage.model lower)) }
        ensures queued { U.Stage.sending upper ≡ new_sending (U.Stage.model upper) → L.Stage.sending lower ≡ new_sending (L.Stage.model lower) → piled_sending (U.Stage.model upper) (L.Stage.model lower) (queueing (L.Stage.model lower) result.down (U.Stage.sending upper)) (L.Stage.sending lower) ≡ new_sending (piled (U.Stage.model upper) (L.Stage.model lower)) }
        ensures hears { U.Stage.receiving upper ≡ new_receiving (U.Stage.model upper) → L.Stage.receiving lower ≡ new_receiving (L.Stage.model lower) → piled_receiving false (U.Stage.model upper) (L.Stage.model lower) (U.Stage.receiving upper) (L.Stage.receiving lower) ≡ new_receiving (piled (U.Stage.model upper) (L.Stage.model lower)) }
    {
        Pile {
            upper,
            lower,
            down: Queue::new(),
            misfit: false,
        }
    }

    // Where the parts don't fit, the pile takes and gives nothing.
    fn parts_fit(&self) -> bool
        ensures { result ≡ fits (U.Stage.model self.now.upper) (L.Stage.model self.now.lower) }
    {
        self.upper.given() <= self.lower.taken()
    }
}
