// Units go down a pile: the upper part gives them into the queue, and the lower part is handed them from there.
ghost use Rattle.std.specs.Prelude.{◌≡◌, ◌≤◌, []};
ghost use Rattle.stage.specs.Model.{some};
ghost use Rattle.stage.specs.Passing.{Passes};
ghost use Rattle.stage.specs.Piled.{piled, joined_sending};
ghost use Rattle.pile.specs.Queued.{queueing};

use super::Pile;
use stage::{Passed, Stage};

impl<U: Stage, L: Stage> Pile<U, L> {
    // What is queued is handed down and the queue filled anew, in turn, until a unit waits in the lower part or the upper part has nothing to give.
    pub(crate) fn pass_down(&mut self, input: &[u8], output: &mut [u8]) -> Passed
        requires { (U.Stage.model self.old.upper).given ≤ (L.Stage.model self.old.lower).taken }
        ensures upper_fixed { U.Stage.model self.new.upper ≡ U.Stage.model self.old.upper }
        ensures lower_fixed { L.Stage.model self.new.lower ≡ L.Stage.model self.old.lower }
        ensures upper_other { U.Stage.receiving self.new.upper ≡ U.Stage.receiving self.old.upper }
        ensures lower_other { L.Stage.receiving self.new.lower ≡ L.Stage.receiving self.old.lower }
        ensures misfit { self.new.misfit ≡ self.old.misfit }
        ensures passes { Passes (piled (U.Stage.model self.old.upper) (L.Stage.model self.old.lower)) (joined_sending (queueing (L.Stage.model self.old.lower) self.old.down (U.Stage.sending self.old.upper)) (L.Stage.sending self.old.lower)) (joined_sending (queueing (L.Stage.model self.old.lower) self.new.down (U.Stage.sending self.new.upper)) (L.Stage.sending self.new.lower)) input.now output.old output.new result }
        ensures settled { (L.Stage.sending self.new.lower).waits ≡ [] → (queueing (L.Stage.model self.old.lower) self.new.down (U.Stage.sending self.new.upper)).waits ≡ [] }
        ensures answers { result.waits ≡ some (L.Stage.sending self.new.lower).waits }
    {
        // Both grow by what each call answers, so no iterator counts them.
        let mut used = 0;
        let mut made = 0;
        loop {
            let passed = self.down.hand_down(&mut self.lower, &mut output[made..]);
            made += passed.made;
            if passed.waits {
                return Passed {
                    used,
                    made,
                    waits: true,
                };
            }
            used += self.down.refill(&mut self.upper, &input[used..]);
            if self.down.is_empty() {
                return Passed {
                    used,
                    made,
                    waits: false,
                };
            }
        }
    }
}
