// Units between the parts of a pile, so that each part passes on many at once.
use stage::{Passed, Stage};
use std::marker::Model;

// The units from `at` to `end` are queued. A part fills the front of the store itself, which no vector of fixed size lends out.
#[derive(Drop)]
pub struct Queue {
    units: [u8; 512],
    at: usize,
    end: usize,
}

impl Model for Queue {
    ghost use Rattle.std.specs.Prelude.{◌≡◌, ◌-◌, ◌≤◌, List, ℕ, length, take, drop};

    ghost Value = { List ℕ };

    ghost view = { λ q. take (q.end - q.at) (drop q.at q.units) };

    ghost invariant = { λ q. (length q.units ≡ 512) × (q.at ≤ q.end) × (q.end ≤ 512) };
}

impl Queue {
    ghost use Rattle.std.specs.Prelude.{◌≡◌, ◌≤◌, not, [], length, take, drop};
    ghost use Rattle.stage.specs.Model.{fed, ahead, some};
    ghost use Rattle.stage.specs.Passing.{Passes};
    ghost use Rattle.stage.specs.Piled.{fitting};
    ghost use Rattle.stage.specs.Rule.{Under};

    pub(crate) fn new() -> Queue
        ensures { result ≡ [] }
    {
        Queue {
            units: [0; 512],
            at: 0,
            end: 0,
        }
    }

    pub(crate) fn is_empty(&self) -> bool
        ensures { result ≡ not (some self.now) }
    {
        self.at == self.end
    }

    // The lower part is handed what is queued.
    pub(crate) fn hand_down<L: Stage>(&mut self, lower: &mut L, output: &mut [u8]) -> Passed
        ensures fixed { L.Stage.model lower.new ≡ L.Stage.model lower.old }
        ensures other { L.Stage.receiving lower.new ≡ L.Stage.receiving lower.old }
        ensures passes { Passes (L.Stage.model lower.old) (L.Stage.sending lower.old) (L.Stage.sending lower.new) self.old output.old output.new result }
        ensures left { self.new ≡ drop result.used self.old }
    {
        let passed = lower.send_pass(&self.units[self.at..self.end], output);
        self.at += passed.used;
        passed
    }

    // The upper part gives what it can for the input into the queue, which is used up. Answers how much of the input it has used.
    pub(crate) fn refill<U: Stage>(&mut self, upper: &mut U, input: &[u8]) -> usize
        ensures fixed { U.Stage.model upper.new ≡ U.Stage.model upper.old }
        ensures other { U.Stage.receiving upper.new ≡ U.Stage.receiving upper.old }
        ensures used { result ≤ length input.now }
        ensures fits { Under (U.Stage.model upper.old).taken (take result input.now) }
        ensures side { fed (U.Stage.sending upper.old) (take result input.now) ≡ ahead self.new (U.Stage.sending upper.new) }
        ensures below { Under (U.Stage.model upper.old).given self.new }
        ensures none { self.new ≡ [] → ((U.Stage.sending upper.new).waits ≡ []) × (fitting (U.Stage.model upper.old).taken (drop result input.now) ≡ []) }
    {
        let passed = upper.send_pass(input, &mut self.units);
        self.at = 0;
        self.end = passed.made;
        passed.used
    }
}
