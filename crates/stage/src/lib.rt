// The stage rule: everything above a stage knows it by this trait alone.
//
// A stage has a sending side and a receiving side. Sending takes units below `taken` and gives units below `given`; receiving does
// the reverse. A side is what waits in it and its future, which is what it will give for each list of further units
// (`Sending`, `Receiving` in specs/Model.antt). What is fixed about a stage is its `Model`, and every model keeps the `Rule`.

#![tactic(auto)]

ghost use Rattle.std.specs.Prelude.{◌≡◌, nat_lt};
ghost use Rattle.stage.specs.Model.{Model, Sending, Receiving, some, some_heard, new_sending, new_receiving, answer, offered, heard, first, sent, first_heard, collected, BelowSome, BelowOk};
ghost use Rattle.stage.specs.Passing.{Drains, Passes};
ghost use Rattle.stage.specs.Piled.{PilesKeepTheRule};
ghost use Rattle.stage.specs.Rule.{Rule, Sends, Hears};

use refusal::Refusal;

mod optional;

// What a receiving side found wrong: the number of the stage, counted from the packet side, and the cause.
// The cause is a number, since any stage may tell causes of its own, and no enum here could list them.
#[derive(Clone, Copy, PartialEq, Eq, Debug)]
pub struct Fault {
    pub stage: u32,
    pub cause: u8,
}

// What a pass did: how many units of the input it has used and of the output it has made, and whether something waits still.
// Both numbers count whether something waits or not, so `waits` stands for no refusal.
#[derive(Clone, Copy, Default)]
pub struct Passed {
    pub used: usize,
    pub made: usize,
    pub waits: bool,
}

// What a call leaves as it was (`fixed`, `other`) relates two states, so each method says it and no invariant can.
pub trait Stage {
    // What is fixed, and the two sides as they are now.
    ghost model: { Self → Model };

    ghost sending: { Self → Sending };

    ghost receiving: { Self → Receiving };

    // What is fixed of a stage has no default: only the stage's own model says it.
    fn taken(&self) -> u16
        ensures { result ≡ (model self.now).taken };

    fn given(&self) -> u16
        ensures { result ≡ (model self.now).given };

    fn size(&self) -> u32
        ensures { result ≡ (model self.now).size };

    fn hold(&self, m: u32) -> u32
        ensures { result ≡ (model self.now).hold m };

    // Does something wait? A pile may move units between its parts to tell, which alters neither side.
    fn send_waits(&mut self) -> bool
        ensures fixed { model self.new ≡ model self.old }
        ensures other { receiving self.new ≡ receiving self.old }
        ensures answers { result ≡ some (sending self.old).waits }
        ensures side { sending self.new ≡ sending self.old };

    fn receive_waits(&mut self) -> bool
        ensures fixed { model self.new ≡ model self.old }
        ensures other { sending self.new ≡ sending self.old }
        ensures answers { result ≡ some_heard (receiving self.old).waits }
        ensures side { receiving self.new ≡ receiving self.old };

    // Makes both sides new.
    fn renew(&mut self)
        ensures fixed { model self.new ≡ model self.old }
        ensures sends { sending self.new ≡ new_sending (model self.old) }
        ensures hears { receiving self.new ≡ new_receiving (model self.old) };

    // Refuses a unit that is too large, then any unit while something waits.
    fn send_offer(&mut self, unit: u8) -> Result<(), Refusal>
        ensures fixed { model self.new ≡ model self.old }
        ensures other { receiving self.new ≡ receiving self.old }
        ensures answers { result ≡ answer (nat_lt unit (model self.old).taken) (some (sending self.old).waits) }
        ensures side { sending self.new ≡ offered (nat_lt unit (model self.old).taken) (some (sending self.old).waits) (sending self.old) unit };

    fn send_take(&mut self) -> Option<u8>
        ensures fixed { model self.new ≡ model self.old }
        ensures other { receiving self.new ≡ receiving self.old }
        ensures answers { result ≡ first (sending self.old).waits }
        ensures below { BelowSome (model self.old).given result }
        ensures side { sending self.new ≡ sent (sending self.old) };

    // Takes waiting units into the output, as many as wait and fit.
    fn send_drain(&mut self, output: &mut [u8]) -> usize
        ensures fixed { model self.new ≡ model self.old }
        ensures other { receiving self.new ≡ receiving self.old }
        ensures drains { Drains (model self.old) (sending self.old) (sending self.new) output.old output.new result }
    {
        for (made, place) in output.iter_mut().enumerate() {
            let Some(unit) = self.send_take() else {
                return made;
            };
            *place = unit;
        }
        output.len()
    }

    // Hands on units of the input one by one and takes waiting ones into the output, until one finds no room or the input is used up.
    fn send_units(&mut self, input: &[u8], output: &mut [u8]) -> Passed
        ensures fixed { model self.new ≡ model self.old }
        ensures other { receiving self.new ≡ receiving self.old }
        ensures passes { Passes (model self.old) (sending self.old) (sending self.new) input.now output.old output.new result }
    {
        // A `for` over the input and a slice taken off its front were tried: both send more slowly.
        let mut used = 0;
        let mut made = 0;
        loop {
            made += self.send_drain(&mut output[made..]);
            if used >= input.len() || self.send_offer(input[used]).is_err() {
                break;
            }
            used += 1;
        }
        Passed {
            used,
            made,
            waits: self.send_waits(),
        }
    }

    // The same, in whatever way is quickest for the stage.
    fn send_pass(&mut self, input: &[u8], output: &mut [u8]) -> Passed
        ensures fixed { model self.new ≡ model self.old }
        ensures other { receiving self.new ≡ receiving self.old }
        ensures passes { Passes (model self.old) (sending self.old) (sending self.new) input.now output.old output.new result }
    {
        self.send_units(input, output)
    }

    fn receive_offer(&mut self, unit: u8) -> Result<(), Refusal>
        ensures fixed { model self.new ≡ model self.old }
        ensures other { sending self.new ≡ sending self.old }
        ensures answers { result ≡ answer (nat_lt unit (model self.old).given) (some_heard (receiving self.old).waits) }
        ensures side { receiving self.new ≡ heard (nat_lt unit (model self.old).given) (some_heard (receiving self.old).waits) (receiving self.old) unit };

    // A fault stands last in what waits, and stays.
    fn receive_take(&mut self) -> Result<Option<u8>, Fault>
        ensures fixed { model self.new ≡ model self.old }
        ensures other { sending self.new ≡ sending self.old }
        ensures answers { result ≡ first_heard (receiving self.old).waits }
        ensures below { BelowOk (model self.old).taken result }
        ensures side { receiving self.new ≡ collected (receiving self.old) };

    ghost rule: { (s : Self) → Rule (model s) };

    ghost sends: { (s : Self) → Sends (sending s).future };

    ghost hears: { (s : Self) → Hears (receiving s).future };
}

// Any stage above any other keeps the rule, with the upper hold of the lower hold.
pub fn piles_keep_the_rule()
    ensures { PilesKeepTheRule }
{}
