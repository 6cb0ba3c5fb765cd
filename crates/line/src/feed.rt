// A pile, and the bytes that it has yet to be handed: they are handed on, and waiting cells go into a buffer, many at once.
ghost use Rattle.std.specs.Prelude.{◌≡◌, false, [], length, take};
ghost use Rattle.stage.specs.Model.{new_sending, some};
ghost use Rattle.stage.specs.Passing.{Passes};
ghost use Rattle.broadcast.specs.Line.{room, written};

use super::pending::Pending;
use stage::{Passed, Stage};

#[derive(Drop)]
pub struct Feed<P> {
    pub pile: P,
    pub pending: Pending,
}

// Hands bytes on to a pile that takes every byte. That it does is asked by each call and no invariant: an idle line may stand over any pile.
fn hand_on<P: Stage>(pile: &mut P, bytes: &[u8], buffer: &mut [u8]) -> Passed
    requires { (P.Stage.model pile.old).taken ≡ 256 }
    ensures fixed { P.Stage.model pile.new ≡ P.Stage.model pile.old }
    ensures passes { Passes (P.Stage.model pile.old) (P.Stage.sending pile.old) (P.Stage.sending pile.new) bytes.now buffer.old buffer.new result }
    ensures all { (P.Stage.sending pile.new).waits ≡ [] → result.used ≡ length bytes.now }
{
    pile.send_pass(bytes, buffer)
}

impl<P: Stage> Feed<P> {
    ghost use Rattle.line.specs.View.{bytes_of, dropped, side_of};

    // The pile is new, and nothing is pending.
    pub(crate) fn renew(&mut self)
        ensures fixed { P.Stage.model self.new.pile ≡ P.Stage.model self.old.pile }
        ensures sends { P.Stage.sending self.new.pile ≡ new_sending (P.Stage.model self.old.pile) }
        ensures none { bytes_of self.new.pending ≡ [] }
    {
        self.pile.renew();
        self.pending = Pending::none();
    }

    // Fills a buffer with waiting cells, as many as wait and fit. Bytes are handed on until a cell finds no room. The count is the answer, and says
    // where the next pass begins.
    pub(crate) fn fill(&mut self, buffer: &mut [u8]) -> usize
        requires { (P.Stage.model self.old.pile).taken ≡ 256 }
        ensures fixed { P.Stage.model self.new.pile ≡ P.Stage.model self.old.pile }
        ensures count { result ≡ room (side_of P.Stage.sending self.old).waits buffer.old }
        ensures filled { buffer.new ≡ written (take result (side_of P.Stage.sending self.old).waits) buffer.old }
        ensures side { side_of P.Stage.sending self.new ≡ dropped result (side_of P.Stage.sending self.old) }
        ensures settled { (P.Stage.sending self.new.pile).waits ≡ [] → bytes_of self.new.pending ≡ [] }
    {
        let mut count = 0;
        loop {
            self.pending.load();
            let passed = hand_on(&mut self.pile, self.pending.begun(), &mut buffer[count..]);
            self.pending.at += passed.used;
            count += passed.made;
            if passed.used == 0 {
                return count;
            }
        }
    }

    // Hands on bytes until a cell waits or none is left, and answers whether a cell waits.
    pub(crate) fn pump(&mut self) -> bool
        requires { (P.Stage.model self.old.pile).taken ≡ 256 }
        ensures fixed { P.Stage.model self.new.pile ≡ P.Stage.model self.old.pile }
        ensures side { side_of P.Stage.sending self.new ≡ side_of P.Stage.sending self.old }
        ensures answers { result ≡ some (side_of P.Stage.sending self.old).waits }
        ensures none { result ≡ false → bytes_of self.new.pending ≡ [] }
    {
        self.fill(&mut []);
        self.pile.send_waits()
    }
}
