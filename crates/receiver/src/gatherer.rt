// A pile, and the bytes of a packet that were gathered from it.
ghost use Rattle.std.specs.Prelude.{◌≡◌, ◌<◌, true, false, [], Ok, nat_lt};
ghost use Rattle.arrayvec.specs.ArrayVec.{array_vec_len};
ghost use Rattle.stage.specs.Model.{silence, new_receiving, answer, heard, some_heard};
ghost use Rattle.broadcast.specs.Receiver.{next, is_some};

use arrayvec::ArrayVec;
use stage::{Fault, Stage};

#[derive(Drop)]
pub struct Gatherer<P> {
    pub pile: P,
    pub packet: ArrayVec<u8, 188>,
}

impl<P: Stage> Gatherer<P> {
    ghost use Rattle.receiver.specs.View.{found, side_of};

    // The pile is new, and nothing is gathered.
    pub(crate) fn renew(&mut self)
        ensures fixed { P.Stage.model self.new.pile ≡ P.Stage.model self.old.pile }
        ensures hears { P.Stage.receiving self.new.pile ≡ new_receiving (P.Stage.model self.old.pile) }
        ensures none { self.new.packet.items ≡ [] }
    {
        self.pile.renew();
        self.packet.clear();
    }

    // Gathers what waits in the pile until a packet is whole or no unit is left, and answers whether one is whole.
    pub(crate) fn gather(&mut self) -> Result<bool, Fault>
        ensures fixed { P.Stage.model self.new.pile ≡ P.Stage.model self.old.pile }
        ensures side { side_of P.Stage.receiving self.new ≡ side_of P.Stage.receiving self.old }
        ensures answers { result ≡ found (side_of P.Stage.receiving self.old).waits }
        ensures silent { result ≡ Ok false → (P.Stage.receiving self.new.pile).waits ≡ silence }
        ensures whole { result ≡ Ok true → array_vec_len self.new.packet ≡ 188 }
    {
        while !self.packet.is_full() {
            let Some(unit) = self.pile.receive_take()? else {
                return Ok(false);
            };
            self.packet.push(unit);
        }
        Ok(true)
    }

    // Offers a cell where no packet is whole, and answers whether the pile has taken it.
    pub(crate) fn offer(&mut self, cell: u8) -> bool
        ensures fixed { P.Stage.model self.new.pile ≡ P.Stage.model self.old.pile }
        ensures same { self.new.packet ≡ self.old.packet }
        ensures short { result ≡ true → array_vec_len self.old.packet < 188 }
        ensures answers { result ≡ true → Ok tt ≡ answer (nat_lt cell (P.Stage.model self.old.pile).given) (some_heard (P.Stage.receiving self.old.pile).waits) }
        ensures side { result ≡ true → P.Stage.receiving self.new.pile ≡ heard (nat_lt cell (P.Stage.model self.old.pile).given) (some_heard (P.Stage.receiving self.old.pile).waits) (P.Stage.receiving self.old.pile) cell }
        ensures stays { result ≡ false → P.Stage.receiving self.new.pile ≡ P.Stage.receiving self.old.pile }
    {
        !self.packet.is_full() && self.pile.receive_offer(cell).is_ok()
    }

    // Can a packet or a fault be collected?
    pub(crate) fn waits(&mut self) -> bool
        ensures fixed { P.Stage.model self.new.pile ≡ P.Stage.model self.old.pile }
        ensures side { side_of P.Stage.receiving self.new ≡ side_of P.Stage.receiving self.old }
        ensures answers { result ≡ is_some (next (side_of P.Stage.receiving self.old).waits) }
        ensures silent { result ≡ false → (P.Stage.receiving self.new.pile).waits ≡ silence }
    {
        self.gather().unwrap_or(true)
    }
}
