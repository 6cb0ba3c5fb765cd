// Twelve branches, which take the bytes in turn (EN 300 744, clause 4.3.2).
// Input: a byte. Output: the byte that leaves the branch whose turn it is.
ghost use Rattle.std.specs.Prelude.{◌≡◌, ◌<◌, ◌≤◌, All};
ghost use Rattle.outer.specs.Branches.{new_branches, passed, passing};

use crate::branch::Branch;
use std::marker::Model;

#[derive(Drop)]
pub struct Bank {
    branches: [Branch; 12],
    turn: usize,
}

impl Model for Bank {
    ghost use Rattle.std.specs.Prelude.{◌<◌};
    ghost use Rattle.outer.specs.Branches.{Branches};

    ghost Value = { Branches };

    ghost view = { λ b. record { turn = b.turn; queues = b.branches } };

    ghost invariant = { λ b. b.turn < 12 };
}

impl Bank {
    // Branch j delays by so many of its own bytes.
    pub(crate) fn new(depths: [usize; 12]) -> Bank
        requires { All (λ depth. depth ≤ 187) depths }
        ensures { result ≡ new_branches depths }
    {
        Bank {
            branches: depths.map(Branch::new),
            turn: 0,
        }
    }

    pub(crate) fn turn(&self) -> usize
        ensures turn { result ≡ self.now.turn }
        ensures within { result < 12 }
    {
        self.turn
    }

    pub(crate) fn pass(&mut self, byte: u8) -> u8
        ensures out { result ≡ passed self.old byte }
        ensures on { self.new ≡ passing self.old byte }
    {
        let turn = self.turn;
        let out = self.branches[turn].pass(byte);
        self.turn = (turn + 1) % 12;
        out
    }
}
