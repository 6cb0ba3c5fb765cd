// The parity of a packet on its way out (EN 300 744, clause 4.3.2): sixteen bytes, which are taken one by one.
ghost use Rattle.std.specs.Prelude.{◌≡◌, [], ◌∷◌, length};
ghost use Rattle.stage.specs.Model.{some, first, others};

use reed::Parity;
use std::marker::Model;

#[derive(Drop)]
pub struct Due {
    parity: Parity,
    left: u8,
}

// Clauses see the bytes that are left, the next one first.
impl Model for Due {
    ghost use Rattle.std.specs.Prelude.{ℕ, List, ◌≤◌, length, take};

    ghost Value = { List ℕ };

    ghost view = { λ d. take d.left d.parity };

    ghost invariant = { λ d. d.left ≤ length d.parity };
}

impl Due {
    pub(crate) fn nothing() -> Due
        ensures { result ≡ [] }
    {
        Due {
            parity: Parity::new(),
            left: 0,
        }
    }

    pub(crate) fn of(parity: Parity) -> Due
        requires { length parity ≡ 16 }
        ensures { result ≡ parity }
    {
        Due { parity, left: 16 }
    }

    pub(crate) fn waits(&self) -> bool
        ensures { result ≡ some self.now }
    {
        self.left > 0
    }

    pub(crate) fn take(&mut self) -> Option<u8>
        ensures answers { result ≡ first self.old }
        ensures left { self.new ≡ others self.old }
    {
        if self.left == 0 {
            return None;
        }
        self.left -= 1;
        Some(self.parity.shift())
    }
}
