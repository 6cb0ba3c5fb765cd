// A branch of the outer interleaver (EN 300 744, clause 4.3.2): a delay line of fixed depth.
// Input: a byte. Output: the byte that went in so many bytes before as the branch is deep, 0 where there was none.
ghost use Rattle.std.specs.Prelude.{◌≡◌, ◌≤◌, [], ◌∷◌, ◌++◌, drop, replicate};
ghost use Rattle.outer.specs.Branches.{oldest};

use arrayvec::ArrayVec;
use std::marker::Model;

// A ring in fixed memory, since the library's allocates: the oldest byte stands at `place`, where the store has one.
#[derive(Drop)]
pub struct Branch {
    store: ArrayVec<u8, 187>,
    place: usize,
}

// Clauses see the queue: the bytes that it holds, from the oldest on.
impl Model for Branch {
    ghost use Rattle.std.specs.Prelude.{ℕ, List, ◌<◌, length, max};
    ghost use Rattle.outer.specs.Rings.{turned};

    ghost Value = { List ℕ };

    ghost view = { λ b. turned b.store.items b.place };

    ghost invariant = { λ b. b.place < max (length b.store.items) 1 };
}

impl Branch {
    // Nothing has reached it: its places hold 0.
    pub(crate) fn new(depth: usize) -> Branch
        requires { depth ≤ 187 }
        ensures { result ≡ replicate depth 0 }
    {
        let mut store = ArrayVec::from([0; 187]);
        store.truncate(depth);
        Branch { store, place: 0 }
    }

    // A byte goes in, and the oldest one leaves.
    pub(crate) fn pass(&mut self, byte: u8) -> u8
        ensures out { result ≡ oldest (self.old ++ byte ∷ []) }
        ensures left { self.new ≡ drop 1 (self.old ++ byte ∷ []) }
    {
        if self.store.is_empty() {
            return byte;
        }
        let place = self.place;
        let out = self.store[place];
        self.store[place] = byte;
        // A comparison: a remainder by the depth would cost a division for each byte.
        self.place = if place + 1 == self.store.len() {
            0
        } else {
            place + 1
        };
        out
    }
}
