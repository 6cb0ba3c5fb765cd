// The two ways along the addresses, each in one pass. One writes at the address and the other reads there, so they are no twins.
ghost use Rattle.std.specs.Prelude.{◌≡◌, ℕ, ◌≤◌, length, slice_index_or};
ghost use Rattle.address.specs.Permutation.{Permutes};
ghost use Rattle.permute.specs.Permuted.{Moved};

// Puts the element at q to the place table[q].
pub(crate) fn scatter<T: Copy>(table: &[u16], from: &[T], to: &mut [T])
    requires permutes { Permutes (length table.now) table.now }
    requires from { length table.now ≤ length from.now }
    requires to { length table.now ≤ length to.old }
    ensures moved { Moved table.now from.now to.new }
    ensures rest { (k : ℕ) (d : T) → length table.now ≤ k → slice_index_or to.new k d ≡ slice_index_or to.old k d }
{
    for (q, &at) in table.iter().enumerate() {
        to[at as usize] = from[q];
    }
}

// Puts the element at table[q] to the place q.
pub(crate) fn gather<T: Copy>(table: &[u16], from: &[T], to: &mut [T])
    requires permutes { Permutes (length table.now) table.now }
    requires from { length table.now ≤ length from.now }
    requires to { length table.now ≤ length to.old }
    ensures moved { Moved table.now to.new from.now }
    ensures rest { (k : ℕ) (d : T) → length table.now ≤ k → slice_index_or to.new k d ≡ slice_index_or to.old k d }
{
    for (q, &at) in table.iter().enumerate() {
        to[q] = from[at as usize];
    }
}
