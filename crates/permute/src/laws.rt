// What the permuting rule is in the clause's words.
ghost use Rattle.permute.specs.Permuted.{PermutingHolds};

// Each word comes to its place, and the other parity brings it back.
pub fn permuting_holds<T: Copy>()
    ensures { PermutingHolds T }
{}
