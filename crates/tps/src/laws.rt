// What holds of all TPS blocks: each function's contract is a law, and nothing runs.
ghost use Rattle.tps.specs.Laws.{BlocksAreCodewords, BlocksTellSettings};

pub fn blocks_are_codewords()
    ensures { BlocksAreCodewords }
{}

pub fn blocks_tell_settings()
    ensures { BlocksTellSettings }
{}
