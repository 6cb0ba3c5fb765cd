// Prints the sheet of the settings record on standard input, or `refused` and the refusal's number.

#![tactic(auto)]

mod report;

use report::report;
use std::io;
use std::io::Read;

// One byte more than a record has, so that a longer input is seen to be none.
const LIMIT: u64 = 11;

fn main(rt: HostRuntime) -> io::Result<()> {
    let mut input = Vec::new(rt.alloc());
    rt.stdin().take(LIMIT).read_to_end(&mut input)?;
    let text = report(rt.alloc(), input.as_slice())?;
    print!(rt; "{text}")
}
