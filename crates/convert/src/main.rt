// Reads a case text from standard input, and prints what each path yields and what each bid, given as an argument, is worth
// at the path's sending end.
#![tactic(auto)]

mod failure;

use crate::failure::Failure;
use conversion::bid::bid;
use conversion::listing::convert;
use rules::price::Yuan;
use std::env;
use std::io::Read;

// The arguments after the program's name, as bids.
fn bids(rt: &HostRuntime) -> Result<Vec<Yuan>, Failure> {
    let mut bids = Vec::new(rt.alloc());
    for word in env::args(rt)?.skip(1) {
        let Some(yuan) = bid(word.as_bytes()) else {
            return Err(Failure::Bid(word));
        };
        bids.push(yuan)?;
    }
    Ok(bids)
}

fn run(rt: &HostRuntime) -> Result<(), Failure> {
    let heap = rt.alloc();
    let bids = bids(rt)?;
    let mut text = Vec::new(heap);
    // One byte past the limit tells that a text is too long.
    rt.stdin().take(60_001).read_to_end(&mut text)?;
    rt.print(convert(heap, text.as_slice(), bids.as_slice())?)?;
    Ok(())
}

fn main(rt: HostRuntime) -> Result<(), Failure> {
    run(&rt)
}
