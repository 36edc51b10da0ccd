// Lists a segment: reads it from standard input, at most 65,536 bytes, and writes its listing (or the refusal) to standard output.
#![tactic(auto)]

use program_io::read_full;
use show_print::print::print_listing;
use std::io;

fn main(rt: HostRuntime) -> io::Result<()> {
    // One byte more than a segment may have here, so that a longer one is seen.
    let mut segment = [0u8; 65537];
    let n = read_full(&mut rt.stdin(), &mut segment)?;
    // As many places as the longest listing has: `ListingFits` in crates/show_listing/specs/Claims.antt.
    let mut text = [0u8; 687393];
    print_listing(&mut rt.stdout(), &segment[..n], &mut text)?;
    Ok(())
}
