//! Why is this version still here? What each judge would decide on the versions of one key.

#![tactic(auto)]

mod report;
mod wording;

use question::Case;
use std::io;

// Reads a case from standard input and prints what each judge says of it.
fn main(rt: HostRuntime) -> anyhow::Result<()> {
    let text = io::read_to_string(rt.alloc(), rt.stdin())?;
    let case = Case::read(rt.alloc(), text.as_str())?;
    report::print_answer(&rt, &case)
}
