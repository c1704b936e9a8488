//! Reads the head of a docket's file and then calls, a line each, from standard input, and prints a line for each call.
#![tactic(auto)]

use answer_session::session;
use file_head::limit::FILE_LIMIT;
use std::io;
use std::io::Read;

fn main(rt: HostRuntime) -> io::Result<()> {
    // One byte more than a file may have is enough to know that it is too long.
    let mut input = Vec::new(rt.alloc());
    rt.stdin()
        .take(FILE_LIMIT as u64 + 1)
        .read_to_end(&mut input)?;
    let replies = session(rt.alloc(), input.as_slice())?;
    print!(rt; "{replies}")
}
