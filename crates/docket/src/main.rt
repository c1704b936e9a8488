//! Reads a docket's file from standard input, and prints its figures or why it is refused.
#![tactic(auto)]

use answer_docket::{Answer, answer_to};
use file_head::limit::FILE_LIMIT;
use std::io;
use std::io::Read;

fn main(rt: HostRuntime) -> io::Result<()> {
    // One byte more than a file may have is enough to know that it is too long.
    let mut file = Vec::new(rt.alloc());
    rt.stdin()
        .take(FILE_LIMIT as u64 + 1)
        .read_to_end(&mut file)?;
    let answer = Answer(answer_to(file.as_slice()));
    print!(rt; "{answer}")
}
