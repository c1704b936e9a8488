//! Reads a docket's file from standard input, and prints it as a page that can be read, or why it is refused, in words.
#![tactic(auto)]

use file_head::limit::FILE_LIMIT;
use page_statement::statement;
use std::io;
use std::io::Read;

fn main(rt: HostRuntime) -> io::Result<()> {
    // One byte more than a file may have is enough to know that it is too long.
    let mut file = Vec::new(rt.alloc());
    rt.stdin()
        .take(FILE_LIMIT as u64 + 1)
        .read_to_end(&mut file)?;
    let page = statement(rt.alloc(), file.as_slice())?;
    print!(rt; "{page}")
}
