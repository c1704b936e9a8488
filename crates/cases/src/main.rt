//! Prices positions and sets, tries every range at its edges, and prints what comes;
//! answers every input that the four indexes list, as the programs docket, clerk, statement and tariff do, and compares what is answered with the output stored beside it;
//! writes every docket that an input of docket describes, into a buffer that just holds it and into one that does not;
//! and prints the text of each call.
#![tactic(auto)]

mod prices;
mod ranges;

use answer_docket::{Answer, answer_to};
use answer_session::session;
use answer_tariff::tariff_of;
use calls_serve::Call;
use certificate_pairing::Claim;
use file_reading::read;
use file_writing::write;
use page_statement::statement;
use rules_positions::Entry;
use std::alloc::{AllocError, Global};
use std::fs;

/// A program by what it prints for its input.
#[derive(Clone, Copy)]
enum Program {
    Docket,
    Clerk,
    Statement,
    Tariff,
}

impl Program {
    /// Its name: its index has it, and its outputs end in it.
    fn name(self) -> &'static str {
        match self {
            Program::Docket => "docket",
            Program::Clerk => "clerk",
            Program::Statement => "statement",
            Program::Tariff => "tariff",
        }
    }

    /// What it prints.
    fn printed(self, heap: Global, input: &[u8]) -> Result<String, AllocError> {
        match self {
            Program::Docket => {
                let answer = Answer(answer_to(input));
                format!(in heap; "{answer}")
            }
            Program::Clerk => session(heap, input),
            Program::Statement => statement(heap, input),
            Program::Tariff => {
                let answer = Answer(tariff_of(input));
                format!(in heap; "{answer}")
            }
        }
    }
}

/// Compares what a program prints for each input of its index, and prints the names of those that differ and how many are the same.
fn compare(rt: &HostRuntime, program: Program) -> anyhow::Result<()> {
    let heap = rt.alloc();
    let index = program.name();
    let names = fs::read_to_string(rt, index)?;
    let mut same = 0u32;
    for name in names.as_str().lines() {
        let input = format!(in heap; "{name}.in")?;
        let output = format!(in heap; "{name}.{index}")?;
        let input = fs::read(rt, input.as_str())?;
        let expected = fs::read(rt, output.as_str())?;
        let printed = program.printed(heap, input.as_slice())?;
        if printed.as_bytes() == expected.as_slice() {
            same = same.saturating_add(1);
        } else {
            println!(rt; "{name} differs")?;
        }
    }
    println!(rt; "{index}: {same} same")?;
    Ok(())
}

/// Whether the docket that a file describes is written to the same bytes, and refused room for one byte less; None where it describes none.
fn rewrites(rt: &HostRuntime, file: &[u8]) -> anyhow::Result<Option<bool>> {
    let heap = rt.alloc();
    // Places for the marks, and how many are filled: reading takes them in this form, which the product fixes.
    let mut marks = [0i64; 32];
    let Ok(content) = read(file, &mut marks) else {
        return Ok(None);
    };
    let marks = &marks[..content.marks];
    let mut room = vec![in heap; 0u8; file.len()]?;
    let mut short = vec![in heap; 0u8; file.len().saturating_sub(1)]?;
    let written = write(heap, &content.docket, marks, room.as_mut_slice());
    let refused = write(heap, &content.docket, marks, short.as_mut_slice());
    let whole = matches!(written, Ok(n) if n == file.len()) && room.as_slice() == file;
    let asked =
        matches!(refused, Err(fault) if fault.number() == 21 && fault.details().one == file.len());
    Ok(Some(whole && asked))
}

/// Writes again the docket of each input of docket that describes one, and prints the names of those that differ and how many are the same.
fn write_again(rt: &HostRuntime) -> anyhow::Result<()> {
    let heap = rt.alloc();
    let names = fs::read_to_string(rt, Program::Docket.name())?;
    let mut written = 0u32;
    for name in names.as_str().lines() {
        let input = format!(in heap; "{name}.in")?;
        let file = fs::read(rt, input.as_str())?;
        match rewrites(rt, file.as_slice())? {
            Some(true) => written = written.saturating_add(1),
            Some(false) => println!(rt; "{name} is written differently")?,
            None => {}
        }
    }
    println!(rt; "{written} written again to the same bytes")?;
    Ok(())
}

/// Prints each of the six calls as text.
fn print_calls(rt: &HostRuntime) -> anyhow::Result<()> {
    let entry = Entry {
        side: 'S',
        kind: 'C',
        strike: 5_500,
        days: 100,
        price: 120,
        quantity: 7,
    };
    let claim = Claim {
        article: 4,
        first: 2,
        second: 1,
        third: 3,
        sets: 5,
    };
    for call in [
        Call::Enter(entry),
        Call::Claim(claim),
        Call::Release(claim),
        Call::Free(6),
        Call::Total,
        Call::Certify(&[25, -21]),
    ] {
        println!(rt; "{call}")?;
    }
    Ok(())
}

fn main(rt: HostRuntime) -> anyhow::Result<()> {
    prices::print(&rt)?;
    ranges::print(&rt)?;
    compare(&rt, Program::Docket)?;
    write_again(&rt)?;
    compare(&rt, Program::Clerk)?;
    compare(&rt, Program::Statement)?;
    compare(&rt, Program::Tariff)?;
    print_calls(&rt)
}
