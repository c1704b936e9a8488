//! Prints the terms of the margin rules, each with its sentence and a worked figure.
#![tactic(auto)]

mod alone;
mod docket;
mod options;
mod screen;
mod sets;
mod terms;
mod words;
mod worked;

fn main(rt: HostRuntime) -> anyhow::Result<()> {
    let page = screen::screen(rt.alloc())?;
    print!(rt; "{page}")?;
    Ok(())
}
