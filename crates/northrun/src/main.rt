// northrun: reads a reference price and a northern journal, and writes the journal's answers.
#![tactic(auto)]

use std::io::{Read, Write};

fn run(rt: &HostRuntime) -> anyhow::Result<()> {
    let mut input = Vec::new(rt.alloc());
    rt.stdin().read_to_end(&mut input)?;
    let output = north::northrun(rt.alloc(), &input)?;
    rt.stdout().write_all(&output)?;
    Ok(())
}

fn main(rt: HostRuntime) -> anyhow::Result<()> {
    run(&rt)
}
