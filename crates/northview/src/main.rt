// northview: reads what northrun reads, and prints what was asked and what was answered, call by call.
#![tactic(auto)]

use north::run_words;
use octets::words_in;
use report::{Report, read_report};
use std::io::Read;

// The report of an input's run.
fn report_of(rt: &HostRuntime, input: &[u8]) -> anyhow::Result<Report> {
    let words = words_in(rt.alloc(), input)?;
    let output = run_words(rt.alloc(), &words)?;
    let journal = words.get(1..).unwrap_or(&[]);
    Ok(read_report(rt.alloc(), journal, &output.words, output.stop)?)
}

fn print(rt: &HostRuntime) -> anyhow::Result<()> {
    let mut input = Vec::new(rt.alloc());
    rt.stdin().read_to_end(&mut input)?;
    let report = report_of(rt, &input)?;
    for entry in &report.entries {
        println!(rt; "{entry}")?;
    }
    println!(rt; "{report}")?;
    Ok(())
}

fn main(rt: HostRuntime) -> anyhow::Result<()> {
    print(&rt)
}
