// Obeys the lines on standard input, at most 65,536 bytes of them, and writes an answer for each.
#![tactic(auto)]

use bench::run;
use std::io::{Read, Write};

const MOST_INPUT: u64 = 65_536;

fn main(rt: HostRuntime) -> anyhow::Result<()> {
    let mut input = Vec::new(rt.alloc());
    rt.stdin().take(MOST_INPUT).read_to_end(&mut input)?;
    let mut out = Vec::new(rt.alloc());
    run(&input, &mut out)?;
    rt.stdout().write_all(&out)?;
    Ok(())
}
