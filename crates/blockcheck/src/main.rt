// Reads a machine's description and a program, and says of each block whether its schedule keeps its dependences.
#![tactic(auto)]

mod input;

use anyhow::anyhow;
use blocks::Blocks;
use operations::Refusal;
use std::alloc::Global;
use text::Fault;

fn refuse(rt: &HostRuntime, refusal: Refusal) -> anyhow::Result<()> {
    println!(rt; "refused {}", refusal.number())?;
    Ok(())
}

fn report(rt: &HostRuntime, blocks: &Blocks) -> anyhow::Result<()> {
    for verdict in verdicts::verdicts(rt.alloc(), blocks)?.iter() {
        println!(rt; "{verdict}")?;
    }
    Ok(())
}

fn load<'a>(heap: Global, input: &'a [u8]) -> Result<Blocks, Fault<'a>> {
    let (description, program) = input::divided(input)?;
    text::load(heap, description, program)
}

fn run(rt: &HostRuntime) -> anyhow::Result<()> {
    // No `?`: a refusal is an answer, and is printed.
    let Some(input) = input::read(rt)? else {
        return refuse(rt, Refusal::BeyondLimit);
    };
    match load(rt.alloc(), input.as_slice()) {
        Ok(blocks) => report(rt, &blocks),
        Err(Fault::Refused(text)) => refuse(rt, text.refusal),
        Err(Fault::Memory) => Err(anyhow!("out of memory")),
    }
}

fn main(rt: HostRuntime) -> anyhow::Result<()> {
    run(&rt)
}
