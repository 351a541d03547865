// Reads a run sheet on standard input, and prints its listing.
#![tactic(auto)]

use anyhow::anyhow;
use runner::list::{MEMORY, list};
use std::io::{Read, Write};
use text::lines::MOST_BYTES;

// One byte more than a sheet may have is enough to see that it is too long.
const MOST_READ: u64 = MOST_BYTES as u64 + 1;

fn main(rt: HostRuntime) -> anyhow::Result<()> {
    let mut sheet = Vec::new(rt.alloc());
    rt.stdin().take(MOST_READ).read_to_end(&mut sheet)?;
    let mut memory = vec![in rt.alloc(); 0u8; MEMORY]?;
    let answer = list(sheet.as_slice(), memory.as_mut_slice());
    let len = answer.map_err(|_| anyhow!("the memory is too short"))?;
    memory.truncate(len);
    rt.stdout().write_all(memory.as_slice())?;
    Ok(())
}
