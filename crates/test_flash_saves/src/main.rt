#![tactic(auto)]

// Runs the calls on flash partitions and prints what they answer: two writers, both ways of a save, by append and by
// compaction, and idle saves. tests/vectors/flash_runs.py prints the same lines from a model of its own; they are the file
// stdout beside src/.
use std::io;

mod saves;

fn main(rt: HostRuntime) -> io::Result<()> {
    let mut image = [0u8; 32768];
    saves::two_writers(&rt, &mut image)?;
    saves::all_live(&rt, &mut image)?;
    saves::stale_copies_saved(&rt, &mut image)?;
    saves::stale_copies_erased(&rt, &mut image)?;
    saves::spoiled_block(&rt, &mut image)?;
    saves::idle_saves(&rt, &mut image)?;
    saves::idle_in_full(&rt, &mut image)
}
