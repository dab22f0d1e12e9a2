#![tactic(auto)]

// Runs the calls on flash partitions and prints each refusal of a listing, a save and an erase, beside the nearest that is not
// refused. tests/vectors/flash_runs.py prints the same lines from a model of its own; they are the file stdout beside src/.
use std::io;

mod refusals;

fn main(rt: HostRuntime) -> io::Result<()> {
    let mut image = [0u8; 32768];
    refusals::next_numbers(&rt, &mut image)?;
    refusals::other_partition(&rt, &mut image)?;
    refusals::save_buffers(&rt, &mut image)?;
    refusals::expected_pages(&rt, &mut image)
}
