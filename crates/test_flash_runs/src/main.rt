#![tactic(auto)]

// Runs the calls on flash partitions and prints what they answer: each length filled, saved over and erased.
// tests/vectors/flash_runs.py prints the same lines from a model of its own; they are the file stdout beside src/.
use std::io;

mod stages;

fn main(rt: HostRuntime) -> io::Result<()> {
    stages::lengths(&rt)
}
