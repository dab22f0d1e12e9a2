#![tactic(auto)]

// Runs the calls on flash partitions and prints each refusal of an image, of a number and of a read, beside the nearest thing that
// is not refused. tests/vectors/flash_runs.py prints the same lines from a model of its own; they are the file stdout beside src/.
use std::io;

mod images;
mod reads;

fn main(rt: HostRuntime) -> io::Result<()> {
    let mut image = [0u8; 32768];
    images::lengths(&rt)?;
    images::versions(&rt, &mut image)?;
    images::headers(&rt, &mut image)?;
    images::bitmap(&rt, &mut image)?;
    images::top_number(&rt, &mut image)?;
    reads::page_reads(&rt, &mut image)?;
    reads::short_reads(&rt, &mut image)
}
