#![tactic(auto)]

// Reads a partition image from standard input and prints its report. The text is made by the library `report_text`.
ghost use Rattle.std.specs.Prelude.{◌≤◌, length, IfOk, IfSome};

use std::io::{self, Read};

// Reads to the end of the input, and answers how many bytes it gave, or `None` where it gave more than the buffer has room for.
// By `read` alone: std's calls that fill a buffer read again where a signal interrupts, which here is an error, or keep no count.
fn read_image<R: Read>(input: &mut R, image: &mut [u8]) -> io::Result<Option<usize>>
    ensures { IfOk result (λ given. IfSome given (λ n. n ≤ length image.new)) }
{
    let mut done = 0;
    while done < image.len() {
        let count = input.read(&mut image[done..])?;
        if count == 0 {
            return Ok(Some(done));
        }
        done += count;
    }
    // The buffer is full: whether that was all, one byte more tells.
    let more = input.read(&mut [0])?;
    Ok((more == 0).then_some(done))
}

fn main(rt: HostRuntime) -> io::Result<()> {
    let mut image = [0; 65536];
    let text = match read_image(&mut rt.stdin(), &mut image) {
        Ok(Some(length)) => report_text::write_report(&image[..length]),
        Ok(None) => report_text::write_too_long(),
        Err(_) => return eprintln!(rt; "cannot read the image"),
    };
    if rt.write_all(text.as_slice()).is_err() {
        return eprintln!(rt; "cannot write the report");
    }
    Ok(())
}
