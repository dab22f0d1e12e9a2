#![tactic(auto)]

// The text of a partition report.
mod writing;

ghost use Rattle.std.specs.Prelude.{ℕ, ◌+◌, ◌<◌, ◌≤◌, ◌≡◌, List, ◌++◌, length};
ghost use Rattle.flash_model.specs.Partition.{refusal};
ghost use Rattle.report_text.specs.Text.{line, refused_word, partition_for, head_lines, block_lines, report_text};

use flash::Counts;
use words::byte_list::ByteList;
use writing::put_line;

// No report is longer than 11,293 bytes; this is the next multiple of 4,096.
pub type Text = ByteList<12288>;

// The partition that the program names for an image of this length.
#[tactic(auto, unfolding(crate::specs::Text::partition_for))]
fn partition_for(size: usize) -> u8
    ensures { result ≡ partition_for size }
{
    match size {
        16384 => 2,
        32768 => 3,
        _ => 4,
    }
}

// The lines before the block lines.
#[tactic(auto, unfolding(crate::specs::Text::head_lines))]
fn put_head(text: &mut Text, partition: u8, counts: Counts)
    requires { length text.old + length (head_lines partition counts.version counts.capacity counts.used counts.live) ≤ 12288 }
    ensures { text.new ≡ text.old ++ head_lines partition counts.version counts.capacity counts.used counts.live }
{
    put_line(text, b"partition", usize::from(partition));
    put_line(text, b"version", usize::from(counts.version));
    put_line(text, b"user", counts.capacity);
    put_line(text, b"used", counts.used);
    put_line(text, b"live", counts.live);
}

// A line for each live number.
fn put_blocks(text: &mut Text, image: &[u8], partition: u8)
    requires sound { refusal image.now partition ≡ 0 }
    requires room { length text.old + length (block_lines image.now) ≤ 12288 }
    ensures { text.new ≡ text.old ++ block_lines image.now }
{
    let mut from = 0;
    while let Ok(n) = flash::next_live(image, partition, from) {
        put_line(text, b"block", n);
        from = n + 1;
    }
}

// The whole text that the program prints for this image.
pub fn write_report(image: &[u8]) -> Text
    ensures { result ≡ report_text image.now }
{
    let partition = partition_for(image.len());
    let mut text = Text::new();
    match flash::report(image, partition) {
        Ok(counts) => {
            put_head(&mut text, partition, counts);
            put_blocks(&mut text, image, partition);
            text.extend_from_slice(b"end\n");
        }
        Err(refused) => put_line(&mut text, b"refused", usize::from(u8::from(refused))),
    }
    text
}

// The same for any image longer than every partition, without being lent the image.
#[tactic(auto, using(crate::proofs::TextLaws::too_long))]
pub fn write_too_long() -> Text
    ensures value { result ≡ line refused_word 1 }
    ensures by_index { (image : List ℕ) → 65536 < length image → report_text image ≡ line refused_word 1 }
{
    let mut text = Text::new();
    put_line(&mut text, b"refused", 1);
    text
}
