// Pieces of a text, each put behind what is there.
ghost use Rattle.std.specs.Prelude.{◌+◌, ◌≤◌, ◌≡◌, ◌++◌, length};
ghost use Rattle.report_text.specs.Text.{decimal, line};

use crate::Text;

// A number's decimal digits. They are put by hand since what std writes into fixed memory may be refused or cut, by its contracts.
// The digit is below 10: `as`, since `From` never narrows.
#[tactic(auto, using(crate::proofs::DecimalLaws::digit_by_digit))]
fn put_decimal(text: &mut Text, n: usize)
    requires { length text.old + length (decimal n) ≤ 12288 }
    ensures { text.new ≡ text.old ++ decimal n }
{
    if n >= 10 {
        put_decimal(text, n / 10);
    }
    text.extend_from_slice(&[b'0' + (n % 10) as u8]);
}

// A line: a word, a blank and a number.
#[tactic(auto, unfolding(crate::specs::Text::line))]
pub fn put_line(text: &mut Text, label: &[u8], n: usize)
    requires { length text.old + length (line label.now n) ≤ 12288 }
    ensures { text.new ≡ text.old ++ line label.now n }
{
    text.extend_from_slice(label);
    text.extend_from_slice(b" ");
    put_decimal(text, n);
    text.extend_from_slice(b"\n");
}
