// A slot's header: two pages of 60 bytes, one behind the other.
ghost use Rattle.std.specs.Prelude.{◌≡◌, ◌++◌};
ghost use Rattle.flash_model.specs.Slots.{right_header, product_of};

use words::word;

const HEADER_BYTES: usize = 120;

// Two pages, one behind the other.
fn join_pages(first: &[u8; 60], second: &[u8; 60]) -> [u8; HEADER_BYTES]
    ensures { result ≡ first.now ++ second.now }
{
    let mut header = [0u8; HEADER_BYTES];
    header[..60].copy_from_slice(first);
    header[60..].copy_from_slice(second);
    header
}

// Whether the two pages are a header that makes a slot valid.
#[tactic(auto, unfolding(flash_model::specs::Slots::right_header))]
pub(crate) fn right_header(first: &[u8; 60], second: &[u8; 60]) -> bool
    ensures { result ≡ right_header (first.now ++ second.now) }
{
    let header = join_pages(first, second);
    header[0] == 1
        && header[1] == 255
        && word(&header, 112) == usize::from(checksum::checksum(&header[2..112]))
}

// The product number, which stands in the first page, whatever the second is.
pub(crate) fn product_of(first: &[u8; 60]) -> &[u8; 10]
    ensures { (second : _) → result.now ≡ product_of (first.now ++ second) }
{
    first[2..12].as_array().unwrap()
}
