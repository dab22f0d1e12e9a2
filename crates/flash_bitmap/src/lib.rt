#![tactic(auto)]

// The bitmap of an image: which user blocks are allocated. An image that is written comes with its measures beside it: `OpenedLog` of
// flash_partition says why.
mod runs;

ghost use Rattle.std.specs.Prelude.{◌≡◌, false, ◌+◌, ◌*◌, ◌/◌, ◌≤◌, ◌<◌, length};
ghost use Rattle.flash_model.specs.Measures.{first_bitmap, capacity};
ghost use Rattle.flash_model.specs.Bitmap.{bit_byte, bit_place, first_cleared};
ghost use Rattle.flash_model.specs.Partition.{bitmap_of, allocated, lowest_free};
ghost use Rattle.flash_model.specs.Update.{bit_cleared, bits_cleared};
ghost use Rattle.flash_measures.specs.HasMeasures.{HasMeasures};
ghost use Rattle.flash_bitmap.specs.Blank.{IsBlank};
ghost use Rattle.flash_bitmap.specs.Found.{lowest_allocated, lowest_differing};
ghost use Rattle.flash_bitmap.specs.HighBits.{HighestOne, lowest_in_byte};

use flash_measures::{Image, Measures};
use runs::run_end;

// The byte of the image that has user block k's bit.
fn bit_byte(m: Measures, k: usize) -> usize
    requires { (1 ≤ k) × (k ≤ capacity m.size) }
    ensures { result ≡ first_bitmap m.size * 64 + bit_byte k }
{
    let first = m.first_bitmap();
    m.start(first) + (k - 1) / 8
}

// The bit's place in it, from the low end: block 1's is the 128-bit.
fn bit_place(k: usize) -> usize
    requires { 1 ≤ k }
    ensures { result ≡ bit_place k }
{
    7 - (k - 1) % 8
}

// The bit of user block k, which is free, is cleared.
pub fn clear_bit(image: &mut [u8], m: Measures, k: usize)
    requires has_measures { HasMeasures image.old m.size }
    requires le_k { (1 ≤ k) × (k ≤ capacity m.size) }
    requires k_value { allocated image.old k ≡ false }
    ensures { image.new ≡ bit_cleared image.old k }
{
    let at = bit_byte(m, k);
    image[at] = image[at] - (1u8 << bit_place(k));
}

// The place of a byte's highest 1, from the high end: as many zeros lead the byte.
fn highest_one(byte: u8) -> u32
    requires { 0 < byte }
    ensures { HighestOne byte result }
{
    u8::leading_zeros(byte)
}

// The lowest block before `end` whose bit is 1, in a byte that begins with the bit of block `first`. Where `end` is M, the bits past
// the last user block are ignored.
fn lowest_in_byte(byte: u8, first: usize, end: usize) -> Option<usize>
    requires { (0 < byte) × (first ≤ end) }
    ensures { result ≡ lowest_in_byte byte first end }
{
    let place = highest_one(byte) as usize;
    if end - first <= place {
        return None;
    }
    Some(first + place)
}

// From byte i of the bitmap on, the lowest user block whose bit differs from that of `byte` at its place: a free one for 0, an
// allocated one for FF. Bytes equal to `byte` are passed.
fn lowest_differing(image: Image<'_>, i: usize, byte: u8) -> Option<usize>
    requires { i ≤ (capacity image.m.size + 7) / 8 }
    ensures { result ≡ lowest_differing image.entry.bytes.now byte (i * 8 + 1) }
{
    let end = image.m.first_bitmap();
    let bitmap = image.m.start(end);
    let bits_end = bitmap + (image.m.capacity() + 7) / 8;
    let at = run_end(image.bytes, bitmap + i, bits_end, byte);
    if at == bits_end {
        return None;
    }
    lowest_in_byte(image.bytes[at] ^ byte, (at - bitmap) * 8 + 1, end)
}

// The lowest free user block: from byte 0 on, the first bit that is not 0.
pub fn lowest_free(image: Image<'_>) -> Option<usize>
    ensures { result ≡ lowest_free image.entry.bytes.now }
{
    lowest_differing(image, 0, 0)
}

// The lowest allocated user block from `from` on: the first bit there that is 0. In `rest` it is the first 1, and the bits before
// that of `from` are shifted out.
pub fn lowest_allocated(image: Image<'_>, from: usize) -> Option<usize>
    requires { 1 ≤ from }
    ensures { result ≡ lowest_allocated image.entry.bytes.now from }
{
    let end = image.m.first_bitmap();
    if end <= from {
        return None;
    }
    let rest = (image.bytes[bit_byte(image.m, from)] ^ 255) << ((from - 1) % 8);
    if rest != 0 {
        return lowest_in_byte(rest, from, end);
    }
    lowest_differing(image, (from - 1) / 8 + 1, 255)
}

// Clears the first n bits of a bitmap whose bytes are all FF: full bytes, then the high bits of one more.
fn clear_first(bits: &mut [u8], n: usize)
    requires { (n < 8 * length bits.old) × IsBlank bits.old }
    ensures { bits.new ≡ first_cleared bits.old n }
{
    let full_bytes = n / 8;
    bits[..full_bytes].fill(0);
    bits[full_bytes] = 255u8 >> (n % 8);
}

// The bits of the blocks 1 to n are cleared, where the bitmap is FF.
pub fn clear_bits(image: &mut [u8], m: Measures, n: usize)
    requires has_measures { HasMeasures image.old m.size }
    requires n_bound { (n ≤ capacity m.size) × IsBlank (bitmap_of image.old) }
    ensures { image.new ≡ bits_cleared image.old n }
{
    let first = m.first_bitmap();
    let at = m.start(first);
    clear_first(&mut image[at..], n);
}
