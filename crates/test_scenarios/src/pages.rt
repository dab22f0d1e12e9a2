// Formatted images, and pages that tell their number and their round: each number is saved in rounds 1, 2, 3 and on.
use flash_model::FlashError;
use std::array;
use std::ops::Range;

// Makes the image an empty partition, whatever its length: the header as far as it goes, and then 255.
pub fn format(image: &mut [u8], partition: u8, version: u8) {
    image.fill(255);
    let header = b"KATANA_FLASH____"
        .iter()
        .copied()
        .chain([partition, version]);
    for (byte, given) in image.iter_mut().zip(header) {
        *byte = given;
    }
}

// With x = number + 1021 * round, byte i is x / (i + 1) + 5 * i, modulo 256, by `as`, since `From` never
// narrows.
pub fn page_of(number: usize, round: usize) -> [u8; 60] {
    let x = number % 65536 + 1021 * (round % 65536);
    array::from_fn(|i| ((x / (i + 1) % 256 + 5 * i) % 256) as u8)
}

// Saves the page of a round, expecting what the writer has seen.
pub fn save_seen(
    image: &mut [u8],
    partition: u8,
    number: usize,
    seen: &[u8],
    round: usize,
) -> Result<(), FlashError> {
    flash::save(image, partition, number, seen, &page_of(number, round))
}

// Saves the page of a round, expecting that of the round before, or nothing in round 1.
pub fn save_round(
    image: &mut [u8],
    partition: u8,
    number: usize,
    round: usize,
) -> Result<(), FlashError> {
    if round <= 1 {
        return save_seen(image, partition, number, &[], round);
    }
    let expected = page_of(number, round - 1);
    save_seen(image, partition, number, &expected, round)
}

// Saves the numbers below `end` in one round. The answer is how many of them are accepted before the first refusal.
pub fn save_numbers(image: &mut [u8], partition: u8, end: usize, round: usize) -> usize {
    (0..end)
        .take_while(|&n| save_round(image, partition, n, round).is_ok())
        .count()
}

// Saves one number in rounds 1 to `rounds`. The answer is how many of them are accepted before the first refusal.
pub fn save_rounds(image: &mut [u8], partition: u8, number: usize, rounds: usize) -> usize {
    (1..=rounds)
        .take_while(|&round| save_round(image, partition, number, round).is_ok())
        .count()
}

// Whether the number's contents are the page of the round.
fn reads_back(image: &[u8], partition: u8, number: usize, round: usize) -> bool {
    let mut page = [0; 60];
    flash::read(image, partition, number, &mut page).is_ok() && page == page_of(number, round)
}

// The first of the numbers whose contents are not the page of the round.
pub fn first_different(
    image: &[u8],
    partition: u8,
    mut numbers: Range<usize>,
    round: usize,
) -> Option<usize> {
    numbers.find(|&n| !reads_back(image, partition, n, round))
}
