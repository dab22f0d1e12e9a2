#![tactic(auto)]

// The measures of a partition: one value with its own operations.
ghost use Rattle.std.specs.Prelude.{◌≡◌, true, ◌*◌, ◌≤◌, is_ok, MatchResult};
ghost use Rattle.flash_model.specs.Measures as model;
ghost use Rattle.flash_measures.specs.HasMeasures.{HasMeasures};
ghost use Rattle.flash_model.specs.declared.FlashError.TheVariants.{ImageLength};

use flash_model::FlashError;

pub const BLOCK_BYTES: usize = 64;

// How many logical numbers the longest partition has.
pub const NUMBERS: usize = 1021;

// The three lengths that a partition may have.
pub fn legal_size(len: usize) -> bool
    ensures { result ≡ model.legal_size len }
{
    matches!(len, 16384 | 32768 | 65536)
}

// The length of a partition, which tells all other measures.
#[derive(Clone, Copy)]
pub struct Measures {
    pub size: usize,
    ghost legal: { model.legal_size size ≡ true },
}

// A length that was tested: of it `Measures::of` can't fail.
#[derive(Clone, Copy)]
pub struct LegalLength {
    pub bytes: usize,
    ghost legal: { model.legal_size bytes ≡ true },
}

// No other length has measures.
impl TryFrom<usize> for Measures {
    type Error = FlashError;

    ghost try_from_gives = { λ len r. (is_ok r ≡ model.legal_size len) × MatchResult r (λ m. m.size ≡ len) (λ e. e ≡ ImageLength) };

    fn try_from(len: usize) -> Result<Self, FlashError> {
        if !legal_size(len) {
            return Err(FlashError::ImageLength);
        }
        Ok(Measures::of(LegalLength { bytes: len }))
    }
}

// An image of a legal length, with its measures.
#[derive(Clone, Copy)]
pub struct Image<'a> {
    pub bytes: &'a [u8],
    pub m: Measures,
    ghost sized: { HasMeasures bytes.now m.size },
}

impl Measures {
    // The measures of that length.
    pub fn of(length: LegalLength) -> Measures
        ensures { result.size ≡ length.bytes }
    {
        Measures { size: length.bytes }
    }

    // M, the first bitmap block.
    pub fn first_bitmap(self) -> usize
        ensures { result ≡ model.first_bitmap self.size }
    {
        self.size / BLOCK_BYTES - (self.size + 32767) / 32768
    }

    // How many user blocks there are.
    pub fn capacity(self) -> usize
        ensures { result ≡ model.capacity self.size }
    {
        self.first_bitmap() - 1
    }

    // Where physical block k begins.
    pub fn start(self, k: usize) -> usize
        requires { k ≤ model.first_bitmap self.size }
        ensures { result ≡ k * 64 }
    {
        k * BLOCK_BYTES
    }

    // Whether a logical number is one of this partition's.
    pub fn legal_number(self, number: usize) -> bool
        ensures { result ≡ model.legal_number self.size number }
    {
        number < self.capacity()
    }
}
