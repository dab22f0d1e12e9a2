// A card, with the list of its used entries.
ghost use Rattle.std.specs.Prelude.{◌≡◌, length};
ghost use Rattle.card_model.specs.Layout.{card_length, directory_of};
ghost use Rattle.card_directory.specs.Listed.{Listed};

use card_model::LENGTH;

// A card whose used entries are listed: the rows and the searches go over the list alone. The length is told too, since a proof can't
// read it off an array behind a struct's field.
#[derive(Clone, Copy)]
pub struct Directory<'a> {
    pub card: &'a [u8; LENGTH],
    pub used: &'a [u8],
    ghost long: { length card.now ≡ card_length },
    ghost listed: { Listed (directory_of card.now) 208 used.now (length used.now) },
}
