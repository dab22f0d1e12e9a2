// The free blocks of a card: those that a new file may take.
ghost use Rattle.std.specs.Prelude.{◌≡◌};
ghost use Rattle.card_model.specs.Layout.{table_of};
ghost use Rattle.card_model.specs.Table.{is_free};
ghost use Rattle.card_updates.specs.Write.{free_blocks};

use card_model::{LENGTH, Link};
use card_table::{classify, fat_entry};
use words::byte_list::ByteList;

fn is_free(link: Link) -> bool
    ensures { result ≡ is_free link }
{
    matches!(link, Link::Free)
}

// Lists the free blocks, from the highest downwards. Each block is put behind the list and counted where it is free: no step
// depends on a branch, and the count stays in a register, where a list behind a reference would keep it in memory.
pub fn list_free(card: &[u8; LENGTH]) -> ByteList<200>
    ensures { result ≡ free_blocks (table_of card.now) }
{
    let mut numbers = [0; 200];
    let mut count = 0;
    for b in (0..200).rev() {
        numbers[count] = b;
        count += usize::from(is_free(classify(fat_entry(card, usize::from(b)))));
    }
    ByteList::of(numbers, count)
}
