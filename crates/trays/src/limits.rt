// Limits of the tray format.
ghost use Rattle.std.specs.Prelude.{◌≡◌};
ghost use Rattle.trays.specs.Layout.{card_size};

// How many bytes a card has: its level, its id, and a value for each word.
pub fn card_size(words: u8) -> usize
    ensures { result ≡ card_size words }
{
    5 + 4 * words as usize
}
