// What a reader of a tray hands out, part by part, and what it answers where a tray is wrong.
use crate::field::TrayField;
use sharing::refusal::Refusal;

// Why the bytes from an offset on are no tray.
#[derive(Clone, Copy, PartialEq, Eq, Debug)]
pub struct Fault {
    pub refusal: Refusal,
    pub offset: usize,
}

// A part of a tray. Thresholds and a card are lent bytes of the tray, with the offset of their first; bytes do not tell where
// they stand.
#[derive(Clone, Copy)]
pub enum Item<'a> {
    Field(TrayField),
    Thresholds { bytes: &'a [u8], offset: usize },
    // A number: tried, and the proof did not close, a `WordCount`, with which an item goes through no `?`.
    Words(u8),
    CardCount(u8),
    Card { bytes: &'a [u8], offset: usize },
}
