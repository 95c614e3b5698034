// What a reader of a tray hands out.
use crate::runs::TRAY;
use sharing::refusal::Refusal;
use std::process::Abort;
use std::test::Fail;
use trays::card::card_of;
use trays::item::Item;
use trays::reader::TrayReader;

// Whether the next item is this card.
fn has_card(
    rt: &impl Abort,
    reader: &mut TrayReader,
    place: usize,
    level: u8,
    id: u32,
    value: u32,
) -> Result<(), Fail> {
    let Some(Item::Card { bytes, offset }) = reader.next()? else {
        return Err(Fail::new("no card"));
    };
    assert_eq!(rt; offset, place);
    let card = card_of(bytes, 1).ok_or("not as long as a card")?;
    assert_eq!(rt; card.level, level);
    assert_eq!(rt; card.id, id);
    let values = card.values;
    assert_eq!(rt; values[0], value);
    assert_eq!(rt; values[1], 0);
    Ok(())
}

#[test]
fn items_in_order(rt: HostRuntime) -> Result<(), Fail> {
    let mut reader = TrayReader::new(&TRAY);
    let Some(Item::Field(field)) = reader.next()? else {
        return Err(Fail::new("no field"));
    };
    assert_eq!(rt; field.number(), 2);
    let Some(Item::Thresholds { bytes, offset }) = reader.next()? else {
        return Err(Fail::new("no thresholds"));
    };
    assert_eq!(rt; offset, 2);
    assert!(rt; bytes.len() == 2 && bytes[0] == 2 && bytes[1] == 3);
    let Some(Item::Words(words)) = reader.next()? else {
        return Err(Fail::new("no words"));
    };
    assert_eq!(rt; words, 1);
    let Some(Item::CardCount(cards)) = reader.next()? else {
        return Err(Fail::new("no card count"));
    };
    assert_eq!(rt; cards, 4);
    has_card(&rt, &mut reader, 6, 0, 1, 14)?;
    has_card(&rt, &mut reader, 15, 1, 3, 64)?;
    has_card(&rt, &mut reader, 24, 1, 5, 152)?;
    has_card(&rt, &mut reader, 33, 1, 3, 64)?;
    for _ in 0..2u8 {
        assert!(rt; reader.next()?.is_none());
    }
    Ok(())
}

// The reader gives `items` items, and then the fault, twice.
fn faults(
    rt: &impl Abort,
    bytes: &[u8],
    items: u8,
    refusal: Refusal,
    offset: usize,
) -> Result<(), Fail> {
    let mut reader = TrayReader::new(bytes);
    for _ in 0..items {
        reader.next()?;
    }
    for _ in 0..2u8 {
        let Err(fault) = reader.next() else {
            return Err(Fail::new("no fault"));
        };
        assert_eq!(rt; fault.refusal, refusal);
        assert_eq!(rt; fault.offset, offset);
    }
    Ok(())
}

#[test]
fn faults_repeat(rt: HostRuntime) -> Result<(), Fail> {
    faults(&rt, &[], 0, Refusal::TrayEndsEarly, 0)?;
    faults(&rt, &TRAY[..41], 7, Refusal::TrayEndsEarly, 33)?;
    faults(&rt, &TRAY[..3], 1, Refusal::TrayEndsEarly, 1)?;
    faults(&rt, &[0, 1], 0, Refusal::UnknownField, 0)?;
    faults(&rt, &[3], 0, Refusal::UnknownField, 0)?;
    faults(&rt, &[1, 0, 0, 0], 2, Refusal::WrongWordCount, 2)?;
    faults(&rt, &[1, 1, 9, 17], 2, Refusal::WrongWordCount, 3)?;
    faults(&rt, &[1, 0, 16, 0, 7], 4, Refusal::TrailingByte, 4)
}

#[test]
fn cards_have_their_length(rt: HostRuntime) -> Result<(), Fail> {
    let card = [7, 1, 2, 3, 4, 5, 6, 7, 255, 9, 0, 0, 0];
    assert!(rt; card_of(&card, 1).is_none());
    assert!(rt; card_of(&card[..5], 0).is_none());
    let read = card_of(&card, 2).ok_or("no card")?;
    assert_eq!(rt; read.level, 7);
    assert_eq!(rt; read.id, 0x0403_0201);
    let values = read.values;
    assert_eq!(rt; values[0], 0xff07_0605);
    assert_eq!(rt; values[1], 9);
    assert_eq!(rt; values[2], 0);
    Ok(())
}
