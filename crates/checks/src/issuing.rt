// What dealings issue and refuse, held to vectors that another program worked out and to the edges of every rule.
use fields::Field;
use fields::byte::ByteField;
use fields::prime::WIDE_FIELD;
use sharing::dealing::OpenedDealing;
use sharing::policy::Policy;
use sharing::refusal::Refusal;
use sharing::words::WordCount;
use std::test::Fail;

const UP_TO_32: [u32; 32] = [
    1, 2, 3, 4, 5, 6, 7, 8, 9, 10, 11, 12, 13, 14, 15, 16, 17, 18, 19, 20, 21, 22, 23, 24, 25, 26,
    27, 28, 29, 30, 31, 32,
];

// 7919 i + 11 modulo 65,537
const FORTY: [u32; 40] = [
    11, 7930, 15849, 23768, 31687, 39606, 47525, 55444, 63363, 5745, 13664, 21583, 29502, 37421,
    45340, 53259, 61178, 3560, 11479, 19398, 27317, 35236, 43155, 51074, 58993, 1375, 9294, 17213,
    25132, 33051, 40970, 48889, 56808, 64727, 7109, 15028, 22947, 30866, 38785, 46704,
];

// 17 i + 5 modulo 256
const THIRTY_TWO_BYTES: [u32; 32] = [
    5, 22, 39, 56, 73, 90, 107, 124, 141, 158, 175, 192, 209, 226, 243, 4, 21, 38, 55, 72, 89, 106,
    123, 140, 157, 174, 191, 208, 225, 242, 3, 20,
];

// The number of the refusal, or 0: the tests' tables are numbers.
fn refusal<T: Drop>(res: Result<T, Refusal>) -> u8 {
    res.map_or_else(|refusal| refusal.number(), |_| 0)
}

// Deals from copies of these coefficients, and asks for one card.
fn issue<F: Field>(
    field: &F,
    thresholds: &[u8],
    words: u8,
    coefficients: &[u32],
    level: u8,
    id: u32,
    values: &mut [u32],
) -> Result<(), Refusal> {
    let mut copies = [0; 64];
    let count = coefficients.len().min(64);
    copies[..count].copy_from_slice(&coefficients[..count]);
    let opened = OpenedDealing::new(Policy::new(thresholds)?, WordCount::new(words)?);
    let loaded = opened.load(&mut copies[..count]);
    loaded.issue(field, level, id, values)?;
    loaded.end();
    Ok(())
}

// A card of one word.
fn value<F: Field>(
    field: &F,
    thresholds: &[u8],
    coefficients: &[u32],
    level: u8,
    id: u32,
) -> Option<u32> {
    let mut values = [0];
    issue(field, thresholds, 1, coefficients, level, id, &mut values).ok()?;
    Some(values[0])
}

// A card of two words.
fn pair(level: u8, id: u32) -> [u32; 2] {
    let mut values = [0; 2];
    let _ = issue(&WIDE_FIELD, &[3, 10, 20], 2, &FORTY, level, id, &mut values);
    values
}

#[test]
fn wide_cards(rt: HostRuntime) {
    let wide = &WIDE_FIELD;
    assert_eq!(rt; value(wide, &[2, 3], &[7, 4, 5], 0, 1), Some(14));
    assert_eq!(rt; value(wide, &[2, 3], &[7, 4, 5], 1, 3), Some(64));
    assert_eq!(rt; value(wide, &[1, 32], &UP_TO_32, 0, 7), Some(36001));
    assert_eq!(rt; value(wide, &[1, 32], &UP_TO_32, 1, 7), Some(62567));
    assert_eq!(rt; value(wide, &[1, 32], &UP_TO_32, 1, 65536), Some(65521));
    assert_eq!(rt; value(wide, &[8, 16, 32], &UP_TO_32, 0, 5), Some(50205));
    assert_eq!(rt; value(wide, &[8, 16, 32], &UP_TO_32, 1, 5), Some(10720));
    assert_eq!(rt; value(wide, &[8, 16, 32], &UP_TO_32, 2, 5), Some(3417));
}

#[test]
fn cards_of_two_words(rt: HostRuntime) {
    assert_eq!(rt; pair(0, 1), [19611, 8096]);
    assert_eq!(rt; pair(0, 2), [37505, 47273]);
    assert_eq!(rt; pair(0, 3), [33676, 44000]);
    assert_eq!(rt; pair(1, 11), [3945, 29958]);
    assert_eq!(rt; pair(2, 31), [24276, 56104]);
}

#[test]
fn byte_cards(rt: HostRuntime) {
    let bytes = &ByteField;
    assert_eq!(rt; value(bytes, &[1, 2], &[0x53, 0xca], 0, 9), Some(202));
    assert_eq!(rt; value(bytes, &[1, 2], &[0x53, 0xca], 1, 3), Some(22));
    assert_eq!(rt; value(bytes, &[1, 2], &[0x53, 0xca], 1, 255), Some(213));
    assert_eq!(rt; value(bytes, &[31, 32], &THIRTY_TWO_BYTES, 0, 3), Some(231));
    assert_eq!(rt; value(bytes, &[31, 32], &THIRTY_TWO_BYTES, 1, 3), Some(43));
    assert_eq!(rt;
        value(bytes, &[31, 32], &THIRTY_TWO_BYTES, 1, 255),
        Some(122)
    );
}

#[test]
fn thresholds_and_word_counts(rt: HostRuntime) {
    assert_eq!(rt; refusal(Policy::new(&[])), 3);
    assert_eq!(rt; refusal(Policy::new(&[1, 2, 3, 4, 5, 6, 7, 8, 9])), 3);
    assert_eq!(rt; refusal(Policy::new(&[1, 2, 3, 4, 5, 6, 7, 8])), 0);
    assert_eq!(rt; refusal(Policy::new(&[2, 2])), 4);
    assert_eq!(rt; refusal(Policy::new(&[3, 2])), 4);
    assert_eq!(rt; refusal(Policy::new(&[0, 2])), 4);
    assert_eq!(rt; refusal(Policy::new(&[32])), 0);
    assert_eq!(rt; refusal(Policy::new(&[33])), 4);
    assert_eq!(rt; refusal(Policy::new(&[0, 0, 0, 0, 0, 0, 0, 0, 0])), 3);
    assert_eq!(rt; refusal(WordCount::new(0)), 5);
    assert_eq!(rt; refusal(WordCount::new(1)), 0);
    assert_eq!(rt; refusal(WordCount::new(16)), 0);
    assert_eq!(rt; refusal(WordCount::new(17)), 5);
}

// The first refusal wins where several hold, and a refused issue leaves the buffer as it was.
#[test]
fn refused_issues(rt: HostRuntime) {
    let wide = &WIDE_FIELD;
    let mut values = [77];
    assert_eq!(rt; refusal(issue(wide, &[2, 3], 1, &[7, 4], 9, 0, &mut [])), 6);
    assert_eq!(rt;
        refusal(issue(wide, &[2, 3], 1, &[7, 4, 65537], 9, 0, &mut [])),
        7
    );
    assert_eq!(rt;
        refusal(issue(wide, &[2, 3], 1, &[7, 4, 65536], 9, 0, &mut [])),
        8
    );
    assert_eq!(rt;
        refusal(issue(wide, &[2, 3], 1, &[7, 4, 5], 9, 0, &mut values)),
        9
    );
    assert_eq!(rt;
        refusal(issue(wide, &[2, 3], 1, &[7, 4, 5], 9, 65537, &mut values)),
        9
    );
    assert_eq!(rt;
        refusal(issue(wide, &[2, 3], 1, &[7, 4, 5], 2, 65536, &mut values)),
        10
    );
    assert_eq!(rt; values, [77]);
    assert_eq!(rt;
        refusal(issue(wide, &[2, 3], 1, &[7, 4, 5], 1, 65536, &mut values)),
        0
    );
    assert_eq!(rt;
        refusal(issue(&ByteField, &[2, 3], 1, &[7, 256, 5], 0, 1, &mut values)),
        7
    );
    assert_eq!(rt;
        refusal(issue(&ByteField, &[2, 3], 1, &[7, 4, 5], 0, 256, &mut values)),
        9
    );
}

#[test]
fn loading_is_tried_first(rt: HostRuntime) -> Result<(), Fail> {
    let opened = OpenedDealing::new(Policy::new(&[2, 3])?, WordCount::new(2)?);
    assert_eq!(rt; refusal(opened.trial(&WIDE_FIELD, &[7, 4, 5, 9, 9])), 6);
    assert_eq!(rt;
        refusal(opened.trial(&WIDE_FIELD, &[7, 4, 5, 9, 9, 65537])),
        7
    );
    assert_eq!(rt;
        refusal(opened.trial(&WIDE_FIELD, &[7, 4, 5, 9, 9, 65536])),
        0
    );
    assert_eq!(rt; refusal(opened.trial(&ByteField, &[7, 4, 5, 9, 9, 256])), 7);
    Ok(())
}

// A dealing that is let go, not ended, leaves zeros too.
#[test]
fn a_dropped_dealing_leaves_zeros(rt: HostRuntime) -> Result<(), Fail> {
    let opened = OpenedDealing::new(Policy::new(&[2])?, WordCount::new(1)?);
    let mut coefficients = [7, 4];
    {
        let _loaded = opened.load(&mut coefficients);
    }
    assert_eq!(rt; coefficients, [0, 0]);
    Ok(())
}
