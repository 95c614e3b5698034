// What whole trays report.
use reports::report::Judged;
use reports::run::run_tray;
use reports::text::report_text;
use std::process::Abort;
use std::test::Fail;

// The wide field, thresholds 2 and 3, one word, four cards, of which the last has the id of the second.
pub(crate) const TRAY: [u8; 42] = [
    2, 2, 2, 3, 1, 4, 0, 1, 0, 0, 0, 14, 0, 0, 0, 1, 3, 0, 0, 0, 64, 0, 0, 0, 1, 5, 0, 0, 0, 152,
    0, 0, 0, 1, 3, 0, 0, 0, 64, 0, 0, 0,
];

// Whether the tray's report has this text.
fn reports(rt: &(impl Abort + AllocGlobal), tray: &[u8], text: &str) -> Result<(), Fail> {
    let report = run_tray(tray);
    let written = report_text(rt.alloc(), &report)?;
    assert!(rt; written.as_str() == text);
    Ok(())
}

// The number and the offset of what stopped a run, or zeros: the tests' tables are numbers.
fn stop_of(tray: &[u8]) -> (u8, usize) {
    let report = run_tray(tray);
    match report.conclusion {
        Ok(_) => (0, 0),
        Err(stop) => (stop.refusal.number(), stop.offset),
    }
}

#[test]
fn the_tray_of_the_manual(rt: HostRuntime) -> Result<(), Fail> {
    reports(
        &rt,
        &TRAY,
        "field 2 levels 2 words 1 cards 4\ncard 4 at 33 refused 12 pool\nheld 3 turned 1\nkey 5\n",
    )?;
    reports(
        &rt,
        &TRAY[0..40],
        "field 2 levels 2 words 1 cards 4\nfault 1 reader at 33\n",
    )?;
    reports(&rt, &[2, 2, 3, 2], "fault 4 policy at 1\n")?;
    reports(
        &rt,
        &[1, 1, 2, 1, 0],
        "field 1 levels 1 words 1 cards 0\nheld 0 turned 0\nopen\n",
    )?;
    reports(
        &rt,
        &[1, 1, 2, 1, 0, 9],
        "field 1 levels 1 words 1 cards 0\nfault 15 reader at 5\n",
    )
}

// Where the part begins that a tray of so many bytes leaves incomplete.
fn incomplete(bytes: usize) -> usize {
    match bytes {
        0 => 0,
        1..=3 => 1,
        4..=5 => bytes,
        6..=14 => 6,
        15..=23 => 15,
        24..=32 => 24,
        _ => 33,
    }
}

#[test]
fn every_truncation(rt: HostRuntime) {
    for n in 0..42 {
        assert_eq!(rt; stop_of(&TRAY[0..n]), (1, incomplete(n)));
    }
    assert_eq!(rt; stop_of(&TRAY), (0, 0));
}

#[test]
fn faults(rt: HostRuntime) {
    assert_eq!(rt; stop_of(&[]), (1, 0));
    assert_eq!(rt; stop_of(&[0]), (2, 0));
    assert_eq!(rt; stop_of(&[3, 1, 1, 1, 0]), (2, 0));
    assert_eq!(rt; stop_of(&[2, 0, 1, 0]), (3, 1));
    assert_eq!(rt; stop_of(&[2, 9, 1, 2, 3, 4, 5, 6, 7, 8, 9, 1, 0]), (3, 1));
    assert_eq!(rt; stop_of(&[2, 2, 0, 3, 1, 0]), (4, 1));
    assert_eq!(rt; stop_of(&[2, 1, 33, 1, 0]), (4, 1));
    assert_eq!(rt; stop_of(&[2, 2, 3, 3, 1, 0]), (4, 1));
    assert_eq!(rt; stop_of(&[2, 1, 32, 0, 0]), (5, 3));
    assert_eq!(rt; stop_of(&[2, 1, 32, 17, 0]), (5, 3));
    assert_eq!(rt; stop_of(&[2, 1, 32, 16, 0]), (0, 0));
    assert_eq!(rt; stop_of(&[2, 1, 32, 16, 0, 0]), (15, 5));
}

// Ids and values at the size of the field, and next to it.
#[test]
fn numbers_at_the_size(rt: HostRuntime) -> Result<(), Fail> {
    reports(
        &rt,
        &[
            1, 1, 1, 1, 4, 0, 255, 0, 0, 0, 255, 0, 0, 0, 0, 0, 1, 0, 0, 1, 0, 0, 0, 0, 1, 0, 0, 0,
            0, 1, 0, 0, 0, 0, 0, 0, 0, 1, 0, 0, 0,
        ],
        "field 1 levels 1 words 1 cards 4\ncard 2 at 14 refused 9 pool\ncard 3 at 23 refused 11 pool\ncard 4 at 32 refused 9 pool\nheld 1 turned 3\nkey 255\n",
    )?;
    reports(
        &rt,
        &[
            2, 1, 1, 1, 3, 0, 0, 0, 1, 0, 0, 0, 1, 0, 0, 1, 0, 1, 0, 7, 0, 0, 0, 0, 2, 0, 0, 0, 1,
            0, 1, 0,
        ],
        "field 2 levels 1 words 1 cards 3\ncard 2 at 14 refused 9 pool\ncard 3 at 23 refused 11 pool\nheld 1 turned 2\nkey 65536\n",
    )
}

const LONGEST: usize = 17_607;

const MORE: usize = 20_000;

// The byte at a place of the longest tray over the byte field: eight levels, 16 words, 255 cards of level 0 with the ids 1 to
// 255 and values 0; and then zeros.
fn byte_at(place: usize) -> u8 {
    match place {
        0 => 1,
        1 => 8,
        2..=9 => place as u8,
        10 => 16,
        11 => 255,
        _ => {
            if place < LONGEST && (place - 12) % 69 == 1 {
                (((place - 12) / 69 + 1) % 256) as u8
            } else {
                0
            }
        }
    }
}

fn fill(bytes: &mut [u8]) {
    for (place, byte) in bytes.iter_mut().enumerate() {
        *byte = byte_at(place);
    }
}

// A pool that fills up; and bytes past 17,608 decide nothing.
#[test]
fn the_longest_tray(rt: HostRuntime) -> Result<(), Fail> {
    let mut bytes = vec![in rt.alloc(); 0u8; MORE]?;
    fill(&mut bytes);
    assert!(rt; bytes.len() == MORE);
    let report = run_tray(&bytes[0..LONGEST]);
    let Ok(Judged { held, turned, .. }) = report.conclusion else {
        return Err(Fail::new("judged"));
    };
    assert_eq!(rt; held, 64);
    assert_eq!(rt; turned, 191);
    assert_eq!(rt; stop_of(&bytes[0..LONGEST + 1]), (15, LONGEST));
    assert_eq!(rt; stop_of(&bytes), (15, LONGEST));
    Ok(())
}

#[test]
fn verdicts(rt: HostRuntime) -> Result<(), Fail> {
    reports(
        &rt,
        &[
            2, 2, 2, 3, 1, 3, 0, 4, 0, 0, 0, 44, 0, 0, 0, 1, 3, 0, 0, 0, 64, 0, 0, 0, 1, 5, 0, 0,
            0, 152, 0, 0, 0,
        ],
        "field 2 levels 2 words 1 cards 3\nheld 3 turned 0\nopen\n",
    )?;
    reports(
        &rt,
        &[
            2, 2, 2, 3, 1, 3, 0, 4, 0, 0, 0, 45, 0, 0, 0, 1, 3, 0, 0, 0, 64, 0, 0, 0, 1, 5, 0, 0,
            0, 152, 0, 0, 0,
        ],
        "field 2 levels 2 words 1 cards 3\nheld 3 turned 0\ncontradictory\n",
    )?;
    reports(
        &rt,
        &[
            1, 1, 1, 3, 1, 0, 9, 0, 0, 0, 7, 0, 0, 0, 0, 0, 0, 0, 255, 0, 0, 0,
        ],
        "field 1 levels 1 words 3 cards 1\nheld 1 turned 0\nkey 7 0 255\n",
    )
}
