// What pools hold, refuse and judge.
use fields::Field;
use fields::byte::ByteField;
use fields::prime::{WIDE_FIELD, WideField};
use pools::judgement::Judgement;
use pools::pool::Pool;
use pools::session::{Reply, Request, run_session};
use sharing::policy::Policy;
use sharing::refusal::Refusal;
use sharing::words::WordCount;
use std::test::Fail;

// A pool over the wide field for two words, with these thresholds.
fn empty(levels: &[u8]) -> Result<Pool<WideField>, Fail> {
    let policy = Policy::new(levels)?;
    let words = WordCount::new(2)?;
    Ok(Pool::new(WIDE_FIELD, policy, words))
}

#[test]
fn sixty_four_cards_are_held(rt: HostRuntime) -> Result<(), Fail> {
    let mut pool = empty(&[2, 3])?;
    for id in 1u32..65 {
        assert_eq!(rt; pool.present(0, id, &[1, 2]), Ok(()));
    }
    assert_eq!(rt; pool.held(), 64);
    assert_eq!(rt; pool.present(0, 65, &[1, 2]), Err(Refusal::PoolFull));
    assert_eq!(rt; pool.withdraw(7), Ok(()));
    assert_eq!(rt; pool.withdraw(7), Err(Refusal::IdNotHeld));
    assert_eq!(rt; pool.present(0, 65, &[1, 2]), Ok(()));
    assert_eq!(rt; pool.held(), 64);
    assert_eq!(rt; pool.turned_away(), 1);
    Ok(())
}

// Each card meets the condition that it is refused by and all those after it.
#[test]
fn the_first_refusal_counts(rt: HostRuntime) -> Result<(), Fail> {
    let mut pool = empty(&[2, 3])?;
    assert_eq!(rt; pool.present(1, 5, &[65536, 0]), Ok(()));
    assert_eq!(rt;
        pool.present(2, 0, &[65537]),
        Err(Refusal::WrongBufferLength)
    );
    assert_eq!(rt; pool.present(2, 0, &[65537, 0]), Err(Refusal::WrongId));
    assert_eq!(rt; pool.present(2, 65537, &[65537, 0]), Err(Refusal::WrongId));
    assert_eq!(rt; pool.present(2, 5, &[65537, 0]), Err(Refusal::NoSuchLevel));
    assert_eq!(rt;
        pool.present(1, 5, &[0, 65537]),
        Err(Refusal::ValueOutsideField)
    );
    assert_eq!(rt;
        pool.present(1, 5, &[0, 65536]),
        Err(Refusal::IdAlreadyHeld)
    );
    assert_eq!(rt; pool.held(), 1);
    assert_eq!(rt; pool.turned_away(), 6);
    Ok(())
}

#[test]
fn the_count_of_cards_turned_away_stops(rt: HostRuntime) -> Result<(), Fail> {
    let mut pool = empty(&[2, 3])?;
    for _ in 0u32..65_540 {
        assert_eq!(rt; pool.present(0, 0, &[1, 2]), Err(Refusal::WrongId));
    }
    assert_eq!(rt; pool.turned_away(), 65_535);
    Ok(())
}

#[test]
fn a_policy_is_met_by_a_level_and_those_below_it(rt: HostRuntime) -> Result<(), Fail> {
    let mut pool = empty(&[2, 3])?;
    assert_eq!(rt; pool.meets_policy(), false);
    assert_eq!(rt; pool.present(1, 1, &[1, 2]), Ok(()));
    assert_eq!(rt; pool.present(1, 2, &[1, 2]), Ok(()));
    assert_eq!(rt; pool.meets_policy(), false);
    assert_eq!(rt; pool.present(0, 3, &[1, 2]), Ok(()));
    assert_eq!(rt; pool.meets_policy(), true);
    assert_eq!(rt; pool.withdraw(1), Ok(()));
    assert_eq!(rt; pool.meets_policy(), false);
    assert_eq!(rt; pool.present(0, 4, &[1, 2]), Ok(()));
    assert_eq!(rt; pool.meets_policy(), true);
    Ok(())
}

#[test]
fn a_session_in_the_byte_field(rt: HostRuntime) -> Result<(), Fail> {
    let policy = Policy::new(&[1])?;
    let words = WordCount::new(1)?;
    let card = Request::Present {
        level: 0,
        id: 255,
        values: &[7],
    };
    let requests = [
        card,
        card,
        Request::MeetsPolicy,
        Request::Withdraw { id: 255 },
        Request::Held,
        Request::TurnedAway,
        Request::Held,
    ];
    let mut replies = [Ok(Reply::Judged(Judgement::Open)); 6];
    run_session(ByteField, policy, words, &requests, &mut replies);
    assert_eq!(rt; replies[0], Ok(Reply::Done));
    assert_eq!(rt; replies[1], Err(Refusal::IdAlreadyHeld));
    assert_eq!(rt; replies[2], Ok(Reply::Truth(true)));
    assert_eq!(rt; replies[3], Ok(Reply::Done));
    assert_eq!(rt; replies[4], Ok(Reply::Number(0)));
    assert_eq!(rt; replies[5], Ok(Reply::Number(1)));
    Ok(())
}

// A card of one word, with its value in the table's line: the others hold as many as their policy asks for.
#[derive(Clone, Copy)]
struct TestCard {
    level: u8,
    id: u32,
    value: u32,
}

const fn card(level: u8, id: u32, value: u32) -> TestCard {
    TestCard { level, id, value }
}

// What a new pool says once these cards are presented: whether they are enough by their number, and the verdict with what
// then stands in the key buffer, which held 77.
fn judged<F: Field + Drop>(
    field: F,
    thresholds: &[u8],
    cards: &[TestCard],
) -> Result<(bool, Judgement<()>, u32), Refusal> {
    let mut pool = Pool::new(field, Policy::new(thresholds)?, WordCount::new(1)?);
    for card in cards {
        pool.present(card.level, card.id, &[card.value])?;
    }
    let mut key = [77];
    let judgement = pool.judge(&mut key)?;
    Ok((pool.meets_policy(), judgement, key[0]))
}

#[test]
fn verdicts_of_the_wide_field(rt: HostRuntime) -> Result<(), Fail> {
    let policy = &[2, 3];
    assert_eq!(rt;
        judged(WIDE_FIELD, policy, &[card(0, 1, 14), card(0, 2, 24)])?,
        (true, Judgement::Key(()), 5)
    );
    assert_eq!(rt;
        judged(
            WIDE_FIELD,
            policy,
            &[card(0, 1, 14), card(1, 3, 64), card(1, 5, 152)],
        )?,
        (true, Judgement::Key(()), 5)
    );
    assert_eq!(rt;
        judged(
            WIDE_FIELD,
            policy,
            &[card(0, 4, 44), card(1, 3, 64), card(1, 5, 152)],
        )?,
        (true, Judgement::Open, 77)
    );
    assert_eq!(rt;
        judged(
            WIDE_FIELD,
            policy,
            &[card(0, 4, 45), card(1, 3, 64), card(1, 5, 152)],
        )?,
        (true, Judgement::Contradictory, 77)
    );
    assert_eq!(rt;
        judged(WIDE_FIELD, policy, &[card(0, 1, 14), card(1, 3, 64)])?,
        (false, Judgement::Open, 77)
    );
    assert_eq!(rt;
        judged(WIDE_FIELD, policy, &[])?,
        (false, Judgement::Open, 77)
    );
    assert_eq!(rt;
        judged(WIDE_FIELD, &[1], &[card(0, 1, 9)])?,
        (true, Judgement::Key(()), 9)
    );
    assert_eq!(rt;
        judged(
            WIDE_FIELD,
            &[3, 4],
            &[card(1, 3, 118), card(1, 5, 402), card(0, 4, 140)],
        )?,
        (false, Judgement::Key(()), 2)
    );
    Ok(())
}

#[test]
fn verdicts_of_the_byte_field(rt: HostRuntime) -> Result<(), Fail> {
    assert_eq!(rt;
        judged(ByteField, &[2], &[card(0, 1, 2), card(0, 2, 7)])?,
        (true, Judgement::Key(()), 3)
    );
    assert_eq!(rt;
        judged(ByteField, &[3, 4], &[card(0, 3, 22), card(0, 4, 104)])?,
        (false, Judgement::Key(()), 6)
    );
    assert_eq!(rt;
        judged(ByteField, &[1, 3], &[card(0, 1, 0)])?,
        (true, Judgement::Open, 77)
    );
    assert_eq!(rt;
        judged(ByteField, &[1, 3], &[card(0, 1, 1)])?,
        (true, Judgement::Contradictory, 77)
    );
    Ok(())
}

#[test]
fn the_order_of_cards_does_not_matter(rt: HostRuntime) -> Result<(), Fail> {
    let a = card(0, 1, 14);
    let b = card(1, 3, 64);
    let c = card(1, 5, 152);
    let d = card(1, 6, 211);
    assert_eq!(rt;
        judged(WIDE_FIELD, &[2, 3], &[a, c, b])?,
        (true, Judgement::Key(()), 5)
    );
    assert_eq!(rt;
        judged(WIDE_FIELD, &[2, 3], &[b, a, c])?,
        (true, Judgement::Key(()), 5)
    );
    assert_eq!(rt;
        judged(WIDE_FIELD, &[2, 3], &[b, c, a])?,
        (true, Judgement::Key(()), 5)
    );
    assert_eq!(rt;
        judged(WIDE_FIELD, &[2, 3], &[c, a, b])?,
        (true, Judgement::Key(()), 5)
    );
    assert_eq!(rt;
        judged(WIDE_FIELD, &[2, 3], &[c, b, a])?,
        (true, Judgement::Key(()), 5)
    );
    assert_eq!(rt;
        judged(WIDE_FIELD, &[2, 3], &[d, b, a, c])?,
        (true, Judgement::Key(()), 5)
    );
    Ok(())
}

// The same without a buffer.
#[test]
fn a_verdict_holds_the_key(rt: HostRuntime) -> Result<(), Fail> {
    let mut pool = empty(&[2, 3])?;
    assert!(rt; pool.verdict() == Judgement::Open);
    assert_eq!(rt; pool.words().get(), 2);
    pool.present(0, 1, &[14, 8])?;
    pool.present(0, 2, &[24, 14])?;
    let Judgement::Key(key) = pool.verdict() else {
        return Err(Fail::new("a key"));
    };
    assert!(rt; key.as_slice() == [5, 3].as_slice());
    pool.present(0, 3, &[0, 0])?;
    assert!(rt; pool.verdict() == Judgement::Contradictory);
    Ok(())
}

#[test]
fn a_key_buffer_of_another_length(rt: HostRuntime) -> Result<(), Fail> {
    let pool = empty(&[2, 3])?;
    let mut short = [77];
    let mut long = [77, 78, 79];
    assert_eq!(rt; pool.judge(&mut short), Err(Refusal::WrongBufferLength));
    assert_eq!(rt; pool.judge(&mut long), Err(Refusal::WrongBufferLength));
    assert_eq!(rt; short, [77]);
    assert_eq!(rt; long, [77, 78, 79]);
    Ok(())
}
