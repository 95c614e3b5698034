// Works through one real task from its beginning to its end, and prints what it does: the recovery cards of one drive,
// which three directors can open, or ten directors and managers, or twenty of anybody; and a sitting that opens it.
#![tactic(auto)]

ghost use Rattle.std.specs.Prelude.{◌≡◌, length, replicate};

use fields::prime::WIDE_FIELD;
use pools::judgement::Judgement;
use pools::pool::Pool;
use pools::session::{Reply, Request, run_session};
use sharing::dealing::{LoadedDealing, OpenedDealing};
use sharing::policy::Policy;
use sharing::refusal::Refusal;
use sharing::words::WordCount;
use std::array;

const THRESHOLDS: [u8; 3] = [3, 10, 20];

const WORDS: usize = 2;
// words times the last threshold
const COEFFICIENTS: usize = 40;
// ids are given as people join, from 1 on
const PEOPLE: usize = 31;

// A card as it is dealt here, with the two words of this drive: the engine's own cards are of a tray, or held in a pool.
#[derive(Clone, Copy, Default)]
struct IssuedCard {
    level: u8,
    id: u32,
    values: [u32; WORDS],
}

impl IssuedCard {
    // The request that presents the card.
    fn present(&self) -> Request<'_> {
        Request::Present {
            level: self.level,
            id: self.id,
            values: &self.values,
        }
    }
}

// Five directors, eight managers, and staff.
fn level_of(id: u32) -> u8 {
    match id {
        1 | 4 | 6 | 8 | 10 => 0,
        2..=13 => 1,
        _ => 2,
    }
}

fn role(level: u8) -> &'static str {
    match level {
        0 => "director",
        1 => "manager",
        _ => "staff",
    }
}

// Numbers that anybody can work out again. A real dealer draws them at random and tells nobody.
fn sample_coefficients() -> [u32; COEFFICIENTS] {
    array::from_fn(|i| (7919 * (i as u32 % COEFFICIENTS as u32) + 11) % 65537)
}

fn issue_one(dealing: &LoadedDealing, id: u32) -> Result<IssuedCard, Refusal> {
    let level = level_of(id);
    let mut values = [0; WORDS];
    dealing.issue(&WIDE_FIELD, level, id, &mut values)?;
    Ok(IssuedCard { level, id, values })
}

// Issues a card for each place, with ids from 1 on, and prints it.
fn issue_all(
    rt: &HostRuntime,
    dealing: &LoadedDealing,
    cards: &mut [IssuedCard],
) -> anyhow::Result<()> {
    for (id, card) in (1u32..).zip(cards.iter_mut()) {
        *card = issue_one(dealing, id)?;
        let who = role(card.level);
        let level = card.level;
        let [first, second] = card.values;
        println!(rt; "  {who}: level {level} id {id} values {first} {second}")?;
    }
    Ok(())
}

// Deals the cards; the coefficients are wiped, also where something is refused or can't be printed.
fn deal(
    rt: &HostRuntime,
    opened: OpenedDealing,
    coefficients: &mut [u32],
    cards: &mut [IssuedCard],
) -> anyhow::Result<()>
    ensures wiped { coefficients.new ≡ replicate (length coefficients.old) 0 }
{
    let loaded = opened.load(coefficients);
    println!(rt; "loaded; the cards:")?;
    issue_all(rt, &loaded, cards)?;
    loaded.end();
    Ok(())
}

fn tell(rt: &HostRuntime, asked: &str, reply: Result<Reply, Refusal>) -> anyhow::Result<()> {
    print!(rt; "  {asked}: ")?;
    match reply {
        Ok(Reply::Done) => println!(rt; "done")?,
        Ok(Reply::Number(number)) => println!(rt; "{number}")?,
        Ok(Reply::Truth(met)) => println!(rt; "{met}")?,
        Ok(Reply::Judged(judgement)) => println!(rt; "{judgement}")?,
        Err(refusal) => println!(rt; "refused, {refusal}")?,
    }
    Ok(())
}

const STEPS: usize = 23;

// A step of the sitting: what is asked, in words, and the request.
type Step<'a> = (&'static str, Request<'a>);

// Too few cards; ten that are enough by their number and still leave the key open; one that decides; a false card, which
// contradicts the others and is withdrawn; and one that is turned away.
fn script<'a>(cards: &'a [IssuedCard; PEOPLE], false_values: &'a [u32]) -> [Step<'a>; STEPS] {
    let judge = Request::Judge { key_length: WORDS };
    let false_card = Request::Present {
        level: 0,
        id: 6,
        values: false_values,
    };
    [
        ("director 1", cards[0].present()),
        ("director 8", cards[7].present()),
        ("are these enough by their number", Request::MeetsPolicy),
        ("the key", judge),
        ("manager 2", cards[1].present()),
        ("manager 3", cards[2].present()),
        ("manager 5", cards[4].present()),
        ("manager 7", cards[6].present()),
        ("manager 9", cards[8].present()),
        ("manager 11", cards[10].present()),
        ("manager 12", cards[11].present()),
        ("manager 13", cards[12].present()),
        ("are these enough by their number", Request::MeetsPolicy),
        ("the key", judge),
        ("director 4", cards[3].present()),
        ("the key", judge),
        ("director 6, with a false value", false_card),
        ("the key", judge),
        ("withdraw card 6", Request::Withdraw { id: 6 }),
        ("the key", judge),
        ("director 1 once more", cards[0].present()),
        ("cards held", Request::Held),
        ("cards turned away", Request::TurnedAway),
    ]
}

fn sitting(
    rt: &HostRuntime,
    policy: Policy,
    words: WordCount,
    cards: &[IssuedCard; PEOPLE],
) -> anyhow::Result<()> {
    let steps = script(cards, &[1, 2]);
    let requests = steps.map(|(_, request)| request);
    let mut replies = [Ok(Reply::Done); STEPS];
    run_session(WIDE_FIELD, policy, words, &requests, &mut replies);
    println!(rt; "a sitting:")?;
    for ((asked, _), reply) in steps.iter().zip(&replies) {
        tell(rt, asked, *reply)?;
    }
    Ok(())
}

// Three directors, call by call; whether they give the dealt key.
fn three_directors(
    policy: Policy,
    words: WordCount,
    cards: &[IssuedCard; PEOPLE],
    dealt: [u32; WORDS],
) -> Result<bool, Refusal> {
    let mut pool = Pool::new(WIDE_FIELD, policy, words);
    for card in [&cards[5], &cards[7], &cards[9]] {
        pool.present(card.level, card.id, &card.values)?;
    }
    let mut key = [0; WORDS];
    match pool.judge(&mut key)? {
        Judgement::Key(()) => Ok(key == dealt),
        Judgement::Open | Judgement::Contradictory => Ok(false),
    }
}

fn run(rt: &HostRuntime) -> anyhow::Result<()> {
    println!(rt;
        "a drive that opens to 3 directors, to 10 directors and managers, or to 20 of anybody"
    )?;
    let policy = Policy::new(&THRESHOLDS)?;
    let words = WordCount::new(WORDS as u8)?;
    let opened = OpenedDealing::new(policy, words);
    println!(rt; "opened: thresholds 3 10 20, 2 words, the wide field")?;
    let mut coefficients = sample_coefficients();
    let dealt = [coefficients[19], coefficients[39]];
    opened.trial(&WIDE_FIELD, &coefficients)?;
    println!(rt; "tried: the 40 coefficients fit")?;
    let mut cards = [IssuedCard::default(); PEOPLE];
    deal(rt, opened, &mut coefficients, &mut cards)?;
    println!(rt; "ended")?;
    if coefficients == [0; COEFFICIENTS] {
        println!(rt; "the coefficient buffer holds zeros")?;
    }
    sitting(rt, policy, words, &cards)?;
    if three_directors(policy, words, &cards, dealt)? {
        println!(rt; "directors 6, 8 and 10 alone give the dealt key")?;
    }
    Ok(())
}

fn main(rt: HostRuntime) -> anyhow::Result<()> {
    run(&rt)
}
