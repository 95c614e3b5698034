// Reads a tray up to its cards.
ghost use Rattle.std.specs.Prelude.{◌≡◌, ℕ, ◌-◌, ◌≤◌, List, Some, None, MatchResult};
ghost use Rattle.sharing.specs.Refusals.{refuses_policy};
ghost use Rattle.trays.specs.Answers.{NextSaid, Reading};
ghost use Rattle.trays.specs.Layout.{Placed, Ending};
ghost use Rattle.reports.specs.Runs.{Stops};
ghost use Rattle.reports.specs.Steps.{OpensTo, PartToCome, ReadyTo, Whole, found};
ghost use Rattle.reports.specs.declared.report.Layer.TheVariants as layer;

use crate::report::{Layer, Stop};
use sharing::policy::Policy;
use sharing::words::WordCount;
use trays::field::TrayField;
use trays::item::{Fault, Item};
use trays::reader::TrayReader;

// What a tray says before its cards, with all that a pool is made of.
#[derive(Clone, Copy)]
pub(crate) struct Opening {
    pub(crate) field: TrayField,
    pub(crate) policy: Policy,
    pub(crate) words: WordCount,
    pub(crate) cards: u8,
}

impl From<Fault> for Stop {
    ghost from_gives = { λ fault s. s ≡ record { refusal = fault.refusal; layer = layer.Reader; offset = fault.offset } };

    fn from(fault: Fault) -> Stop {
        Stop {
            refusal: fault.refusal,
            layer: Layer::Reader,
            offset: fault.offset,
        }
    }
}

// The part that is to come.
pub(crate) fn part<'a>(reader: &mut TrayReader<'a>) -> Result<Item<'a>, Fault>
    requires { PartToCome reader.old }
    ensures same { reader.new.bytes ≡ reader.old.bytes }
    ensures reads { NextSaid reader.old (found result) reader.new }
{
    let Some(item) = reader.next()? else {
        unreachable()
    };
    Ok(item)
}

// The policy with the thresholds, the first of which stands at `offset`. Their part begins one byte earlier, with their count.
fn policy_at(levels: &[u8], offset: usize) -> Result<Policy, Stop>
    requires { 1 ≤ offset }
    ensures { MatchResult result (λ p. (p ≡ levels.now) × (refuses_policy levels.now ≡ None)) (λ s. (n : ℕ) × (refuses_policy levels.now ≡ Some n) × Stops n layer.Policy (offset - 1) s) }
{
    Policy::new(levels).map_err(|refusal| Stop {
        refusal,
        layer: Layer::Policy,
        offset: offset - 1,
    })
}

// The number of words that a tray may have. A reader's answer holds it as a number, for which its own reason stands there.
fn word_count(words: u8) -> WordCount
    requires { (1 ≤ words) × (words ≤ 16) }
    ensures { result ≡ words }
{
    let Ok(count) = WordCount::new(words) else {
        unreachable()
    };
    count
}

// Reads a whole tray up to its card count.
pub(crate) fn open(reader: &mut TrayReader) -> Result<Opening, Stop>
    requires { (parts : List Placed) (e : Ending) → Reading reader.old parts e → Whole parts e }
    ensures parts { (parts : List Placed) (e : Ending) → Reading reader.old parts e → OpensTo result reader.new parts e }
    ensures ready { ReadyTo result reader.new }
{
    let Item::Field(field) = part(reader)? else {
        unreachable()
    };
    let Item::Thresholds { bytes, offset } = part(reader)? else {
        unreachable()
    };
    let policy = policy_at(bytes, offset)?;
    let Item::Words(words) = part(reader)? else {
        unreachable()
    };
    let words = word_count(words);
    let Item::CardCount(cards) = part(reader)? else {
        unreachable()
    };
    Ok(Opening {
        field,
        policy,
        words,
        cards,
    })
}
