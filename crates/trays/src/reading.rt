// Reads a tray part by part.
ghost use Rattle.std.specs.Prelude.{◌≡◌, ℕ, ◌+◌, ◌<◌, ◌≤◌, length, take, drop, MatchResult, slice_index};
ghost use Rattle.trays.specs.Answers.{AtStart, NextSaid, Reading, Said, SaidFrom, fault_at};
ghost use Rattle.trays.specs.Layout.{at_field, at_thresholds, at_words, at_count, at_cards, OneReading, Reads};

use crate::field::TrayField;
use crate::item::{Fault, Item};
use crate::limits::card_size;
use crate::reader::{Stage, TrayReader};
use sharing::refusal::Refusal;
use sharing::words::WordCount;

impl<'a> TrayReader<'a> {
    // A reader at the start of `bytes`, which are one list of parts with one ending, and no other.
    #[tactic(auto, using(crate::proofs::OneWay::one_way))]
    pub fn new(bytes: &'a [u8]) -> TrayReader<'a>
        ensures decided { OneReading (Reads at_field 0 bytes.now) }
        ensures starts { AtStart result bytes.now }
    {
        TrayReader {
            bytes,
            position: 0,
            stage: Stage::Field,
        }
    }

    // The fault where the reader stands.
    fn fault(&self, refusal: Refusal) -> Fault
        ensures { result ≡ fault_at self.now refusal }
    {
        Fault {
            refusal,
            offset: self.position,
        }
    }

    // What was read, or the fault where it was refused.
    fn accepted<T>(&self, read: Result<T, Refusal>) -> Result<T, Fault>
        ensures { MatchResult read (λ x. result ≡ Ok x) (λ k. result ≡ Err (fault_at self.now k)) }
    {
        // Tried, and the proof did not close: `read.map_err(|refusal| self.fault(refusal))`.
        match read {
            Ok(value) => Ok(value),
            Err(refusal) => Err(self.fault(refusal)),
        }
    }

    // The byte where the reader stands.
    fn byte(&self) -> Result<u8, Fault>
        ensures { MatchResult result (λ b. (self.now.position < length self.now.bytes.now) × (b ≡ slice_index self.now.bytes.now self.now.position)) (λ f. (length self.now.bytes.now ≤ self.now.position) × (f ≡ fault_at self.now Refusal.TrayEndsEarly)) }
    {
        let byte = self.bytes.get(self.position).copied();
        byte.ok_or(self.fault(Refusal::TrayEndsEarly))
    }

    // The `count` bytes from `from` on.
    fn part(&self, from: usize, count: usize) -> Result<&'a [u8], Fault>
        requires { from ≤ length self.now.bytes.now }
        ensures { MatchResult result (λ s. (from + count ≤ length self.now.bytes.now) × (s.now ≡ take count (drop from self.now.bytes.now))) (λ f. (length self.now.bytes.now < from + count) × (f ≡ fault_at self.now Refusal.TrayEndsEarly)) }
    {
        let part = self.bytes[from..].get(..count);
        part.ok_or(self.fault(Refusal::TrayEndsEarly))
    }

    fn read_field(&mut self) -> Result<Option<Item<'a>>, Fault>
        ensures { SaidFrom at_field self.old result self.new }
    {
        let code = self.byte()?;
        let field = self.accepted(TrayField::try_from(code))?;
        self.position += 1;
        self.stage = Stage::Thresholds;
        Ok(Some(Item::Field(field)))
    }

    fn read_thresholds(&mut self) -> Result<Option<Item<'a>>, Fault>
        ensures { SaidFrom at_thresholds self.old result self.new }
    {
        let count = self.byte()? as usize;
        let offset = self.position + 1;
        let bytes = self.part(offset, count)?;
        self.position = offset + count;
        self.stage = Stage::Words;
        Ok(Some(Item::Thresholds { bytes, offset }))
    }

    fn read_words(&mut self) -> Result<Option<Item<'a>>, Fault>
        ensures { SaidFrom at_words self.old result self.new }
    {
        let code = self.byte()?;
        let words = self.accepted(WordCount::new(code))?;
        self.position += 1;
        self.stage = Stage::CardCount { words };
        Ok(Some(Item::Words(code)))
    }

    fn read_count(&mut self, words: WordCount) -> Result<Option<Item<'a>>, Fault>
        ensures { SaidFrom (at_count words) self.old result self.new }
    {
        let left = self.byte()?;
        self.position += 1;
        self.stage = Stage::Cards { words, left };
        Ok(Some(Item::CardCount(left)))
    }

    fn read_card(&mut self, words: WordCount, left: u8) -> Result<Option<Item<'a>>, Fault>
        requires { 1 ≤ left }
        ensures { SaidFrom (at_cards words left) self.old result self.new }
    {
        let offset = self.position;
        let size = card_size(words.get());
        let bytes = self.part(offset, size)?;
        self.position = offset + size;
        self.stage = Stage::Cards {
            words,
            left: left - 1,
        };
        Ok(Some(Item::Card { bytes, offset }))
    }

    fn read_end(&mut self) -> Result<Option<Item<'a>>, Fault>
        ensures { (w : ℕ) → SaidFrom (at_cards w 0) self.old result self.new }
    {
        if self.position < self.bytes.len() {
            return Err(self.fault(Refusal::TrailingByte));
        }
        self.stage = Stage::End;
        Ok(None)
    }

    // Reads what comes next; a fault is still to be kept.
    fn read(&mut self) -> Result<Option<Item<'a>>, Fault>
        ensures { Said (Reading self.old) self.old result self.new }
    {
        // Tried, and the proof did not close: a `match self.stage`, whose arms would copy the word count out of the stage.
        let stage = self.stage;
        match &stage {
            Stage::Field => self.read_field(),
            Stage::Thresholds => self.read_thresholds(),
            Stage::Words => self.read_words(),
            Stage::CardCount { words } => self.read_count(*words),
            Stage::Cards { words: _, left: 0 } => self.read_end(),
            Stage::Cards { words, left } => self.read_card(*words, *left),
            Stage::End => Ok(None),
            Stage::Faulted(fault) => Err(*fault),
        }
    }

    // The next part, none at the end, or what is wrong; and the last two again, however often.
    pub fn next(&mut self) -> Result<Option<Item<'a>>, Fault>
        ensures same { self.new.bytes ≡ self.old.bytes }
        ensures reads { NextSaid self.old result self.new }
    {
        let said = self.read();
        if let Err(fault) = said {
            self.stage = Stage::Faulted(fault);
        }
        said
    }
}
