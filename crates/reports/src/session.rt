// Presents the cards of a tray to a pool, and judges it.
ghost use Rattle.std.specs.Prelude.{◌≡◌, ◌+◌, ◌<◌, ◌≤◌, List, [], ◌++◌, length};
ghost use Rattle.pools.specs.Pools.{Frame};
ghost use Rattle.pools.specs.Sessions.{none_yet, present, step, refuses_card};
ghost use Rattle.trays.specs.Answers.{Reading};
ghost use Rattle.trays.specs.Layout.{Placed, Ending, card_size};
ghost use Rattle.reports.specs.Runs.{Concludes, Judges, card_in, list_after, told, turned_by, turned_from};
ghost use Rattle.reports.specs.Steps.{CardsToCome, PresentsTo};

use crate::opening::part;
use crate::report::{Judged, MOST_TRAY_CARDS, RefusedCard, Stop};
use arrayvec::ArrayVec;
use fields::Field;
use pools::pool::Pool;
use trays::card::card_of;
use trays::item::Item;
use trays::reader::TrayReader;

// A pool, and the cards that it turned away.
#[derive(Drop)]
pub(crate) struct Session<F: Field> {
    pub(crate) pool: Pool<F>,
    pub(crate) refused: ArrayVec<RefusedCard, MOST_TRAY_CARDS>,
}

impl<F: Field> Session<F> {
    // Presents the card at an index, which counts from 0; a refusal is kept, and stops nothing.
    fn present(&mut self, index: u8, bytes: &[u8], offset: usize)
        requires long { length bytes.now ≡ card_size self.old.pool.words }
        requires room { (length self.old.refused.items < 255) × (index < 255) }
        ensures list { self.new.pool.list ≡ step (F.arithmetic self.old.pool.field) self.old.pool.policy self.old.pool.words self.old.pool.list (present (card_in self.old.pool.words bytes.now)) }
        ensures frame { Frame self.old.pool self.new.pool }
        ensures refusals { turned_by self.new.refused.items ≡ turned_by self.old.refused.items ++ told (index + 1) offset (refuses_card (F.arithmetic self.old.pool.field) self.old.pool.policy self.old.pool.words self.old.pool.list.held (card_in self.old.pool.words bytes.now)) }
        ensures counted { length self.new.refused.items ≤ length self.old.refused.items + 1 }
    {
        let words = self.pool.words().get();
        let Some(card) = card_of(bytes, words) else {
            unreachable()
        };
        let values = card.values;
        let presented = self
            .pool
            .present(card.level, card.id, &values[..words as usize]);
        if let Err(refusal) = presented {
            let turned_away = RefusedCard {
                ordinal: index + 1,
                offset,
                refusal,
            };
            self.refused.push(turned_away);
        }
    }

    // What is said of the cards that are to come stands here, in `run` and in `run_cards`, each time of another state: a definition
    // would take all of that state's parts.
    //
    // Presents the cards that are to come, in order, up to the end or a fault. They are counted, since no list of them is there.
    pub(crate) fn present_all(&mut self, reader: &mut TrayReader, cards: u8) -> Result<(), Stop>
        requires fresh { (self.old.pool.list ≡ none_yet) × (self.old.refused.items ≡ []) }
        requires coming { CardsToCome reader.old self.old.pool.words cards }
        ensures frame { Frame self.old.pool self.new.pool }
        ensures all { (ps : List Placed) (e : Ending) → Reading reader.old ps e → (turned_by self.new.refused.items ≡ turned_from (F.arithmetic self.old.pool.field) self.old.pool.policy self.old.pool.words [] ps) × (self.new.pool.list ≡ list_after (F.arithmetic self.old.pool.field) self.old.pool.policy self.old.pool.words ps) × PresentsTo result e }
    {
        for i in 0..cards {
            let Item::Card { bytes, offset } = part(reader)? else {
                unreachable()
            };
            self.present(i, bytes, offset);
        }
        let None = reader.next()? else { unreachable() };
        Ok(())
    }

    // The counts and the verdict.
    fn judged(&self) -> Judged
        ensures { Judges (F.arithmetic self.now.pool.field) self.now.pool.policy self.now.pool.words self.now.pool.list result }
    {
        Judged {
            held: self.pool.held(),
            turned: self.pool.turned_away(),
            verdict: self.pool.verdict(),
        }
    }

    // Presents the cards that are to come, and judges them at the end.
    pub(crate) fn run(&mut self, reader: &mut TrayReader, cards: u8) -> Result<Judged, Stop>
        requires fresh { (self.old.pool.list ≡ none_yet) × (self.old.refused.items ≡ []) }
        requires coming { CardsToCome reader.old self.old.pool.words cards }
        ensures refusals { (ps : List Placed) (e : Ending) → Reading reader.old ps e → turned_by self.new.refused.items ≡ turned_from (F.arithmetic self.old.pool.field) self.old.pool.policy self.old.pool.words [] ps }
        ensures concludes { (ps : List Placed) (e : Ending) → Reading reader.old ps e → Concludes (F.arithmetic self.old.pool.field) self.old.pool.policy self.old.pool.words ps e result }
    {
        self.present_all(reader, cards)?;
        Ok(self.judged())
    }
}
