// Runs a whole tray.
ghost use Rattle.std.specs.Prelude.{◌≡◌, List, [], length, Some};
ghost use Rattle.trays.specs.Answers.{Reading};
ghost use Rattle.trays.specs.Fields.{field_number};
ghost use Rattle.trays.specs.Layout.{Placed, Ending, at_field, Reads};
ghost use Rattle.reports.specs.Runs.{Concludes, Reports, turned_by, turned_from};
ghost use Rattle.reports.specs.Steps.{CardsToCome};

use crate::opening::{Opening, open};
use crate::report::{Header, TrayReport};
use crate::session::Session;
use arrayvec::ArrayVec;
use fields::Field;
use fields::byte::ByteField;
use fields::prime::WIDE_FIELD;
use pools::pool::Pool;
use trays::field::TrayField;
use trays::reader::TrayReader;

// Runs the cards of a tray over a field.
fn run_cards<F: Field + Drop>(field: F, opening: Opening, reader: &mut TrayReader) -> TrayReport
    requires { CardsToCome reader.old opening.words opening.cards }
    ensures header { result.header ≡ Some (record { field = field_number opening.field; levels = length opening.policy; words = opening.words; cards = opening.cards }) }
    ensures refusals { (ps : List Placed) (e : Ending) → Reading reader.old ps e → turned_by result.refused.items ≡ turned_from (F.arithmetic field) opening.policy opening.words [] ps }
    ensures concludes { (ps : List Placed) (e : Ending) → Reading reader.old ps e → Concludes (F.arithmetic field) opening.policy opening.words ps e result.conclusion }
{
    let policy = opening.policy;
    let words = opening.words;
    let header = Header {
        field: opening.field.number(),
        levels: policy.levels(),
        words: words.get(),
        cards: opening.cards,
    };
    let mut session = Session {
        pool: Pool::new(field, policy, words),
        refused: ArrayVec::new(),
    };
    let conclusion = session.run(reader, opening.cards);
    // Taken, and not moved: a session is dropped whole.
    TrayReport {
        header: Some(header),
        refused: session.refused.take(),
        conclusion,
    }
}

// Reads the tray in `bytes`, presents its cards to a pool and judges them, up to the end or to what stops it.
pub fn run_tray(bytes: &[u8]) -> TrayReport
    ensures { (parts : List Placed) (e : Ending) → Reads at_field 0 bytes.now parts e → Reports parts e result }
{
    let mut reader = TrayReader::new(bytes);
    match open(&mut reader) {
        Ok(opening) => match opening.field {
            TrayField::Bytes => run_cards(ByteField, opening, &mut reader),
            TrayField::Wide => run_cards(WIDE_FIELD, opening, &mut reader),
        },
        Err(stop) => TrayReport {
            header: None,
            refused: ArrayVec::new(),
            conclusion: Err(stop),
        },
    }
}
