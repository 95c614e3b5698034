// Judges what the held cards say of the key: each card is a linear equation in the coefficients, and the key's words are
// what a linear form gives, so the verdict is what the equations say of the form.
ghost use Rattle.std.specs.Prelude.{◌≤◌, length};
ghost use Rattle.pools.specs.Equations.{Says, AllSay, ReadsKey, Padded, verdict_by};
ghost use Rattle.pools.specs.Judging.{told, Kept, verdict_of};
ghost use Rattle.pools.specs.Pools.{Answers};
ghost use Rattle.pools.specs.Sessions.{judge};
ghost use Rattle.pools.specs.Verdicts.{Right};

use super::{MOST_CARDS, Pool};
use crate::card::HeldCard;
use crate::judgement::Judgement;
use crate::key::Key;
use arrayvec::ArrayVec;
use fields::Field;
use linear::decide::{Decision, decide};
use linear::equation::{Equation, Form, MOST_RIGHT_SIDES};
use linear::shape::Shape;
use sharing::multipliers::multipliers;
use sharing::refusal::Refusal;

// The form that reads the last of the first `top` places, where a key's word stands.
fn key_form(top: usize) -> Form
    requires { (1 ≤ top) × (top ≤ 32) }
    ensures { ReadsKey top result }
{
    let mut form = Form::default();
    form.coefficients[top - 1] = 1;
    form
}

impl<F: Field> Pool<F> {
    // The equation that a card is.
    fn equation(&self, card: &HeldCard) -> Equation
        ensures { Says (F.arithmetic self.now.field) self.now.policy self.now.words card.now result }
    {
        let mut right_sides = [0; MOST_RIGHT_SIDES];
        right_sides[..card.values.len()].copy_from_slice(&card.values);
        Equation {
            coefficients: multipliers(&self.field, self.policy, card.level, card.id),
            right_sides,
        }
    }

    // The equations of the held cards.
    fn equations(&self) -> ArrayVec<Equation, MOST_CARDS>
        ensures { AllSay (F.arithmetic self.now.field) self.now.policy self.now.words self.now.list.held result.items }
    {
        let mut equations = ArrayVec::new();
        for card in self.cards.as_slice() {
            equations.push(self.equation(card));
        }
        equations
    }

    // What the equations of the held cards say of the key's words.
    fn decision(&self) -> Decision
        ensures right { Right (F.arithmetic self.now.field) self.now.policy self.now.words self.now.list.held (verdict_by self.now.words result) }
        ensures padded { Padded self.now.words result }
    {
        let top = self.policy.top();
        let Some(shape) = Shape::new(top, self.words.get()) else {
            unreachable()
        };
        let equations = self.equations();
        let form = key_form(top as usize);
        decide(&self.field, shape, &equations, &form)
    }

    // What the held cards say of the key.
    pub fn verdict(&self) -> Judgement<Key>
        ensures { Right (F.arithmetic self.now.field) self.now.policy self.now.words self.now.list.held (verdict_of result) }
    {
        // A decision is of any equations, and a judgement of a key: the third is read off anew.
        match self.decision() {
            Decision::Contradictory => Judgement::Contradictory,
            Decision::Open => Judgement::Open,
            Decision::Decided(words) => Judgement::Key(Key {
                words,
                count: self.words,
            }),
        }
    }

    // Says what the held cards tell of the key, and writes it into the buffer where there is one: a buffer of another length
    // has a refusal of its own, so the key stands beside the judgement here.
    #[tactic(auto, using(crate::proofs::Verdicts::right_long))]
    pub fn judge(&self, key: &mut [u32]) -> Result<Judgement<()>, Refusal>
        ensures answer { Answers F.arithmetic self.now (judge (length key.old)) (told result key.new) }
        ensures buffer { Kept result key.old key.new }
    {
        if key.len() != self.words.get() as usize {
            return Err(Refusal::WrongBufferLength);
        }
        match self.verdict() {
            Judgement::Contradictory => Ok(Judgement::Contradictory),
            Judgement::Open => Ok(Judgement::Open),
            Judgement::Key(found) => {
                key.copy_from_slice(found.as_slice());
                Ok(Judgement::Key(()))
            }
        }
    }
}
