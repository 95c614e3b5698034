// The values on a card, which are derivatives of the polynomials that a key's words are hidden in, and by what a value
// multiplies each coefficient. The two go the same way over the places, and are no plainer as one: the first sums and has no
// list of multipliers to keep.
ghost use Rattle.std.specs.Prelude.{◌≡◌, ◌+◌, ◌*◌, ◌≤◌, length, slice_index};
ghost use Rattle.sharing.specs.Cards.{derivative, row, top, order};
ghost use Rattle.sharing.specs.Multipliers.{MultipliesTo};

use crate::MOST_COEFFICIENTS;
use crate::factors::Factors;
use crate::policy::Policy;
use fields::Field;

// The derivative of an order, at an id, of polynomials with `top` coefficients.
#[derive(Clone, Copy)]
pub(crate) struct Derivative {
    top: usize,
    order: usize,
    id: u32,
    ghost ordered: { order ≤ top },
    ghost few: { top ≤ 32 },
}

impl Derivative {
    // The derivative on a card. A level that the policy has not would have the highest order: an answer for every level is
    // plainer than an option, which `issue` has no use for.
    pub(crate) fn on_card(policy: &Policy, level: u8, id: u32) -> Derivative
        ensures { (result.top ≡ top policy.now) × ((result.order ≡ order policy.now level) × (result.id ≡ id)) }
    {
        let top = policy.top();
        let order = policy.order(level).unwrap_or(top);
        Derivative {
            top: top as usize,
            order: order as usize,
            id,
        }
    }

    // The derivative of the word with these coefficients: the power of the id grows from term to term.
    fn of_word<F: Field>(&self, factors: &Factors<F>, coefficients: &[u32]) -> u32
        requires { length coefficients.now ≡ self.now.top }
        ensures { result ≡ derivative (F.arithmetic factors.now.field.now) self.now.top self.now.order self.now.id (λ i. slice_index coefficients.now i) }
    {
        let field = factors.field;
        let mut sum = 0;
        let mut power = 1;
        // No plainer over the coefficients: the place is a number in the sum too.
        for i in self.order..self.top {
            let term = field.multiply(factors.falling(i, self.order), coefficients[i]);
            sum = field.add(sum, field.multiply(term, power));
            power = field.multiply(power, self.id);
        }
        sum
    }

    // Writes the value of every word: those of word j begin at j × top.
    pub(crate) fn write_values<F: Field>(&self, field: &F, coefficients: &[u32], values: &mut [u32])
        requires { (length values.old ≤ 16) × (length coefficients.now ≡ length values.old * self.now.top) }
        ensures { values.new ≡ row (length values.old) (λ j. derivative (F.arithmetic field.now) self.now.top self.now.order self.now.id (λ i. slice_index coefficients.now (j * self.now.top + i))) }
    {
        let factors = Factors::of(field);
        for (j, value) in values.iter_mut().enumerate() {
            let start = j * self.top;
            *value = self.of_word(&factors, &coefficients[start..start + self.top]);
        }
    }

    // By what each coefficient of a word is multiplied: nothing below the order, then the factor in front times a power of
    // the id.
    pub(crate) fn multipliers<F: Field>(&self, field: &F) -> [u32; MOST_COEFFICIENTS]
        ensures { MultipliesTo (F.arithmetic field.now) self.now.top self.now.order self.now.id result }
    {
        let factors = Factors::of(field);
        let mut multipliers = [0; MOST_COEFFICIENTS];
        let mut power = 1;
        // No plainer over a part of the multipliers: the place is a number in each of them too.
        for i in self.order..self.top {
            multipliers[i] = field.multiply(factors.falling(i, self.order), power);
            power = field.multiply(power, self.id);
        }
        multipliers
    }
}
