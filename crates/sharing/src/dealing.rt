// Dealing the cards of a drive. A dealing is opened with a policy and a number of words, loaded with coefficients, issues
// cards, and is ended; each state is a type of its own, so a program that takes them in another order is not compiled.
ghost use Rattle.std.specs.Prelude.{◌≡◌, ◌≤◌, false, length, replicate, MatchResult};
ghost use Rattle.sharing.specs.Cards.{values_of};
ghost use Rattle.sharing.specs.Dealings.{coefficients_of};
ghost use Rattle.sharing.specs.Refusals.{disordered, refused, refuses_loading, refuses_issue};

use crate::derivative::Derivative;
use crate::elements::any_outside;
use crate::policy::Policy;
use crate::refusal::Refusal;
use crate::words::WordCount;
use fields::Field;

// A dealing that has no coefficients yet. A policy and a number of words go together here and in a pool; one value of both
// would be no plainer, since each is made and refused apart, and each call takes them once.
#[derive(Drop)]
pub struct OpenedDealing {
    policy: Policy,
    words: WordCount,
}

// A dealing with its coefficients, which the caller can't touch meanwhile and which are wiped on every way out.
pub struct LoadedDealing<'a> {
    coefficients: &'a mut [u32],
    opened: OpenedDealing,
}

impl OpenedDealing {
    pub fn new(policy: Policy, words: WordCount) -> OpenedDealing
        ensures { (result.policy ≡ policy) × (result.words ≡ words) }
    {
        OpenedDealing { policy, words }
    }

    // Whether the coefficients are fit to be loaded: as many as the policy and the words ask for, and each an element of
    // the field.
    pub fn trial<F: Field>(&self, field: &F, coefficients: &[u32]) -> Result<(), Refusal>
        ensures answer { refused result ≡ refuses_loading (F.arithmetic field.now) self.now.policy self.now.words coefficients.now }
        ensures range { (1 ≤ self.now.words) × (self.now.words ≤ 16) }
        ensures ordered { disordered self.now.policy ≡ false }
    {
        if coefficients.len() != self.words.get() as usize * self.policy.top() as usize {
            return Err(Refusal::WrongCoefficientCount);
        }
        if any_outside(field, coefficients) {
            return Err(Refusal::CoefficientOutsideField);
        }
        Ok(())
    }

    // Takes the coefficients, fit or not; unfit ones are refused at every issue.
    pub fn load<'a>(self, coefficients: &'a mut [u32]) -> LoadedDealing<'a>
        ensures { (result.opened ≡ self) × (result.coefficients ≡ coefficients.entry) }
    {
        LoadedDealing {
            coefficients,
            opened: self,
        }
    }
}

impl LoadedDealing<'_> {
    // Writes the values of the card with this level and id. Callers have the two apart, here and in `multipliers`, so one value
    // of both would be no plainer.
    pub fn issue<F: Field>(
        &self,
        field: &F,
        level: u8,
        id: u32,
        values: &mut [u32],
    ) -> Result<(), Refusal>
        ensures answer { refused result ≡ refuses_issue (F.arithmetic field.now) self.now.opened.policy self.now.opened.words (coefficients_of self.now) level id (length values.old) }
        ensures values { MatchResult result (λ _. values.new ≡ values_of (F.arithmetic field.now) self.now.opened.policy self.now.opened.words (coefficients_of self.now) level id) (λ _. values.new ≡ values.old) }
        ensures range { (1 ≤ self.now.opened.words) × (self.now.opened.words ≤ 16) }
        ensures ordered { disordered self.now.opened.policy ≡ false }
    {
        let loaded: &[u32] = self.coefficients;
        self.opened.trial(field, loaded)?;
        if values.len() != self.opened.words.get() as usize {
            return Err(Refusal::WrongBufferLength);
        }
        if id == 0 || id >= field.size() {
            return Err(Refusal::WrongId);
        }
        if level >= self.opened.policy.levels() {
            return Err(Refusal::NoSuchLevel);
        }
        let derivative = Derivative::on_card(&self.opened.policy, level, id);
        derivative.write_values(field, loaded, values);
        Ok(())
    }

    // Ends the dealing; its coefficients are wiped.
    pub fn end(self)
        ensures { self.exit.0.now ≡ replicate (length self.entry.coefficients.now) 0 }
    {
        let LoadedDealing {
            coefficients,
            opened: _,
        } = self;
        coefficients.fill(0);
    }
}

impl Drop for LoadedDealing<'_> {
    // A dealing that is let go ends as well. Tried, and refused: `end` as no more than letting go, whose promise names what
    // stands in the buffer afterwards.
    fn drop(self)
        ensures { self.exit.0.now ≡ replicate (length self.entry.coefficients.now) 0 }
    {
        self.coefficients.fill(0);
        let LoadedDealing {
            coefficients: _,
            opened: _,
        } = self;
    }
}
