// The theorems on verdicts, sessions and cards, as promises of calls.
ghost use Rattle.std.specs.Prelude.{◌≡◌, true};
ghost use Rattle.pools.specs.Examples.{WorkedCases};
ghost use Rattle.pools.specs.Stands.{OneVerdictIsRight, OneRunIsRight, HeldCardsAreOrderly, CardsCarryDerivatives};

// Over every field that keeps the laws: of any held cards one verdict is right, and no other; of any session one list of
// answers is; whatever the calls, held cards are few, fit and differ in their ids; and a card carries a formal derivative.
pub fn theorems_stand() -> bool
    ensures one_verdict { OneVerdictIsRight }
    ensures one_run { OneRunIsRight }
    ensures orderly { HeldCardsAreOrderly }
    ensures derivatives { CardsCarryDerivatives }
    ensures answer { result ≡ true }
{
    theorems();
    true
}

// The worked cases hold of the definitions.
pub fn cases_stand() -> bool
    ensures cases { WorkedCases }
    ensures answer { result ≡ true }
{
    cases();
    true
}

// The promises hang on calls, so that code without them is refused.
fn theorems()
    ensures one_verdict { OneVerdictIsRight }
    ensures one_run { OneRunIsRight }
    ensures orderly { HeldCardsAreOrderly }
    ensures derivatives { CardsCarryDerivatives }
{}

#[tactic(auto, using(crate::proofs::Examples::worked_cases))]
fn cases()
    ensures { WorkedCases }
{}
