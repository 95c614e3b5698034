// The theorems on decisions, as promises of a call.
ghost use Rattle.std.specs.Prelude.{◌≡◌, true};
ghost use Rattle.linear.specs.Examples.{WorkedExamples};
ghost use Rattle.linear.specs.Solutions.{OneDecision, OrderDoesNotMatter};

// Over every field that keeps the laws, of any equations and any form one decision is right, and no other; neither the
// order of the equations nor how often one is given changes it. Worked examples show what the words mean.
#[tactic(auto, using(crate::proofs::Decisions::one_decision, crate::proofs::Decisions::decides_order, crate::proofs::Examples::worked_examples))]
pub fn theorems_stand() -> bool
    ensures one_decision { OneDecision }
    ensures order { OrderDoesNotMatter }
    ensures examples { WorkedExamples }
    ensures answer { result ≡ true }
{
    true
}
