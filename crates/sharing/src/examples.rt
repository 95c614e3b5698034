// Worked examples of the definitions, as the promise of a call.
ghost use Rattle.std.specs.Prelude.{◌≡◌, true};
ghost use Rattle.sharing.specs.Examples.{WorkedExamples};

// The worked examples hold of the definitions.
pub fn examples_stand() -> bool
    ensures examples { WorkedExamples }
    ensures answer { result ≡ true }
{
    examples();
    true
}

// The promise hangs on a call, so that code without it is refused.
fn examples()
    ensures { WorkedExamples }
{}
