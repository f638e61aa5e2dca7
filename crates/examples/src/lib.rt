// The worked examples: small cases, shown of the definitions, and asked of the code.
#![tactic(auto)]

ghost use Rattle.std.specs.Prelude.{◌≡◌};
ghost use Rattle.examples.specs.Worked.{WorkedExamples};
ghost use Rattle.scorer.specs.Window.{window_verdict};

use refusal::Refusal;
use scorer::{Scorer, check_window};

// What the check of two windows from column 1 answers, of two columns and of three.
#[derive(Clone, Copy)]
pub struct FromColumnOne {
    pub two: Result<(), Refusal>,
    pub three: Result<(), Refusal>,
}

// Checks the two windows over a line; and the examples hold, whatever the line.
pub fn windows_from_one<S: Scorer>(line: &S) -> FromColumnOne
    ensures two { result.two ≡ window_verdict (S.Scorer.meaning line.now).width 1 2 }
    ensures three { result.three ≡ window_verdict (S.Scorer.meaning line.now).width 1 3 }
    ensures examples { WorkedExamples }
{
    worked_examples();
    FromColumnOne {
        two: check_window(line, 1, 2),
        three: check_window(line, 1, 3),
    }
}

// Does nothing: its contract is the examples.
fn worked_examples()
    ensures { WorkedExamples }
{}
