// What helpers of tests compare, and pseudo-random numbers. Where a comparison fails, the helper returns the test's failure,
// and no process ends.
#![tactic(auto)]

ghost use Rattle.std.specs.Prelude.{◌≡◌, is_ok, Ok, IfOk};
ghost use Rattle.std.specs.Result.{result_ok};
ghost use Rattle.checks.specs.Told.{refused_at};

mod noise;

pub use noise::Noise;
use refusal::Refusal;
use std::fmt::Debug;
use std::test::Fail;

// Fails where the condition does not hold.
pub fn check(holds: bool) -> Result<(), Fail>
    ensures { is_ok result ≡ holds }
{
    if holds {
        Ok(())
    } else {
        Err(Fail::new("what is checked does not hold"))
    }
}

// Fails where what was found is not what was wanted, and shows both.
pub fn check_eq<T: PartialEq + Debug + Drop>(found: T, wanted: T) -> Result<(), Fail>
    ensures { is_ok result ≡ T.eq found wanted }
{
    if found == wanted {
        Ok(())
    } else {
        Err(Fail::new(format_args!("found {found:?}, wanted {wanted:?}")))
    }
}

// The number and place of what is refused, or none where nothing is. Fails at want of memory, which has no number.
// Tests compare these two, and not a refusal whole by `==`, since number and place are what the rules speak of.
pub fn told<T: Drop>(answer: Result<T, Refusal>) -> Result<Option<(u8, usize)>, Fail>
    ensures { result_ok result ≡ refused_at answer }
{
    let Err(refusal) = answer else {
        return Ok(None);
    };
    let Some(number) = refusal.number() else {
        return Err(Fail::new("memory is wanting"));
    };
    Ok(Some((number, refusal.place())))
}

// Hands on what is answered. Fails where something is refused, and shows the refusal.
pub fn lawful<T: Drop>(answer: Result<T, Refusal>) -> Result<T, Fail>
    ensures value { IfOk result (λ x. answer ≡ Ok x) }
    ensures exactly { is_ok result ≡ is_ok answer }
{
    answer.map_err(|refusal| Fail::new(format_args!("{refusal}")))
}
