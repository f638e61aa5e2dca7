// What the program prints of an answer.
ghost use Rattle.std.specs.Prelude.{◌≡◌, false, is_ok, Err};
ghost use Rattle.refusal.specs.declared.Refusal.TheVariants.{OutOfMemory};

use super::line::Line;
use refusal::Refusal;

// Prints the listing of a line, or its refusal. Want of memory has no number: it is an error, and prints nothing.
pub fn print_answer(rt: &HostRuntime, answer: Result<Line, Refusal>) -> anyhow::Result<()>
    ensures { answer ≡ Err OutOfMemory → is_ok result ≡ false }
{
    match answer {
        Ok(line) => println!(rt; "{line}")?,
        Err(Refusal::OutOfMemory) => return Err(Refusal::OutOfMemory.into()),
        Err(refusal) => println!(rt; "{refusal}")?,
    }
    Ok(())
}
