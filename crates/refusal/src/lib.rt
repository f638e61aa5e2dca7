// Every refusal of the decoder: what went wrong, with its number, its place and, for two of them, the template.
#![tactic(auto)]

ghost use Rattle.std.specs.Prelude.{◌≡◌, ℕ, ◌<◌, Bool, Some, IfSome};
ghost use Rattle.refusal.specs.declared.Refusal.TheVariants.{OutOfMemory};
ghost use Rattle.refusal.specs.declared.Refusal.{Refusal};
ghost use Rattle.refusal.specs.First.{ensure as ensured, ensure_each as ensured_each, first_failing, Tells};
ghost use Rattle.refusal.specs.Told.{told, printed};

use std::alloc::AllocError;
use std::error::Error;
use std::fmt;

// Each case is named by what went wrong. A field is the refusal's place, unless it is called `template`.
#[derive(Clone, Copy, Debug, PartialEq, Eq)]
pub enum Refusal {
    // The program: a file that cannot be read.
    FaceUnreadable,
    PhotographUnreadable,
    // A face.
    FaceSize,
    FaceHead { byte: usize },
    FaceTruncated { length: usize },
    FaceLevel { byte: usize },
    FaceTemplate { byte: usize },
    FaceLength { length: usize },
    FaceWord { byte: usize },
    // A photograph.
    PhotographKind,
    PhotographHeader { byte: usize },
    PhotographMeasure { byte: usize },
    PhotographRaster { byte: usize },
    // A sheet.
    SheetTruncated { length: usize },
    SheetHead { byte: usize },
    SheetLength { length: usize },
    SheetSetwidth { byte: usize },
    SheetScore { byte: usize },
    SheetOrder { byte: usize },
    // A window.
    WindowBeyond { first: usize },
    // Opening a search.
    CellsTooFew { needed: usize },
    NoCompletePath { width: usize },
    // A call on a search.
    RadiusTooLarge { radius: usize },
    OtherScorer,
    ExactAboveStanding { column: usize, template: usize },
    NoNode { column: usize, template: usize },
    // A question to a reading.
    NotSettled,
    NoPathNode { number: usize },
    // Want of memory, which has no number.
    OutOfMemory,
}

impl Refusal {
    // The number by which the rules know this refusal, or none for want of memory.
    pub fn number(&self) -> Option<u8>
        ensures { result ≡ (told self.now).number }
    {
        match self {
            Refusal::FaceUnreadable | Refusal::PhotographUnreadable => Some(1),
            Refusal::FaceSize => Some(11),
            Refusal::FaceHead { .. } => Some(12),
            Refusal::FaceTruncated { .. } => Some(13),
            Refusal::FaceLevel { .. } => Some(14),
            Refusal::FaceTemplate { .. } => Some(15),
            Refusal::FaceLength { .. } => Some(16),
            Refusal::FaceWord { .. } => Some(17),
            Refusal::PhotographKind => Some(21),
            Refusal::PhotographHeader { .. } => Some(22),
            Refusal::PhotographMeasure { .. } => Some(23),
            Refusal::PhotographRaster { .. } => Some(24),
            Refusal::SheetTruncated { .. } => Some(31),
            Refusal::SheetHead { .. } => Some(32),
            Refusal::SheetLength { .. } => Some(33),
            Refusal::SheetSetwidth { .. } => Some(34),
            Refusal::SheetScore { .. } => Some(35),
            Refusal::SheetOrder { .. } => Some(36),
            Refusal::WindowBeyond { .. } => Some(41),
            Refusal::CellsTooFew { .. } => Some(51),
            Refusal::NoCompletePath { .. } => Some(52),
            Refusal::RadiusTooLarge { .. } => Some(61),
            Refusal::OtherScorer => Some(62),
            Refusal::ExactAboveStanding { .. } => Some(63),
            Refusal::NoNode { .. } => Some(64),
            Refusal::NotSettled => Some(71),
            Refusal::NoPathNode { .. } => Some(72),
            Refusal::OutOfMemory => None,
        }
    }

    // Where it went wrong.
    pub fn place(&self) -> usize
        ensures { result ≡ (told self.now).place }
    {
        match *self {
            Refusal::FaceUnreadable => 1,
            Refusal::PhotographUnreadable => 2,
            Refusal::FaceHead { byte }
            | Refusal::FaceLevel { byte }
            | Refusal::FaceTemplate { byte }
            | Refusal::FaceWord { byte }
            | Refusal::PhotographHeader { byte }
            | Refusal::PhotographMeasure { byte }
            | Refusal::PhotographRaster { byte }
            | Refusal::SheetHead { byte }
            | Refusal::SheetSetwidth { byte }
            | Refusal::SheetScore { byte }
            | Refusal::SheetOrder { byte } => byte,
            Refusal::FaceTruncated { length }
            | Refusal::FaceLength { length }
            | Refusal::SheetTruncated { length }
            | Refusal::SheetLength { length } => length,
            Refusal::WindowBeyond { first } => first,
            Refusal::CellsTooFew { needed } => needed,
            Refusal::NoCompletePath { width } => width,
            Refusal::RadiusTooLarge { radius } => radius,
            Refusal::ExactAboveStanding { column, .. } | Refusal::NoNode { column, .. } => column,
            Refusal::NoPathNode { number } => number,
            Refusal::FaceSize
            | Refusal::PhotographKind
            | Refusal::OtherScorer
            | Refusal::NotSettled
            | Refusal::OutOfMemory => 0,
        }
    }

    // The template, for the two refusals that tell one.
    pub fn template(&self) -> Option<usize>
        ensures { result ≡ (told self.now).template }
    {
        match *self {
            Refusal::ExactAboveStanding { template, .. } | Refusal::NoNode { template, .. } => Some(
                template,
            ),
            _ => None,
        }
    }
}

// Refuses by `otherwise` where what is asked does not hold.
pub fn ensure(holds: bool, otherwise: Refusal) -> Result<(), Refusal>
    ensures { result ≡ ensured holds otherwise }
{
    if holds { Ok(()) } else { Err(otherwise) }
}

// Refuses by `otherwise` of the first of `n` things that is not lawful, if there is one.
pub fn ensure_each<L: Fn(usize) -> bool, O: Fn(usize) -> Refusal>(
    n: usize,
    lawful: L,
    otherwise: O,
) -> Result<(), Refusal>
    requires lawful { (i : ℕ) → i < n → L.pre lawful i }
    requires otherwise { (i : ℕ) → i < n → O.pre otherwise i }
    ensures { (test : ℕ → Bool) (e : ℕ → Refusal) → Tells n (L.post lawful) test → Tells n (O.post otherwise) e → result ≡ ensured_each n test e }
{
    match first_unlawful(n, lawful) {
        Some(i) => Err(otherwise(i)),
        None => Ok(()),
    }
}

// The first of `n` things that is not lawful. By a loop: of `find`, whose closure calls the one that is given, the proof
// did not close.
fn first_unlawful<L: Fn(usize) -> bool>(n: usize, lawful: L) -> Option<usize>
    requires { (i : ℕ) → i < n → L.pre lawful i }
    ensures value { (test : ℕ → Bool) → Tells n (L.post lawful) test → result ≡ first_failing test 0 n }
    ensures within { IfSome result (λ i. i < n) }
{
    for i in 0..n {
        if !lawful(i) {
            return Some(i);
        }
    }
    None
}

// Want of memory.
impl From<AllocError> for Refusal {
    ghost from_gives = { λ _ r. r ≡ OutOfMemory };

    fn from(_: AllocError) -> Refusal {
        Self::OutOfMemory
    }
}

// What a program prints of a refusal.
impl fmt::Display for Refusal {
    ghost output = { λ e. Some (printed (told e)) };

    fn fmt<W: fmt::Write>(&self, f: &mut fmt::Formatter<W>) -> fmt::Result {
        let Some(number) = self.number() else {
            return f.write_str("out of memory");
        };
        let place = self.place();
        write!(f, "REFUSED {number} {place}")
    }
}

impl Error for Refusal {}
