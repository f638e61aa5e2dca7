// The scan of a photograph's header, one part after the other.
ghost use Rattle.std.specs.Prelude.{◌≡◌, ℕ, Bool, ◌+◌, ◌<◌, ◌≤◌, true, length, IfOk};
ghost use Rattle.std.specs.Fn.{CalledAt};
ghost use Rattle.std.specs.List.{AllByRecursion};
ghost use Rattle.photo.specs.Header.{white, digit, run_end, decimal, scan_white, scan_number, scan_one_white, scan_header};

use refusal::{Refusal, ensure};

// A number of the header, its first digit, and the byte after its last.
#[derive(Clone, Copy)]
pub(crate) struct Number {
    pub(crate) value: usize,
    pub(crate) start: usize,
    pub(crate) end: usize,
}

// What the header tells, and the first byte of the raster.
#[derive(Clone, Copy)]
pub(crate) struct Scan {
    pub(crate) width: Number,
    pub(crate) height: Number,
    pub(crate) raster: usize,
}

// What the check of a photograph tells: its columns, and the first byte of its raster.
#[derive(Clone, Copy)]
pub struct Header {
    pub width: usize,
    pub raster: usize,
}

// Whether a byte is blank, tab, line feed or carriage return.
fn is_white(byte: u8) -> bool
    ensures { result ≡ white byte }
{
    matches!(byte, b' ' | b'\t' | b'\n' | b'\r')
}

// Whether a byte is a digit.
fn is_digit(byte: u8) -> bool
    ensures { result ≡ digit byte }
{
    byte.is_ascii_digit()
}

// The first byte from `from` on that does not belong, or the end.
fn run_end<T: FnMut(&&u8) -> bool + Drop>(bytes: &[u8], from: usize, belongs: T) -> usize
    requires from { from ≤ length bytes.now }
    requires callable { (state : T) (x : _) → T.pre state x }
    ensures value { (test : ℕ → Bool) → ((x : _) (told : Bool) (after : T) → CalledAt T.FnMut belongs x told after → (after ≡ belongs) × (told ≡ test x.now)) → result ≡ run_end test bytes.now from }
    ensures within { (from ≤ result) × (result ≤ length bytes.now) }
{
    let rest = &bytes[from..];
    from + rest.iter().take_while(belongs).count()
}

// The number that at most five digits write. By a loop: with `fold`, the proof of what its closure needs at
// each step did not close.
fn decimal_of(digits: &[u8]) -> usize
    requires { (length digits.now ≤ 5) × (AllByRecursion (λ c. digit c ≡ true) digits.now) }
    ensures value { result ≡ decimal digits.now }
    ensures bound { result < 100000 }
{
    let mut value = 0;
    for d in digits {
        value = value * 10 + usize::from(d.saturating_sub(b'0'));
    }
    value
}

// White bytes from `from` on, at least one, and where they end.
fn scan_white_run(bytes: &[u8], from: usize) -> Result<usize, Refusal>
    requires { from ≤ length bytes.now }
    ensures value { result ≡ scan_white bytes.now from }
    ensures within { IfOk result (λ end. end ≤ length bytes.now) }
{
    let end = run_end(bytes, from, |b| is_white(**b));
    ensure(from < end, Refusal::PhotographHeader { byte: from })?;
    Ok(end)
}

// One to five digits from `from` on.
fn scan_digits(bytes: &[u8], from: usize) -> Result<Number, Refusal>
    requires { from ≤ length bytes.now }
    ensures value { result ≡ scan_number bytes.now from }
    ensures within { IfOk result (λ n. (n.end ≤ length bytes.now) × (n.value < 100000)) }
{
    let end = run_end(bytes, from, |b| is_digit(**b));
    ensure(from < end, Refusal::PhotographHeader { byte: from })?;
    ensure(
        end - from <= 5,
        Refusal::PhotographHeader { byte: from + 5 },
    )?;
    let value = decimal_of(&bytes[from..end]);
    Ok(Number {
        value,
        start: from,
        end,
    })
}

// One white byte at `at`, and the byte after it.
fn scan_one(bytes: &[u8], at: usize) -> Result<usize, Refusal>
    requires { at ≤ length bytes.now }
    ensures value { result ≡ scan_one_white bytes.now at }
    ensures within { IfOk result (λ end. end ≤ length bytes.now) }
{
    let there = bytes.get(at).is_some_and(|b| is_white(*b));
    ensure(there, Refusal::PhotographHeader { byte: at })?;
    Ok(at + 1)
}

// White bytes, width, white bytes, height, one white byte; the rest is raster.
pub(crate) fn scan_header(bytes: &[u8]) -> Result<Scan, Refusal>
    requires { 2 ≤ length bytes.now }
    ensures value { result ≡ scan_header bytes.now }
    ensures within { IfOk result (λ s. (s.raster ≤ length bytes.now) × (s.height.value < 100000)) }
{
    let start = scan_white_run(bytes, 2)?;
    let width = scan_digits(bytes, start)?;
    let start = scan_white_run(bytes, width.end)?;
    let height = scan_digits(bytes, start)?;
    let raster = scan_one(bytes, height.end)?;
    Ok(Scan {
        width,
        height,
        raster,
    })
}
