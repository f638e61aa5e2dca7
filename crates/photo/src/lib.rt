// A photograph of one line, held as the bytes of its raw pbm file.
#![tactic(auto)]

ghost use Rattle.std.specs.Prelude.{◌≡◌, ℕ, ◌+◌, ◌*◌, ◌<◌, ◌≤◌, true, List, length, is_ok, Ok};
ghost use Rattle.photo.specs.Laid.{PhotographLaid, TellsExactly};
ghost use Rattle.photo.specs.Pixels.{black_at, PaddedAlike};
ghost use Rattle.photo.specs.Verdict.{stride, checks_verdict, photo_verdict, header_of};

mod scan;

use octets::Number;
use refusal::{Refusal, ensure};
pub use scan::Header;
use scan::scan_header;

// The bytes of the largest photograph.
pub const LARGEST: usize = 16_384;

// A photograph that was checked.
#[derive(Clone, Copy)]
pub struct Photograph<'a> {
    bytes: &'a [u8],
    rows: usize,
    header: Header,
    ghost lawful: { is_ok (photo_verdict bytes.now rows) ≡ true },
    ghost told: { header ≡ header_of bytes.now rows },
}

impl<'a> Photograph<'a> {
    // The photograph that the bytes hold, with the header that `check` told of them.
    pub fn new(bytes: &'a [u8], rows: usize, header: Header) -> Photograph<'a>
        requires { photo_verdict bytes.now rows ≡ Ok header }
        ensures bytes { result.bytes.now ≡ bytes.now }
        ensures rows { result.rows ≡ rows }
        ensures header { header_of bytes.now rows ≡ header }
    {
        header_law(bytes, rows, header);
        Photograph {
            bytes,
            rows,
            header,
        }
    }

    // How many columns there are.
    pub fn width(&self) -> usize
        ensures value { result ≡ (header_of self.now.bytes.now self.now.rows).width }
        ensures within { (1 ≤ result) × (result ≤ 2048) }
    {
        laid(self.bytes, self.rows);
        self.header.width
    }

    // How many rows there are.
    pub fn rows(&self) -> usize
        ensures { result ≡ self.now.rows }
    {
        self.rows
    }

    // Whether the pixel in column `x` of row `y` is black; beyond the photograph none is.
    pub fn black(&self, x: usize, y: usize) -> bool
        ensures value { result ≡ black_at self.now.bytes.now self.now.rows x y }
        ensures padding { (other : List ℕ) → PaddedAlike self.now.rows self.now.bytes.now other → result ≡ black_at other self.now.rows x y }
    {
        padding_law(self.bytes, self.rows, x, y);
        if x >= self.header.width || y >= self.rows {
            return false;
        }
        let byte = u8::at(self.bytes, self.row_start(y) + x / 8);
        (byte >> (7 - x % 8)) % 2 == 1
    }

    // The first byte of row `y` in the raster.
    fn row_start(&self, y: usize) -> usize
        requires { y < self.now.rows }
        ensures value { result ≡ self.now.header.raster + y * stride self.now.header.width }
        ensures bound { result ≤ 16384 }
    {
        laid(self.bytes, self.rows);
        self.header.raster + y * stride(self.header.width)
    }
}

// Whether the bytes are a photograph of so many rows, with its header, or what refuses them.
pub fn check(bytes: &[u8], rows: usize) -> Result<Header, Refusal>
    ensures verdict { result ≡ photo_verdict bytes.now rows }
    ensures exactly { TellsExactly bytes.now rows result }
{
    layout_law(bytes, rows);
    first_refusal(bytes, rows)
}

// The header, or the first refusal in the order of the checks.
fn first_refusal(bytes: &[u8], rows: usize) -> Result<Header, Refusal>
    ensures { result ≡ checks_verdict bytes.now rows }
{
    let length = bytes.len();
    let sized = (2..=LARGEST).contains(&length);
    let kind = sized && u8::at(bytes, 0) == b'P' && u8::at(bytes, 1) == b'4';
    ensure(kind, Refusal::PhotographKind)?;
    let scan = scan_header(bytes)?;
    let width = scan.width.value;
    ensure(
        (1..=2_048).contains(&width),
        Refusal::PhotographMeasure {
            byte: scan.width.start,
        },
    )?;
    ensure(
        scan.height.value == rows,
        Refusal::PhotographMeasure {
            byte: scan.height.start,
        },
    )?;
    let raster = scan.raster;
    ensure(
        length - raster == raster_size(rows, width),
        Refusal::PhotographRaster { byte: raster },
    )?;
    Ok(Header { width, raster })
}

// Does nothing: its contract is the law that the header which was told is that of the photograph.
fn header_law(bytes: &[u8], rows: usize, header: Header)
    requires { photo_verdict bytes.now rows ≡ Ok header }
    ensures accepted { is_ok (photo_verdict bytes.now rows) ≡ true }
    ensures same { header_of bytes.now rows ≡ header }
{}

// Does nothing: its contract is the law that a photograph which is refused nothing has its layout.
fn laid(bytes: &[u8], rows: usize)
    requires { is_ok (photo_verdict bytes.now rows) ≡ true }
    ensures { PhotographLaid bytes.now rows (header_of bytes.now rows) }
{}

// Does nothing: its contract is the law that padding bits do not matter.
fn padding_law(bytes: &[u8], rows: usize, x: usize, y: usize)
    ensures { (other : List ℕ) → PaddedAlike rows bytes.now other → black_at bytes.now rows x y ≡ black_at other rows x y }
{}

// Does nothing: its contract is the law that a header is told exactly if the layout holds with it.
fn layout_law(bytes: &[u8], rows: usize)
    ensures named { checks_verdict bytes.now rows ≡ photo_verdict bytes.now rows }
    ensures exactly { TellsExactly bytes.now rows (photo_verdict bytes.now rows) }
{}

// The bytes of so many rows of so many columns.
fn raster_size(rows: usize, width: usize) -> usize
    requires { (rows < 100000) × (width ≤ 2048) }
    ensures { result ≡ rows * stride width }
{
    rows * stride(width)
}

// The bytes of a row of so many columns.
fn stride(width: usize) -> usize
    requires { width ≤ 2048 }
    ensures { result ≡ stride width }
{
    width.div_ceil(8)
}
