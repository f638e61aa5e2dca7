// A face and a photograph of pseudo-random pixels, as large as the limits allow in height, levels and box width.
use checks::Noise;
use std::alloc::{AllocError, Global};

const TEMPLATES: u8 = 16;

const COLUMNS: usize = 2_048;

const WEIGHTS: [i16; 8] = [7, -3, 4, -1, -6, 2, -9, 3];

// 32 pseudo-random bits, each from the high part of a number of its own pair.
fn bits(noise: &mut Noise) -> u32 {
    let low = noise.number() >> 16;
    let high = noise.number() & 0xFFFF_0000;
    low | high
}

// The words of four levels of one column: each pixel belongs to at most one of them.
fn column(noise: &mut Noise) -> [u32; 4] {
    let a = bits(noise);
    let b = bits(noise);
    [a & b, a & !b, !a & b, !a & !b]
}

// Sixteen templates of setwidth 20, with boxes of 32 columns and 32 rows in four levels.
pub(crate) fn make_face(heap: Global) -> Result<Vec<u8>, AllocError> {
    let mut bytes = [TEMPLATES, 0, 4, 32].to_vec(heap)?;
    bytes.extend(WEIGHTS.iter().flat_map(|weight| weight.to_le_bytes()))?;
    bytes.extend((0..TEMPLATES).flat_map(|t| [b'A' + t, 20, 32, 0, 0, 0, 0, 0]))?;
    let mut noise = Noise::new(1);
    let words = (0..usize::from(TEMPLATES) * 32).flat_map(move |_| column(&mut noise));
    bytes.extend(words.flat_map(|word| word.to_le_bytes()))?;
    Ok(bytes)
}

// 2,048 columns in 36 rows.
pub(crate) fn make_photograph(heap: Global) -> Result<Vec<u8>, AllocError> {
    let mut bytes = b"P4\n2048 36\n".to_vec(heap)?;
    let numbers = Noise::new(7).take(COLUMNS / 8 * 36);
    bytes.extend(numbers.map(|number| number.to_be_bytes()[0]))?;
    Ok(bytes)
}
