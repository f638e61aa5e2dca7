// Numbers as the files hold them: low byte first, signed ones in two's complement.
#![tactic(auto, using(crate::proofs::Chunks::chunk_index, std::proofs::lemmas::Bool::Decides::nat_tests), unfolding(crate::specs::Numbers::byte_at, crate::specs::Numbers::u16_at, crate::specs::Numbers::u32_at))]

ghost use Rattle.std.specs.Prelude.{◌≡◌, ℕ, ◌+◌, List, length, nat_le};
ghost use Rattle.std.specs.List.{between};
ghost use Rattle.octets.specs.Absent.{present};
ghost use Rattle.octets.specs.Numbers.{byte_at, u16_at, u32_at, i16_at, i32_at};

// A number that a file holds.
pub trait Number: Copy {
    ghost number_at: { List ℕ → ℕ → Self };

    // The number whose first byte is the one at `at`, or 0 where the bytes end before it does.
    fn at(bytes: &[u8], at: usize) -> Self
        ensures { result ≡ number_at bytes.now at };
}

// One `impl` of one line for each number, since the gate lets no macro of ours write them; `chunk_at` is what they share.
impl Number for u8 {
    ghost number_at = { byte_at };

    fn at(bytes: &[u8], at: usize) -> u8 {
        chunk_at(bytes, at).map_or(0, u8::from_le_bytes)
    }
}

impl Number for u16 {
    ghost number_at = { u16_at };

    fn at(bytes: &[u8], at: usize) -> u16 {
        chunk_at(bytes, at).map_or(0, u16::from_le_bytes)
    }
}

impl Number for u32 {
    ghost number_at = { u32_at };

    fn at(bytes: &[u8], at: usize) -> u32 {
        chunk_at(bytes, at).map_or(0, u32::from_le_bytes)
    }
}

impl Number for i16 {
    ghost number_at = { i16_at };

    fn at(bytes: &[u8], at: usize) -> i16 {
        chunk_at(bytes, at).map_or(0, i16::from_le_bytes)
    }
}

impl Number for i32 {
    ghost number_at = { i32_at };

    fn at(bytes: &[u8], at: usize) -> i32 {
        chunk_at(bytes, at).map_or(0, i32::from_le_bytes)
    }
}

// The `N` bytes from `at` on.
fn chunk_at<const N: usize>(bytes: &[u8], at: usize) -> Option<[u8; N]>
    ensures { result ≡ present (nat_le (at + N) (length bytes.now)) (between at (at + N) bytes.now) }
{
    bytes.get(at..)?.first_chunk().copied()
}
