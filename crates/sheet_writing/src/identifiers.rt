// Where identifiers come from: words, or their bytes as C lends them.
ghost use Rattle.std.specs.Prelude.{◌≡◌, ℕ};
ghost use Rattle.std.specs.Int.{w32, from_le_bytes};

pub(crate) trait Identifier {
    ghost value: { Self → ℕ };

    fn word(&self) -> u32
        ensures { result ≡ value self.now };
}

impl Identifier for u32 {
    ghost value = { λ v. v };

    fn word(&self) -> u32 {
        *self
    }
}

// Lowest byte first.
impl Identifier for [u8; 4] {
    ghost value = { λ b. from_le_bytes w32 b };

    fn word(&self) -> u32 {
        u32::from_le_bytes(*self)
    }
}
