//! A number that a symbol costs: of one byte, as a frame and a check have it, or of two, as the machine has it.
ghost use Rattle.std.specs.Prelude.{◌≡◌, ◌≤◌, ℕ, min, eqb, refl};

/// A cost: its value as a number, and the greatest that there is of its kind.
pub trait Cost: Copy {
    ghost value: { Self → ℕ };

    ghost bound: { ℕ };

    // No cost is greater.
    const MOST: Self;

    ghost MOST: { Self };

    fn widened(self) -> u16
        ensures { result ≡ value self };

    fn lesser(self, other: Self) -> Self
        ensures least { value result ≡ min (value self) (value other) }
        ensures bounded { value other ≤ bound };

    fn is_zero(self) -> bool
        ensures { result ≡ eqb (value self) 0 };

    ghost most_is: { value MOST ≡ bound };
}

impl Cost for u8 {
    ghost value = { λ n. n };

    ghost bound = { 255 };

    ghost MOST = { 255 };

    ghost most_is = { refl };

    const MOST: u8 = 255;

    fn widened(self) -> u16 {
        u16::from(self)
    }

    fn lesser(self, other: u8) -> u8 {
        self.min(other)
    }

    fn is_zero(self) -> bool {
        self == 0u8
    }
}

impl Cost for u16 {
    ghost value = { λ n. n };

    ghost bound = { 65535 };

    ghost MOST = { 65535 };

    ghost most_is = { refl };

    const MOST: u16 = 65535;

    fn widened(self) -> u16 {
        self
    }

    fn lesser(self, other: u16) -> u16 {
        self.min(other)
    }

    fn is_zero(self) -> bool {
        self == 0u16
    }
}
