ghost use Rattle.std.specs.Prelude.{◌≡◌};
ghost use Rattle.model.specs.Bits.{bit_at};

// Whether bit k stands, bit 0 being the lowest; from 64 up none does.
pub fn has_bit(bits: u64, k: usize) -> bool
    ensures { result ≡ bit_at bits k }
{
    k < 64 && (bits >> k) % 2 == 1
}
