// A length in whole millimetres, by the bits of its float: whole numbers all the way, so nothing is rounded but the last digit.
ghost use Rattle.std.specs.Prelude.{◌≡◌, ◌*◌, ◌<◌};
ghost use Rattle.block_lengths.specs.Millimetres.{millimetres};
ghost use Rattle.block_lengths.specs.Bits.{halves_of};

// The weight of the exponent's field of a float, and of the digit before its 52 others.
const LEADING: u64 = 4503599627370496;

// The half millimetres of a length below 2 ^ 53 m, rounded down, by its bits: its digits are so many metres, over 2 to the shift.
fn half_millimetres(bits: u64) -> u64
    requires { bits < 1076 * 4503599627370496 }
    ensures { result ≡ halves_of bits }
{
    let shift = 1075 - bits / LEADING;
    if 63 < shift {
        return 0;
    }
    (2000 * (LEADING + bits % LEADING)) >> shift
}

// The whole number of millimetres nearest to a length in metres, the upper of two that are as near. 0 where the float is no length below 2 ^ 53 m.
pub fn millimetres(length: f64) -> u64
    ensures { result ≡ millimetres length }
{
    if length < 9007199254740992.0 {
        if 0.0 < length {
            let halves = half_millimetres(f64::to_bits(length));
            return halves / 2 + halves % 2;
        }
    }
    0
}
