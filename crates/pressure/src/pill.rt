// The value of a key of a force against a resistance: 186 + 837 * r / (r + ohms) with r = 100 / f^3.06, in 256ths, by whole numbers. The
// Rust's `powf` differs between platforms; this lies within 1/4 of the exact value for every force above 0.001 (proofs/Law).
ghost use Rattle.std.specs.Prelude.{◌≡◌, ◌+◌, ◌*◌, ◌<◌, ◌≤◌, slice_index};
ghost use Rattle.pressure.specs.Pin.{Ohms};
ghost use Rattle.pressure.specs.Value.{value_of, open_up_to, at_most_one, expo, mant, Pattern, factor_of, cubed, fraction};

// 1023, an open key, in 256ths.
pub const OPEN: u32 = 261888;

// 2^15 * 2^(0.06 * (i - 10))
const EXPO: [u16; 11] = [
    21619, 22537, 23494, 24492, 25532, 26616, 27746, 28924, 30153, 31433, 32768,
];

// 2^15 * m^0.06 at the middle of the step of m from 1 + j/64 to 1 + (j + 1)/64
const MANT: [u16; 64] = [
    32783, 32814, 32843, 32873, 32902, 32930, 32959, 32987, 33014, 33041, 33068, 33094, 33121,
    33146, 33172, 33197, 33222, 33247, 33271, 33295, 33319, 33342, 33366, 33389, 33411, 33434,
    33456, 33478, 33500, 33522, 33543, 33564, 33585, 33606, 33627, 33647, 33667, 33687, 33707,
    33727, 33746, 33766, 33785, 33804, 33822, 33841, 33860, 33878, 33896, 33914, 33932, 33950,
    33967, 33985, 34002, 34019, 34036, 34053, 34070, 34086, 34103, 34119, 34135, 34151,
];

// Up to which force the Rust's r + ohms is r, so that its value is 1023 but for its rounding.
fn open_up_to(ohms: f32) -> f32
    ensures { result ≡ open_up_to ohms }
{
    if ohms <= 51.0 {
        return 0.00503872;
    }
    if ohms <= 132.0 {
        return 0.003203086;
    }
    if ohms <= 312.0 {
        return 0.0025538348;
    }
    0.001
}

// The Rust's f.min(1.0).
fn at_most_one(f: f32) -> f32
    ensures { result ≡ at_most_one f }
{
    if f <= 1.0 {
        return f;
    }
    1.0
}

fn wide(x: u16) -> u64
    ensures { (result ≡ x) × (result < 65536) }
{
    x as u64
}

fn expo_at(i: usize) -> u64
    requires { i < 11 }
    ensures { (result ≡ slice_index expo i) × (result < 65536) }
{
    wide(EXPO[i])
}

fn mant_at(j: usize) -> u64
    requires { j < 64 }
    ensures { (result ≡ slice_index mant j) × (result < 65536) }
{
    wide(MANT[j])
}

// 2^15 * f^0.06 for the f32 of the pattern b, within one part in 1720.
fn factor(b: u32) -> u64
    requires { Pattern b }
    ensures { result ≡ factor_of 153 b }
{
    let i = (b / 8388608 - 117) as usize;
    let j = (b / 131072 % 64) as usize;
    (expo_at(i) * mant_at(j) + 16384) / 32768
}

// 2^24 * f^3 for the f32 of the pattern b, cut to a whole number.
fn cube(b: u32) -> u64
    requires { Pattern b }
    ensures { result ≡ cubed b }
{
    let n = ((b % 8388608 + 8388608) >> (129 - b / 8388608)) as u64;
    n * n * n / 549755813888
}

// 256 * (186 + 837 * 100 / (100 + ohms * f^3.06)) for the cube c and the factor t of f; the 1 less keeps it below OPEN.
fn divided(c: u64, t: u64, ohms: u64) -> u32
    requires { (c ≤ 16777216) × (t ≤ 36000) × (ohms ≤ 10000) }
    ensures value { result ≡ 47616 + fraction (ohms * (c * t)) }
    ensures bounded { result < 261888 }
{
    (47616 + 11779727775340953599 / (54975581388800 + ohms * (c * t))) as u32
}

// The value in 256ths; at or below 0.001 it is 1023.
pub fn value(f: f32, ohms: f32) -> u32
    requires { Ohms ohms }
    ensures value { result ≡ value_of 153 ohms f }
    ensures bounded { result ≤ 261888 }
{
    if f <= open_up_to(ohms) {
        return OPEN;
    }
    let b = f32::to_bits(at_most_one(f));
    divided(cube(b), factor(b), ohms as u64)
}
