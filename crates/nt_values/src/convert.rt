//! Conversions between whole numbers, floats and doubles, on their bit patterns. Floats are
//! binary32 and doubles binary64 of IEEE 754-2019.

ghost use Rattle.std.specs.Prelude.{◌≡◌, ℕ, ◌+◌, ◌-◌, ◌*◌, ◌/◌, ◌%◌, ◌^◌, ◌<◌, ◌≤◌, pos, negsuc, ℤ, ◌<ℤ◌, ◌≤ℤ◌, if◌then◌else◌, bit_or};
ghost use Rattle.nt_values.specs.Bits.{Format, float_format, double_format, sign_of, magnitude_of, fraction_of, infinity, IsMeasured, worth, worth_of_whole, IsNearest, IsRounded, IsRoundedOff, IsNearestToInt, IsDoubleOfFloat, IsFloatOfDouble};

/// The sign bit of a float.
const FLOAT_SIGN: u32 = 1 << 31;

/// The greatest exponent field of a float.
const FLOAT_INFINITY: u32 = 0xff << 23;

/// Where the leading 1 of a float's fraction stands, which no pattern holds.
const FLOAT_LEADING: u32 = 1 << 23;

/// The top bit of a float's fraction, which is set in a quiet not-a-number.
const FLOAT_QUIET: u32 = 1 << 22;

/// What a float's exponent field is greater by than the exponent.
const FLOAT_BIAS: u32 = 127;

/// The sign bit of a double.
const DOUBLE_SIGN: u64 = 1 << 63;

/// The greatest exponent field of a double.
const DOUBLE_INFINITY: u64 = 0x7ff << 52;

/// Where the leading 1 of a double's fraction stands, which no pattern holds.
const DOUBLE_LEADING: u64 = 1 << 52;

/// What a double's exponent field is greater by than the exponent.
const DOUBLE_BIAS: u32 = 1023;

/// The exponent field of the double 2^-150, half of the least positive float.
const HALF_OF_LEAST: u32 = 1023 - 150;

/// The exponent field of the double 2^-126, the least normal float.
const LEAST_NORMAL: u32 = 1023 - 126;

/// The exponent field of the double 2^128, past the greatest float.
const PAST_GREATEST: u32 = 1023 + 128;

/// The double that is nearest to a whole number, of two the one with the even fraction (IEEE
/// 754-2019, 5.4.1 formatOf-convertFromInt and 4.3.1 roundTiesToEven). 0 becomes the positive zero.
pub fn double_of_int(n: i128) -> u64
    requires low { negsuc (2 ^ 63 - 1) ≤ℤ n }
    requires high { n <ℤ pos (2 ^ 64) }
    ensures { IsNearestToInt double_format n result }
{
    signed_double(n < 0, double_of_whole(n.unsigned_abs() as u64))
}

/// The float that is nearest to a whole number, of two the one with the even fraction (IEEE
/// 754-2019, 5.4.1 formatOf-convertFromInt and 4.3.1 roundTiesToEven). 0 becomes the positive zero.
pub fn float_of_int(n: i128) -> u32
    requires low { negsuc (2 ^ 63 - 1) ≤ℤ n }
    requires high { n <ℤ pos (2 ^ 64) }
    ensures { IsNearestToInt float_format n result }
{
    signed_float(n < 0, float_of_whole(n.unsigned_abs() as u64))
}

/// The double of the same value as a float (IEEE 754-2019, 5.4.2 formatOf-convertFormat). A
/// not-a-number keeps its sign and its fraction, which moves to the top of the wider one; unlike the
/// standard's, a signalling one stays so.
pub fn double_of_float(bits: u32) -> u64
    ensures { IsDoubleOfFloat bits result }
{
    let magnitude = bits & (FLOAT_SIGN - 1);
    signed_double(bits >= FLOAT_SIGN, widened(magnitude))
}

/// The float that is nearest to a double, of two the one with the even fraction (IEEE 754-2019,
/// 5.4.2 formatOf-convertFormat and 4.3.1 roundTiesToEven). From the middle between the greatest
/// float and 2^128 on it is an infinity; what is rounded to zero keeps its sign. A not-a-number
/// keeps its sign and the top of its fraction, and becomes quiet (6.2.1).
pub fn float_of_double(bits: u64) -> u32
    ensures { IsFloatOfDouble bits result }
{
    let magnitude = bits & (DOUBLE_SIGN - 1);
    signed_float(bits >= DOUBLE_SIGN, narrowed(magnitude))
}

/// This magnitude under a sign.
fn signed_double(is_negative: bool, magnitude: u64) -> u64
    requires { magnitude < 2 ^ 63 }
    ensures sign { sign_of double_format result ≡ (if is_negative then 1 else 0) }
    ensures magnitude { magnitude_of double_format result ≡ magnitude }
{
    if is_negative {
        DOUBLE_SIGN | magnitude
    } else {
        magnitude
    }
}

/// This magnitude under a sign.
fn signed_float(is_negative: bool, magnitude: u32) -> u32
    requires { magnitude < 2 ^ 31 }
    ensures sign { sign_of float_format result ≡ (if is_negative then 1 else 0) }
    ensures magnitude { magnitude_of float_format result ≡ magnitude }
{
    if is_negative {
        FLOAT_SIGN | magnitude
    } else {
        magnitude
    }
}

/// The whole number nearest to `value / 2^drop`, ties to even.
fn rounded_off(value: u64, drop: u32) -> u64
    requires some { 0 < drop }
    requires within { drop < 64 }
    ensures { IsRoundedOff value drop result }
{
    let kept = value >> drop;
    let rest = value & ((1 << drop) - 1);
    let half = 1 << (drop - 1);
    if rest < half {
        kept
    } else if rest > half {
        kept + 1
    } else {
        kept + (kept & 1)
    }
}

/// The magnitude of the double nearest to a whole number.
fn double_of_whole(whole: u64) -> u64
    ensures { IsRounded double_format (worth_of_whole whole) result }
{
    if whole == 0 {
        return 0;
    }
    let zeros = whole.leading_zeros();
    let exponent = DOUBLE_BIAS + 63 - zeros;
    let significand = rounded_off(whole << zeros, 11);
    // The leading 1 of the significand adds itself to the exponent field.
    (u64::from(exponent - 1) << 52) + significand
}

/// The magnitude of the float nearest to a whole number.
fn float_of_whole(whole: u64) -> u32
    ensures { IsRounded float_format (worth_of_whole whole) result }
{
    if whole == 0 {
        return 0;
    }
    let zeros = whole.leading_zeros();
    let exponent = FLOAT_BIAS + 63 - zeros;
    let significand = rounded_off(whole << zeros, 40);
    // The leading 1 of the significand adds itself to the exponent field.
    ((exponent - 1) << 23) + significand as u32
}

/// The magnitude of the double of the same value. A not-a-number keeps its fraction, at the top of
/// the wider one.
fn widened(magnitude: u32) -> u64
    requires { magnitude < 2 ^ 31 }
    ensures within { result < 2 ^ 63 }
    ensures zero { magnitude ≡ 0 → result ≡ 0 }
    ensures finite { magnitude < infinity float_format → result < infinity double_format }
    ensures value { magnitude < infinity float_format
        → worth double_format result ≡ worth float_format magnitude }
    ensures infinite { magnitude ≡ infinity float_format → result ≡ infinity double_format }
    ensures nan { infinity float_format < magnitude → infinity double_format < result }
    ensures nan_fraction { infinity float_format < magnitude
        → fraction_of double_format result ≡ fraction_of float_format magnitude * 2 ^ 29 }
{
    if magnitude == 0 {
        return 0;
    }
    if magnitude < FLOAT_LEADING {
        return widened_subnormal(magnitude);
    }
    // Both exponent fields differ by the biases' difference, or from greatest to greatest.
    let exponents = if magnitude < FLOAT_INFINITY {
        1023 - 127
    } else {
        2047 - 255
    };
    (u64::from(magnitude) << 29) + (exponents << 52)
}

/// The magnitude of the double of the same value as a subnormal float.
fn widened_subnormal(fraction: u32) -> u64
    requires some { 0 < fraction }
    requires below { fraction < 2 ^ 23 }
    ensures finite { result < infinity double_format }
    ensures value { worth double_format result ≡ worth float_format fraction }
{
    let wide = u64::from(fraction);
    let zeros = wide.leading_zeros();
    // The fraction counts units of 2^-149. Its topmost 1 moves to where a double's leading 1 stands,
    // and adds itself to the exponent field.
    let exponent = DOUBLE_BIAS - 149 + 63 - zeros;
    (u64::from(exponent - 1) << 52) + (wide << (zeros - 11))
}

/// The magnitude of the nearest float. A not-a-number keeps the top of its fraction and becomes
/// quiet.
fn narrowed(magnitude: u64) -> u32
    requires { magnitude < 2 ^ 63 }
    ensures within { result < 2 ^ 31 }
    ensures zero { magnitude ≡ 0 → result ≡ 0 }
    ensures nearest { magnitude < infinity double_format
        → IsRounded float_format (worth double_format magnitude) result }
    ensures infinite { magnitude ≡ infinity double_format → result ≡ infinity float_format }
    ensures nan { infinity double_format < magnitude → infinity float_format < result }
    ensures nan_fraction { infinity double_format < magnitude
        → fraction_of float_format result
        ≡ bit_or (fraction_of double_format magnitude / 2 ^ 29) (2 ^ 22) }
{
    if magnitude > DOUBLE_INFINITY {
        return quiet_nan(magnitude - DOUBLE_INFINITY);
    }
    let exponent = (magnitude >> 52) as u32;
    if exponent < HALF_OF_LEAST {
        return 0;
    }
    if exponent >= PAST_GREATEST {
        return FLOAT_INFINITY;
    }
    let significand = DOUBLE_LEADING + (magnitude & (DOUBLE_LEADING - 1));
    if exponent < LEAST_NORMAL {
        // A subnormal float has no leading 1, and loses a bit more with each exponent.
        rounded_off(significand, 29 + (LEAST_NORMAL - exponent)) as u32
    } else {
        // The leading 1 of the significand adds itself to the exponent field.
        ((exponent - LEAST_NORMAL) << 23) + rounded_off(significand, 29) as u32
    }
}

/// The magnitude of a quiet float with the top of a double's fraction.
fn quiet_nan(fraction: u64) -> u32
    requires { fraction < 2 ^ 52 }
    ensures within { result < 2 ^ 31 }
    ensures nan { infinity float_format < result }
    ensures nan_fraction { fraction_of float_format result ≡ bit_or (fraction / 2 ^ 29) (2 ^ 22) }
{
    FLOAT_INFINITY + ((fraction >> 29) as u32 | FLOAT_QUIET)
}

/// Patterns are in the order of what they are worth, exactly one is nearest to a number, and each
/// conversion has one answer.
pub fn conversions_have_one_answer()
    ensures order { (f : Format) (p q : ℕ) → IsMeasured f → p < q
        → worth f p < worth f q }
    ensures nearest_some { (f : Format) (x : ℕ) → IsMeasured f
        → (p : ℕ) × IsNearest f x p }
    ensures nearest_one { (f : Format) (x p q : ℕ) → IsMeasured f
        → IsNearest f x p → IsNearest f x q → p ≡ q }

    ensures double_of_int { (n : ℤ) (a b : ℕ)
        → IsNearestToInt double_format n a → IsNearestToInt double_format n b → a ≡ b }
    ensures float_of_int { (n : ℤ) (a b : ℕ)
        → IsNearestToInt float_format n a → IsNearestToInt float_format n b → a ≡ b }
    ensures double_of_float { (bits a b : ℕ)
        → IsDoubleOfFloat bits a → IsDoubleOfFloat bits b → a ≡ b }
    ensures float_of_double { (bits a b : ℕ)
        → IsFloatOfDouble bits a → IsFloatOfDouble bits b → a ≡ b }
{}
