//! Whole square roots. Serves `straight`; decided by `root`.
ghost use Rattle.std.specs.Prelude.{◌≡◌, ◌≤◌, ◌^◌};
ghost use Rattle.polyline_geometry.specs.Plane.{root};

/// The number of fraction bits of a float, and the exponent of 2^52 as the bits above them encode it.
const FRACTION_BITS: u64 = 52;

const WHOLE_EXPONENT: u64 = 1_075;

/// A guess at the whole square root: the machine's square root of the number as a float, rounded down
/// by its bits.
fn guess_root(n: u64) -> u64
    requires { n ≤ 2 ^ 53 }
    ensures { result ≤ 2 ^ 53 }
{
    let machine = (n as f64).sqrt();
    if machine.is_nan() {
        return 0;
    }
    let bits = machine.to_bits();
    let leading: u64 = 1 << FRACTION_BITS;
    let fraction = bits % leading + leading;
    fraction >> WHOLE_EXPONENT.saturating_sub(bits >> FRACTION_BITS).min(63)
}

/// The greatest r with `r * r <= n`, for 64 bits. The guess is used if its square shows that it is
/// right, as for each n up to 2^53; otherwise bisection decides.
#[tactic(auto, using(crate::proofs::Roots::is_root))]
fn narrow_root(n: u64) -> u64
    ensures { result ≡ root n }
{
    if n <= 1 << 53 {
        let guess = guess_root(n);
        if guess < 1 << 32 {
            let square = guess * guess;
            if square <= n && n - square <= 2 * guess {
                return guess;
            }
        }
    }
    n.isqrt()
}

/// The greatest r with `r * r <= n`.
#[tactic(auto, using(crate::proofs::Roots::is_root))]
pub fn root(n: u128) -> u64
    ensures { result ≡ root n }
{
    if n < 1 << 64 {
        narrow_root(n as u64)
    } else {
        n.isqrt() as u64
    }
}
