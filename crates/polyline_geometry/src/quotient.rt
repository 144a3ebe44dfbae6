//! Quotients guessed by floats. Serves the snap of a point to a segment; decided by the quotient of
//! natural numbers.
ghost use Rattle.std.specs.Prelude.{◌≡◌, ◌/◌, ◌<◌, ◌≤◌, ◌^◌};

use std::num::saturating_f64_to_i64;

/// A guess at a quotient: the quotient of the numbers as floats, rounded down.
fn guess_quotient(m: u64, n: u64) -> u64
    requires m_in { m ≤ 2 ^ 53 }
    requires n_in { n ≤ 2 ^ 53 }
    ensures { result ≤ 2 ^ 32 }
{
    let machine = m as i64 as f64 / n as i64 as f64;
    saturating_f64_to_i64(machine).clamp(0, 1 << 32) as u64
}

/// The quotient, rounded down. The guess is used if its product shows that it is right; otherwise a
/// slower division of whole numbers decides.
#[tactic(auto, using(crate::proofs::Parts::is_quotient))]
pub(crate) fn quotient(m: u64, n: u64) -> u64
    requires { 0 < n }
    ensures value { result ≡ m / n }
    ensures within { result ≤ m }
{
    if m <= 1 << 53 && n < 1 << 32 {
        let guess = guess_quotient(m, n);
        let product = guess * n;
        if product <= m && m - product < n {
            return guess;
        }
    }
    m / n
}
