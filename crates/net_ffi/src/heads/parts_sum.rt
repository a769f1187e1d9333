//! The Internet checksum of a message in parts, such as a pseudo-header, a header and data.
//!
//! A head of zeros is new: no bytes were added.
ghost use Rattle.net_base.specs.InternetChecksum.{Sums, internet_checksum, sum_with};
ghost use Rattle.std.specs.Prelude.{IsFalse, List, [], ℕ, ◌++◌, ◌-◌, ◌≡◌};

use net_base::checksum::PartsSum;

/// Makes `sum` the sum of no bytes.
#[unsafe(no_mangle)]
pub extern "C" fn net_base_parts_sum_init(sum: &mut PartsSum)
    ensures nothing { Sums sum.new [] }
    ensures zeros { (sum.new.sum ≡ 0) × IsFalse sum.new.odd }
{
    *sum = PartsSum::new();
}

/// Adds the bytes that follow those which were added.
#[unsafe(no_mangle)]
pub extern "C" fn net_base_parts_sum_add(sum: &mut PartsSum, part: &[u8])
    ensures value { sum.new ≡ sum_with sum.old part.now }
    ensures bytes { (xs : List ℕ) → Sums sum.old xs → Sums sum.new (xs ++ part.now) }
{
    sum.add(part);
}

/// Returns the checksum of the bytes that were added. It is a number: in a message its high byte
/// comes first. UDP sends 65535 in place of 0, which says there that there is none (RFC 768): a
/// message with either is valid.
#[unsafe(no_mangle)]
pub extern "C" fn net_base_parts_sum_checksum(sum: &PartsSum) -> u16
    ensures value { result ≡ 65535 - sum.now.sum }
    ensures bytes { (xs : List ℕ) → Sums sum.now xs → result ≡ internet_checksum xs }
{
    sum.checksum()
}
