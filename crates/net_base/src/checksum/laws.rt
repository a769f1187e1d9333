//! The laws of the Internet checksum. No function here changes anything.

ghost use Rattle.std.specs.Prelude.{◌≡◌, ℕ, ◌+◌, ◌<◌, ◌≤◌, ◌⊎◌, List, ◌++◌, All};
ghost use Rattle.net_base.specs.InternetChecksum.{carried_sum, folded, internet_checksum, word_bytes, word_sum};
ghost use Rattle.net_base.specs.InternetChecksum.{updated as updated_word, IsEven};

/// States what the folded sum is: that of RFC 1071, which adds each carry at the low end; and that
/// neither cuts at even offsets nor where a part is folded changes it.
#[tactic(auto, using(crate::proofs::WordSums::sums))]
pub fn sums()
    ensures carried { (xs : List ℕ) → All (λ x. x < 256) xs →
        carried_sum 0 xs ≡ folded (word_sum xs) }
    ensures groups { (xs ys : List ℕ) → IsEven xs →
        word_sum (xs ++ ys) ≡ word_sum xs + word_sum ys }
    ensures folds { (a b : ℕ) → folded (a + folded b) ≡ folded (a + b) }
{}

/// States which checksums are valid, at an even offset: the one that is computed with a zero field, and
/// no other, except perhaps 65535 where that is 0.
#[tactic(auto, using(crate::proofs::WordSums::checksum_verifies))]
pub fn verification()
    ensures verifies { (xs ys : List ℕ) → IsEven xs →
        folded (word_sum (xs ++ word_bytes (internet_checksum (xs ++ word_bytes 0 ++ ys))
        ++ ys)) ≡ 65535 }
    ensures only { (xs ys : List ℕ) (c : ℕ) → IsEven xs → c ≤ 65535 →
        folded (word_sum (xs ++ word_bytes c ++ ys)) ≡ 65535 →
        (c ≡ internet_checksum (xs ++ word_bytes 0 ++ ys))
        ⊎ ((c ≡ 65535) × (internet_checksum (xs ++ word_bytes 0 ++ ys) ≡ 0)) }
{}

/// States what an update gives, unless the message is all zeros then: from the checksum of the message
/// before, the checksum of the message; and a message that was valid stays so.
#[tactic(auto, using(crate::proofs::WordSums::updates))]
pub fn updates()
    ensures checksum { (xs ys : List ℕ) (m n : ℕ) → IsEven xs → m ≤ 65535 → n ≤ 65535 →
        0 < word_sum (xs ++ word_bytes n ++ ys) →
        updated_word (internet_checksum (xs ++ word_bytes m ++ ys)) m n
        ≡ internet_checksum (xs ++ word_bytes n ++ ys) }
    ensures valid { (xs ys zs : List ℕ) (c m n : ℕ) → IsEven xs → IsEven ys →
        c ≤ 65535 → m ≤ 65535 →
        n ≤ 65535 → 0 < word_sum (xs ++ ys ++ word_bytes n ++ zs) →
        folded (word_sum (xs ++ word_bytes c ++ ys ++ word_bytes m ++ zs)) ≡ 65535 →
        folded (word_sum (xs ++ word_bytes (updated_word c m n) ++ ys ++ word_bytes n
        ++ zs)) ≡ 65535 }
{}
