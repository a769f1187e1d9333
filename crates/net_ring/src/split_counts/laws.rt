//! Laws of rings whose ends run apart. The functions do nothing: a contract is the law.
ghost use Rattle.std.specs.Prelude.{◌≡◌, ◌≢◌, ◌<◌, ◌≤◌, ◌+◌, ◌-◌, ◌++◌, ℕ, List, All, length, take};
ghost use Rattle.net_ring.specs.Width.{IsUsize};
ghost use Rattle.net_ring.specs.Overwrite.{overwrite};
ghost use Rattle.net_ring.specs.Ring.{queue, spare, window, storage_index};
ghost use Rattle.net_ring.specs.SplitRing.{Step, Writes, fresh, after_step, after_steps, whole, writer, reader};
ghost use Rattle.net_ring.specs.SplitRing.{AreCounts, counts, IsOfWriter, IsOfReader};

/// States of each list of steps of the two ends, in any order, in which an end may read an older value of the other's
/// count, but none older than it read before:
///
/// - `order`: what was taken, followed by what the ring holds, is what was written, in order. So what is taken is a
///   prefix of what was written.
/// - `shown`: what the reading end knows of is the first elements of what the ring holds.
/// - `room`, `elements`: the writing end knows of no room, and the reading end of no elements, that aren't there.
/// - `kept`: a write, before it is counted, changes nothing of what the ring holds: nothing is written over before it
///   was taken.
/// - `written`: it is then in the free elements, from which counting takes the first.
/// - `apart`: no element that may be written is one that may be read, so that neither end waits for the other.
/// - `lent_to_read`, `lent_to_write`: what one end was lent stays as it is, and where it is, whatever the other does:
///   so a device may hold it over any calls of the other end.
/// - `sound`: what each end knows meets what its calls require.
#[tactic(auto, using(crate::proofs::SplitSteps::steps))]
pub fn ends_run_apart<T>()
    ensures order { (storage : List T) (steps : List (Step T)) →
        let s = after_steps (fresh storage) steps in
        s.left ++ queue (whole s) ≡ s.accepted }
    ensures shown { (storage : List T) (steps : List (Step T)) →
        let s = after_steps (fresh storage) steps in
        queue (reader s) ≡ take (reader s).count (queue (whole s)) }
    ensures room { (storage : List T) (steps : List (Step T)) →
        let s = after_steps (fresh storage) steps in
        window (writer s) ≤ window (whole s) }
    ensures elements { (storage : List T) (steps : List (Step T)) →
        let s = after_steps (fresh storage) steps in
        (reader s).count ≤ (whole s).count }
    ensures kept { (storage : List T) (steps : List (Step T)) (i : ℕ) (xs : List T) →
        let s = after_steps (fresh storage) steps in
        queue (whole (after_step s (Writes i xs))) ≡ queue (whole s) }
    ensures written { (storage : List T) (steps : List (Step T)) (i : ℕ) (xs : List T) →
        let s = after_steps (fresh storage) steps in spare (writer (after_step s (Writes i xs)))
        ≡ overwrite (spare (writer s)) i (take (window (writer s) - i) xs) }
    ensures apart { (storage : List T) (steps : List (Step T)) (i j : ℕ) →
        let s = after_steps (fresh storage) steps in
        i < window (writer s) → j < (reader s).count →
        storage_index (writer s) ((writer s).count + i) ≢ storage_index (reader s) j }
    ensures lent_to_read { (storage : List T) (steps vs : List (Step T)) → All IsOfWriter vs →
        let s = after_steps (fresh storage) steps in
        queue (reader (after_steps s vs)) ≡ queue (reader s) }
    ensures lent_to_write { (storage : List T) (steps vs : List (Step T)) → All IsOfReader vs →
        let s = after_steps (fresh storage) steps in writer (after_steps s vs) ≡ writer s }
    ensures sound { (storage : List T) (steps : List (Step T)) →
        IsUsize (length storage + length storage) →
        let s = after_steps (fresh storage) steps in
        AreCounts (length storage) (counts s.written s.taken_seen)
        × AreCounts (length storage) (counts s.written_seen s.taken) }
{}
