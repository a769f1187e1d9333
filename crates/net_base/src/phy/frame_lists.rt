//! The trait of a device whose frames are in lists.
ghost use Rattle.std.specs.Prelude.{◌≡◌, ◌∷◌, ◌++◌, [], ℕ, List};

use crate::phy::Device;

/// A device whose frames are in lists: received frames are taken off the head of one list, and sent
/// frames are appended to one, which may be the same list.
///
/// Each such device proves this by the three laws. Contracts can then say in terms of lists which
/// frames passed between such devices.
pub trait FrameLists: Device {
    /// The frames that wait to be taken off, the next first.
    ghost incoming: { Self → List (List ℕ) };

    /// The frames that were sent and are still there, the last one last.
    ghost outgoing: { Self → List (List ℕ) };

    /// The frame that is taken is the first one.
    ghost takes_first: { (old : Self) (frame : List ℕ) (new : Self)
        → Self.taken old frame new
        → incoming old ≡ frame ∷ incoming new };

    /// If no frame is handed over, none is lost.
    ghost keeps_all: { (old new : Self) → Self.idled old new
        → incoming new ≡ incoming old };

    /// A frame that is sent is the last one.
    ghost sends_last: { (old : Self) (frame : List ℕ) (new : Self)
        → Self.sent old frame new
        → outgoing new ≡ outgoing old ++ frame ∷ [] };
}
