//! Whether acknowledgements are selective.
ghost use Rattle.std.specs.Prelude.{◌≡◌};
ghost use Rattle.net_tcp.specs.Sack.{is_permitted};

/// Whether both ends have agreed to selective acknowledgements: the option SACK-permitted of RFC 2018, in both SYNs.
///
/// ```
/// use net_base::time::Duration;
/// use net_tcp::{RetransmissionTimer, Sack};
///
/// let timer = RetransmissionTimer::new(Duration::from_secs(1), Sack::Permitted);
/// assert_eq!(timer.expires_at(), None);
/// ```
#[derive(Copy, Clone, Debug, PartialEq, Eq, Hash)]
pub enum Sack {
    /// They have: an acknowledgement says in blocks what has arrived.
    Permitted,
    /// They haven't: an acknowledgement is a number alone.
    Absent,
}

impl Sack {
    /// Returns whether both ends have agreed.
    pub(crate) const fn is_permitted(self) -> bool
        ensures { result ≡ is_permitted self }
    {
        matches!(self, Sack::Permitted)
    }
}
