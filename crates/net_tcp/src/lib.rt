//! Small machines that a TCP needs beside its two queues: the test of an arriving segment, the windows of both sides,
//! the time until a retransmission, its timer, and what is sent next where segments are lost. They store no bytes: a
//! recovery is given the sender's numbers and the scoreboard.
#![tactic(auto)]

pub mod advertised_window;
pub mod answer_limit;
pub mod arriving;
pub mod duplicate_block;
pub mod equal_acknowledgement;
pub mod laws;
pub mod loss_recovery;
pub mod peer_window;
pub mod reported;
pub mod retransmission;
pub mod retransmission_timer;
pub mod sack;

pub use advertised_window::{AdvertisedWindow, MAX_SCALE, scale_for};
pub use answer_limit::AnswerLimit;
pub use arriving::{Arrival, Segment, classify, is_acceptable, is_acknowledgement};
pub use duplicate_block::is_duplicate_block;
pub use equal_acknowledgement::is_equal_acknowledgement;
pub use loss_recovery::{Answer, Before, LossRecovery};
pub use peer_window::{Announcement, PeerWindow, scaled};
pub use reported::{LentScoreboard, Reported};
pub use retransmission::{RetransmissionTimeout, RttEstimate, TimeoutBounds, Transmission};
pub use retransmission_timer::{Expiry, RetransmissionTimer, TimedSegment};
pub use sack::Sack;
