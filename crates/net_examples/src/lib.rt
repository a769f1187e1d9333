//! The smallest users of the libraries, one for each kind. Pages and doc comments quote them.
#![tactic(auto)]

mod acknowledgement;
mod anew;
mod bridge;
mod endpoint;
mod first_element;
mod in_order;
mod inbox;
pub mod laws;
mod left_over;
mod line;
mod packets;
mod ranges;
mod samples;
mod sending;
mod timer;

pub use acknowledgement::acknowledge;
pub use anew::replay_anew;
pub use bridge::{forward, forward_lists, forward_one};
pub use endpoint::Endpoint;
pub use first_element::set_first;
pub use in_order::{receive, receive_halves};
pub use inbox::Inbox;
pub use left_over::send_part;
pub use line::Line;
pub use packets::{push_packet, wipe_first};
pub use ranges::came;
pub use samples::Samples;
pub use sending::send_all;
pub use timer::Timer;
