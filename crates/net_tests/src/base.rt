//! The tests of `net_base`, each through its public calls, and a device that is no loopback.

mod phy;
mod two_lists;
