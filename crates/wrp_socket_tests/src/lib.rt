//! The tests of a loop over the sockets of this machine. They call the whole program, so they are a crate of their own: all
//! other tests of the link over sockets are in `wrp_tests`, which needs no network.
#![tactic(auto)]

#[cfg(test)]
mod looping;
#[cfg(test)]
mod udp_link;
