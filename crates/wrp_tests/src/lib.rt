//! Tests that have to be code: a law with its closure, the exchange beside a plain program, a port's schedule over so
//! many ticks that each sequenceId goes round, the calls of a servo that numbers draw, beside a plain program, and the
//! link over sockets: no clause says what it carries. The tests of a world are in `wrp_world_tests`, and the tests of a
//! loop over sockets in `wrp_socket_tests`. All else is cases.
#![tactic(auto)]

#[cfg(test)]
mod exch;
#[cfg(test)]
mod law;
#[cfg(test)]
mod port;
#[cfg(test)]
mod servo;
#[cfg(test)]
mod udp_link;
