//! Tests of links, sockets, streams, replays, made loads, live runs, which packet a datagram delivers, and nodes, apart
//! from their crates, since a check of tests proves its crate once more.
#![tactic(auto)]

#[cfg(test)]
mod given;
#[cfg(test)]
mod live;
#[cfg(test)]
mod loads;
#[cfg(test)]
mod matching;
#[cfg(test)]
mod node;
#[cfg(test)]
mod outside;
#[cfg(test)]
mod replays;
#[cfg(test)]
mod sockets;
#[cfg(test)]
mod streams;
