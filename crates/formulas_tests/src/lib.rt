// Tests of the reader of commands on commands made by hand: each kind of command and formula, and each limit at its edge and past it.
#![tactic(auto)]

#[cfg(test)]
mod commands;
#[cfg(test)]
mod notation;
#[cfg(test)]
mod parts;
