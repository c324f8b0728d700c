//! Tests of the whole program over outsides in memory.
#![tactic(auto)]

#[cfg(test)]
mod body;
#[cfg(test)]
mod outside;
#[cfg(test)]
mod show;
