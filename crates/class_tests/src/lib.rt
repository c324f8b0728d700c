//! Tests of class tables, worked by hand: what is refused, and what is asked of a table (ECMA-335 I.8.5.3, I.8.7, I.8.10.4,
//! II.10.3, II.12.2).
#![tactic(auto)]

#[cfg(test)]
mod access;
#[cfg(test)]
mod arrays;
#[cfg(test)]
mod implemented;
#[cfg(test)]
mod lookups;
#[cfg(test)]
mod made;
