//! Tests of a node that is asked by lines as they come.

#[cfg(test)]
mod lines;
#[cfg(test)]
mod threads;
