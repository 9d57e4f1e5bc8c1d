//! Tests of lines and texts that no word of the program prints, or shows whole, by the public calls: headers and steps, read of
//! their lines and printed for them, a reader that goes on behind what it refused, and what no script brings about as text.
#![tactic(auto)]

#[cfg(test)]
mod headers;
#[cfg(test)]
mod messages;
#[cfg(test)]
mod rows;
#[cfg(test)]
mod steps;
