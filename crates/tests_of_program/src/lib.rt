//! Tests of the program: whole runs over wires in memory, and an engine line by line, through public calls alone.
#![tactic(auto)]

#[cfg(test)]
mod bad_lines;
#[cfg(test)]
mod engines;
#[cfg(test)]
mod kept;
#[cfg(test)]
mod modes;
#[cfg(test)]
mod rows;
#[cfg(test)]
mod runs;
#[cfg(test)]
mod trades;
