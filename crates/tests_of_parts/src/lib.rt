//! Tests of the parts of the program, through public calls alone: of queries and words, how they are read; of wires and of files
//! that are replaced whole; of admission, sequences of lines against what is answered, released and held; of operators, what is
//! refused where it is loaded; and of the hashes of keys. What operators answer, and how they go on from what they save, is tested
//! by runs of the program.
#![tactic(auto)]

#[cfg(test)]
mod crashes;
#[cfg(test)]
mod entries;
#[cfg(test)]
mod files;
#[cfg(test)]
mod hashing;
#[cfg(test)]
mod options;
#[cfg(test)]
mod parsing;
#[cfg(test)]
mod refusals;
#[cfg(test)]
mod running;
#[cfg(test)]
mod samples;
#[cfg(test)]
mod sequences;
#[cfg(test)]
mod wires;
