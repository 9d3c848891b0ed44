//! The tests of this repository: what no contract says and no line of the conformance run shows. A crate whose tests
//! stand in it is proved twice, and so they stand here, above all that they call.
#![tactic(auto)]

#[cfg(test)]
mod checking;
#[cfg(test)]
mod combining;
#[cfg(test)]
mod documents;
#[cfg(test)]
mod functions;
#[cfg(test)]
mod help;
#[cfg(test)]
mod hostile;
#[cfg(test)]
mod index;
#[cfg(test)]
mod lines;
#[cfg(test)]
mod machine;
#[cfg(test)]
mod members;
#[cfg(test)]
mod program;
#[cfg(test)]
mod responses;
#[cfg(test)]
mod rows;
#[cfg(test)]
mod serving;
#[cfg(test)]
mod split;
#[cfg(test)]
mod states;
#[cfg(test)]
mod tested;
#[cfg(test)]
mod told;
#[cfg(test)]
mod words;
