//! The tests of graphs, relations and summaries, over public calls alone: parts with a fault, readers of
//! a graph, the alarms of graphs by hand, and relations.
//!
//! Expected alarms are worked out from the state table of docs/STATES.md.
#![tactic(auto)]

#[cfg(test)]
mod drawings;
#[cfg(test)]
mod faults;
#[cfg(test)]
mod relations;
#[cfg(test)]
mod summaries;
