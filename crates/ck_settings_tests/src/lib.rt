//! The tests of ck_settings, over its public call alone: documents with what they are read as or with
//! their first fault, and long documents.
//!
//! Expected values come from docs/SETTINGS.md, worked out by hand.
#![tactic(auto)]

#[cfg(test)]
mod documents;
#[cfg(test)]
mod faults;
#[cfg(test)]
mod handlers;
#[cfg(test)]
mod long;
