//! The ports of operators: lines, texts of replies, connections over memory, and pages over HTTP.
#![tactic(auto)]

#[cfg(test)]
mod admin_lines;
#[cfg(test)]
mod admin_talks;
#[cfg(test)]
mod asked;
#[cfg(test)]
mod ends;
#[cfg(test)]
mod figures;
#[cfg(test)]
mod http;
#[cfg(test)]
mod settings;
#[cfg(test)]
mod texts;
