//! Tests of frames, messages, records, receipts, rolling audits, the parts of sessions and where a dispatch goes,
//! through their public calls.
#![tactic(auto)]

#[cfg(test)]
mod agreements;
#[cfg(test)]
mod choices;
#[cfg(test)]
mod configurations;
#[cfg(test)]
mod frames;
#[cfg(test)]
mod gates;
#[cfg(test)]
mod histories;
#[cfg(test)]
mod initiation;
#[cfg(test)]
mod messages;
#[cfg(test)]
mod receipts;
#[cfg(test)]
mod refusals;
#[cfg(test)]
mod tag_pools;
#[cfg(test)]
mod turns;
#[cfg(test)]
mod values;
