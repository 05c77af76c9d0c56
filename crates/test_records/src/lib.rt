//! Tests of records beside plain programs: sets of records and registries over lines that are drawn, large sets, what is fetched of
//! live versions, devices that fail, the texts of errors, and texts and lists that contracts see as plain ones. Worked rows lie in
//! `record_cases` and `rule_cases`.
#![tactic(auto)]

#[cfg(test)]
mod devices;
#[cfg(test)]
mod errors;
#[cfg(test)]
mod lines;
#[cfg(test)]
mod lists;
#[cfg(test)]
mod looking;
#[cfg(test)]
mod registry;
#[cfg(test)]
mod sets;
