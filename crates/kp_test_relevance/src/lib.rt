//! Tests of relevance, and of the clauses that are relevant to a literal.
#![tactic(auto)]

#[cfg(test)]
mod clauses;
#[cfg(test)]
mod given;
#[cfg(test)]
mod related;
