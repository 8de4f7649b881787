// Definitions and laws that every crate above cites, on lists, searches and writers. They stand in
// specs/ and proofs/; no code is needed for them, and nothing here is of the field.
#![tactic(auto)]
