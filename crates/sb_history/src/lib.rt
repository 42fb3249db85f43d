//! What a history of a disk means. The definitions are in `specs/`; docs/DEFINITIONS.md says them in plain words.
#![tactic(auto)]
