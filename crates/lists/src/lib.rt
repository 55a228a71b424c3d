#![tactic(auto)]

// Words on lists that the definitions of the other crates share, and their laws.
