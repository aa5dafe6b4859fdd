// Theorems alone, in specs/: what the promises of the calls, and the theorems on determinants, rule out, and how little the promises leave open.
#![tactic(auto)]
