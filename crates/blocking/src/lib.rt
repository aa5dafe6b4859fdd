// The reason why a column is not placed: definitions and theorems alone, in specs/.
#![tactic(auto)]
