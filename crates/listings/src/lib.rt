// The blocks of a model and the order in which they are listed: definitions and theorems alone, in specs/.
#![tactic(auto)]
