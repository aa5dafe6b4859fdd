// When an answer that somebody else sends is accepted: definitions and theorems alone, in specs/.
#![tactic(auto)]
