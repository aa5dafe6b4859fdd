// An open model, its edits and what is held after them: definitions and theorems alone, in specs/.
#![tactic(auto)]
