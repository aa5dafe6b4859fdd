// Theorems alone, in specs/, over the promises of the calls: files read and written, input cut off, areas longer than the model, rows used
// and left over, the rank of textbooks, document 01's file.
#![tactic(auto)]
