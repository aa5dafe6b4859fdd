// Definitions and laws alone, in specs/: finite sets of columns and rows, their sizes, and the largest value over all choices.
#![tactic(auto)]
