// Definitions and laws alone, in specs/: document 01's model from numbers, whose test of independence is that of `rank`, shown to be right.
#![tactic(auto)]
