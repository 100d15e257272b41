// What the calls of the two ends do, whole runs of them, and the burst theorem: definitions and theorems over plain numbers and
// lists. The code that rests on them is in the crates above.
#![tactic(auto)]
