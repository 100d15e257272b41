// Where the octets of a word stand on the line, and how long a burst a word rides out: definitions and theorems
// over plain numbers. The code that rests on them is in the crates above.
#![tactic(auto)]
