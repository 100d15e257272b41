// Polynomials over a field, Reed-Solomon words and their check octets, the distance of words, and the equations that find
// an error: definitions and theorems over plain numbers. The code that rests on them is in the crates above.
#![tactic(auto)]
