//! Examples of the words that the theorems and the public calls cite: of each word one that holds, and one that doesn't. It has
//! no code.
#![tactic(auto)]
