// Half-words: what they are (specs/), and the theorems about that; `expand` has the code.
#![tactic(auto)]
