// Labels, places, moves: the definitions in specs/ and the theorems in proofs/. No code of its own.
#![tactic(auto)]
