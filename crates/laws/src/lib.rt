// Inner layer: no code, only theorems about the public calls. Read proofs/Lib.antt, which names the pages, and proofs/Demands.antt.
#![tactic(auto)]
