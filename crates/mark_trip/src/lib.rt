// What was written of a mark reads back: the theorem alone, in specs/ and proofs/, by which the contract of writing a mark is proved.
#![tactic(auto)]
