// That the bytes written, opened and decoded, give back what was handed in: specs/Claims.antt claims it, and proofs/ReadsBack.antt proves
// it. There is no code here: it is a claim about the definitions, which the code of the writer and of the readers is proved against.

#![tactic(auto)]
