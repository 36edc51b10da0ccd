// That a sheet is a bar on paper in the customer's words, and that it shows of a written segment what was handed in: specs/ claims it, and
// proofs/ proves it. There is no code here: it is a claim about the definitions, which the code is proved against.

#![tactic(auto)]
