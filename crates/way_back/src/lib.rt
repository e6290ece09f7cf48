// What reading a written case gives: a claim and its theorem alone, no code.
#![tactic(auto)]
