// What reading a load gives: claims and their theorems alone, no code.
#![tactic(auto)]
