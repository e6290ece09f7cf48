// The ten marked files of document 01: definitions and a theorem alone, no code.
#![tactic(auto)]
