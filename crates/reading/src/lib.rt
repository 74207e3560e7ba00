// Reading order and the eight places: definitions and laws only.
#![tactic(auto)]
