// Definitions only: the trees of policies and tests, what they may say, and how their bytes are read. See specs/Meaning.antt.

#![tactic(auto)]
