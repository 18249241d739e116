// Definitions and laws only: bytes written one behind another into a lent buffer. No code stands here.

#![tactic(auto)]
