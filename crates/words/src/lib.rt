// Definitions and laws only: the bits of words, and words put together from their bits. No code stands here.

#![tactic(auto)]
