// Laws of replies: the numbers of each one, a voice's set held against the reply under a choice, and which merges are accepted. No
// code stands here.

#![tactic(auto)]
