// Laws only: notices and voices are accepted exactly when they encode lawful lists of facts and lawful trees; reading
// inverts writing, and writing reading. No code stands here.

#![tactic(auto)]
