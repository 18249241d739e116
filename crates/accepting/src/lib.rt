// Laws only: bytes are read as a table exactly when they encode a well-formed, consistent one; OVERLAP is a situation that two rows
// share; reading inverts writing; what a table says is what a matching row gives, else its default; where a default is refused.

#![tactic(auto)]
