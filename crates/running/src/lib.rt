// Laws only: runs of node arrays. What is refused follows from heights alone, parts are run one after the other, a stack
// with fewer places that is not full answers as a larger one, and turns that follow a column are done at once with it.

#![tactic(auto)]
