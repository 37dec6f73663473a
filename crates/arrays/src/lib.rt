// Laws alone: the arrays of a circuit, when they are well formed (01, 'An accepted key'), their dense matrices, and the one
// pass that gives every array's extension (01, 'Dense form and evaluation'; 004, Lemma 2). The definitions stand in specs/.
#![tactic(auto)]
